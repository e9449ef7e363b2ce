//! What an index holds, and what is wrong with it.
use crate::index_rows::listing_of;
use case_kit::{noted, push_all, shown};
use git_index::{Entry, read_index, spell_index};
use std::alloc::{AllocError, Global};
use std::test::Fail;

/// Appends a line for each mark of an entry.
fn push_marks(list: &mut Vec<u8>, entry: &Entry) -> Result<(), AllocError> {
    let path = entry.path.as_slice();
    if entry.sparse {
        push_all(list, &[b"sparse ", path, b"\n"])?;
    }
    if entry.intent {
        push_all(list, &[b"intent ", path, b"\n"])?;
    }
    Ok(())
}

/// The entries as `git ls-files --stage` shows them, and then their marks.
fn listed(alloc: Global, entries: &[Entry]) -> Result<Vec<u8>, AllocError> {
    let mut list = listing_of(alloc, entries)?;
    for entry in entries {
        push_marks(&mut list, entry)?;
    }
    Ok(list)
}

/// The entries that the index's text has as it is spelled.
fn listed_again(alloc: Global, text: &[u8]) -> Result<Vec<u8>, Fail> {
    let index = read_index(alloc, &spelled(alloc, text)?)?;
    Ok(listed(alloc, index.entries())?)
}

/// The entries of an index, with a note if its text as it is spelled has others.
fn listed_twice(alloc: Global, text: &[u8], entries: &[Entry]) -> Result<Vec<u8>, Fail> {
    let again = listed_again(alloc, text)?;
    let list = listed(alloc, entries)?;
    let is_same = again.as_slice() == list.as_slice();
    Ok(noted(list, is_same, b"its text has others")?)
}

/// The entries of an index, with a note if its text as it is spelled has others, or what is wrong with the index.
pub fn read(alloc: Global, text: &[u8]) -> Result<Vec<u8>, Fail> {
    match read_index(alloc, text) {
        Ok(index) => listed_twice(alloc, text, index.entries()),
        Err(fault) => Ok(shown(alloc, fault)?),
    }
}

/// The text of the index's entries.
pub fn spelled(alloc: Global, text: &[u8]) -> Result<Vec<u8>, Fail> {
    let index = read_index(alloc, text)?;
    Ok(spell_index(alloc, index.entries())?)
}

/// Appends what comes of a cut of an index, if it differs from what came last.
fn push_cut(
    alloc: Global,
    list: &mut Vec<u8>,
    last: &mut Vec<u8>,
    text: &[u8],
) -> Result<(), Fail> {
    let came = read(alloc, text)?;
    if came.as_slice() != last.as_slice() {
        push_all(list, &[&came, b"\n"])?;
    }
    *last = came;
    Ok(())
}

/// What comes of each cut of an index, in lines that differ from the line before.
pub fn cut(alloc: Global, text: &[u8]) -> Result<Vec<u8>, Fail> {
    let mut list = Vec::new(alloc);
    let mut last = Vec::new(alloc);
    for len in 0..text.len() {
        push_cut(alloc, &mut list, &mut last, &text[..len])?;
    }
    Ok(list)
}

/// What `git ls-files --stage` shows of an index.
pub fn staged(alloc: Global, text: &[u8]) -> Result<Vec<u8>, Fail> {
    let index = read_index(alloc, text)?;
    Ok(listing_of(alloc, index.entries())?)
}
