//! The lines of attribute files.
use crate::answer::text_of;
use attr_line::{AttrFile, AttrRow, Pair, Skipped, read_attributes};
use case_kit::{Words, found, push_all};
use std::alloc::{AllocError, Global};
use std::test::Fail;

/// Appends pairs as `git check-attr` writes them, and ends the line.
fn push_pairs(list: &mut Vec<u8>, pairs: &[Pair]) -> Result<(), AllocError> {
    for pair in pairs {
        let state = text_of(&pair.state);
        push_all(list, &[b" ", pair.name.as_slice(), b":", state])?;
    }
    list.extend_from_slice(b"\n")
}

/// Appends a row: its pattern or, after `macro `, its name, and then its pairs.
fn push_row(list: &mut Vec<u8>, row: &AttrRow) -> Result<(), AllocError> {
    match row {
        AttrRow::Rule { pattern, pairs } => {
            push_all(list, &[pattern.as_slice()])?;
            push_pairs(list, pairs.as_slice())
        }
        AttrRow::Macro { name, pairs } => {
            push_all(list, &[b"macro ", name.as_slice()])?;
            push_pairs(list, pairs.as_slice())
        }
    }
}

/// Appends how many lines are skipped for each cause.
fn push_skipped(alloc: Global, list: &mut Vec<u8>, skipped: &Skipped) -> Result<(), AllocError> {
    let Skipped {
        long,
        negative,
        name,
        place,
    } = skipped;
    let counts = format!(in alloc; "|{long} {negative} {name} {place}")?;
    push_all(list, &[counts.as_bytes()])
}

/// The rows of a file, and how many lines are skipped.
fn listed(alloc: Global, file: &AttrFile) -> Result<Vec<u8>, AllocError> {
    let mut list = Vec::new(alloc);
    for row in file.rows.as_slice() {
        push_row(&mut list, row)?;
    }
    push_skipped(alloc, &mut list, &file.skipped)?;
    Ok(list)
}

/// Whether a folder is the top folder.
const FOLDERS: Words<bool> = &[(b"top", true), (b"below", false)];

/// The rows of a folder's file, and after `|` how many lines are skipped: lines that are too long, negative patterns,
/// bad names, and macros where none is allowed.
pub fn read(alloc: Global, text: &[u8], folder: &[u8]) -> Result<Vec<u8>, Fail> {
    let file = read_attributes(alloc, text, found(FOLDERS, folder)?)?;
    Ok(listed(alloc, &file)?)
}
