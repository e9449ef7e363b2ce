//! What standard error says of the entry for which an index is refused.
use byte_path::quote_path;
use edge_kit::Repo;
use git_index::{IndexFault, read_index};
use std::alloc::Global;

/// How many bytes an index may have.
const MOST: u64 = 67_108_864;

/// How many bytes stand before the first entry, and in an entry of version 2 before its path.
const HEADER: usize = 12;

const FIELDS: usize = 62;

/// How an index of version 2 begins. In the other versions a path stands elsewhere.
const BEGINNING: &[u8] = b"DIRC\0\0\0\x02";

/// The number of the entry that a fault is about.
fn number_of(fault: IndexFault) -> Option<u32> {
    match fault {
        IndexFault::Entry(number, _)
        | IndexFault::Mode(number)
        | IndexFault::Path(number, _)
        | IndexFault::Order(number)
        | IndexFault::FolderClash(number) => Some(number),
        _ => None,
    }
}

/// The path of the entry at the front, up to its NUL.
fn first_path(entries: &[u8]) -> Option<&[u8]> {
    let (_, rest) = entries.split_at_checked(FIELDS)?;
    rest.split(|byte| *byte == 0).next()
}

/// What follows the entry at the front. NULs make its length a multiple of eight, and there is at least one.
fn after_first(entries: &[u8]) -> Option<&[u8]> {
    let path = first_path(entries)?;
    let len = FIELDS.checked_add(path.len())?.checked_add(8)? / 8 * 8;
    let (_, rest) = entries.split_at_checked(len)?;
    Some(rest)
}

/// The path of the entry with this number, in an index of version 2.
fn path_at(index: &[u8], number: u32) -> Option<&[u8]> {
    let (header, mut entries) = index.split_at_checked(HEADER)?;
    if !header.starts_with(BEGINNING) {
        return None;
    }
    for _ in 0..number {
        entries = after_first(entries)?;
    }
    first_path(entries)
}

/// The path of the entry for which the repository's index is refused, quoted as in the report.
fn refused_path<R: Repo>(alloc: Global, repo: &mut R) -> Option<String> {
    let bytes = repo.index_bytes(MOST).ok()??;
    let fault = read_index(alloc, &bytes).err()?;
    let path = path_at(bytes.as_slice(), number_of(fault)?)?;
    String::from_utf8(quote_path(alloc, path).ok()?).ok()
}

/// Says for which entry the repository's index is refused, if it is for one.
pub fn show_refused_path<R: Repo>(rt: HostRuntime, repo: &mut R) {
    if let Some(path) = refused_path(rt.alloc(), repo) {
        let _ = eprintln!(rt; "the entry's path: {path}");
    }
}
