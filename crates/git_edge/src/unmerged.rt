//! The attribute files of an index that a merge left unmerged.
use byte_path::Bytes;
use git_index::{Entry, read_index};
use std::alloc::{AllocError, Global};

/// Whether it is the second stage of an attribute file, which git reads.
fn is_second_stage(entry: &Entry) -> bool {
    let path = entry.path.as_slice();
    entry.stage == 2 && (path == b".gitattributes".as_slice() || path.ends_with(b"/.gitattributes"))
}

/// The paths of the attribute files with a second stage among these entries.
fn second_stages(alloc: Global, entries: &[Entry]) -> Result<Vec<Bytes>, AllocError> {
    let mut paths = Vec::new(alloc);
    for entry in entries {
        if is_second_stage(entry) {
            paths.push(Bytes::copy_of(alloc, entry.path.as_slice())?)?;
        }
    }
    Ok(paths)
}

/// The paths of the attribute files of an index that have a second stage. A bad index has none.
pub fn unmerged_in(alloc: Global, index: &[u8]) -> Result<Vec<Bytes>, AllocError> {
    match read_index(alloc, index) {
        Ok(index) => second_stages(alloc, index.entries()),
        Err(_) => Ok(Vec::new(alloc)),
    }
}
