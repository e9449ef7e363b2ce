//! Entries that a check-in keeps as they are, since they are assumed to be as their files are (git-update-index(1),
//! `--assume-unchanged`).
use crate::raw_index::RawIndex;
use byte_path::Bytes;
use sha1::Sha1;
use std::alloc::{AllocError, Global};

/// An entry with assume-valid, which a check-in has with skip-worktree in its place.
#[derive(Drop)]
pub struct HeldEntry {
    pub path: Bytes,
    /// Whether it has skip-worktree too.
    pub sparse: bool,
}

/// A new index with the marks that the held entries had. These stand in its order, and it has no extension.
pub fn with_held(alloc: Global, index: &[u8], held: &[HeldEntry]) -> Result<Vec<u8>, AllocError> {
    let Some(raw) = RawIndex::read(alloc, index)? else {
        return Vec::from_slice(alloc, index);
    };
    let mut marked = raw.begun(alloc)?;
    let mut rest = held;
    for entry in raw.entries.iter() {
        match rest.split_first() {
            Some((first, behind)) if entry.path() == first.path.as_slice() => {
                entry.assumed(first.sparse).push(raw.version, &mut marked)?;
                rest = behind;
            }
            _ => entry.push(raw.version, &mut marked)?,
        }
    }
    let hash = Sha1::digest(&marked);
    marked.extend_from_slice(hash.as_slice())?;
    Ok(marked)
}
