//! The entries of the repository's index that a check-in keeps as they are, since git assumes that their files are so.
use crate::own_index::{MOST_INDEX, index_of};
use byte_path::Bytes;
use checkin_edge::{HeldEntry, RawIndex};
use edge_kit::Repo;
use git_edge::GitRepo;
use git_index::Entry;
use std::alloc::{AllocError, Global};

/// The entries with assume-valid.
fn assumed_of(
    alloc: Global,
    entries: &[Entry],
    raw: &RawIndex<'_>,
) -> Result<Vec<HeldEntry>, AllocError> {
    let mut held = Vec::new(alloc);
    for (entry, raw) in entries.iter().zip(raw.entries.iter()) {
        if raw.is_assumed() {
            held.push(HeldEntry {
                path: Bytes::copy_of(alloc, entry.path.as_slice())?,
                sparse: entry.sparse,
            })?;
        }
    }
    Ok(held)
}

/// The index of the repository as it is spelled, if it can be read.
fn spelled_index(repo: &mut GitRepo) -> Option<Vec<u8>> {
    repo.index_bytes(MOST_INDEX).ok()?
}

/// Has the repository give this index with skip-worktree at each of these entries that has assume-valid.
fn hold_in(
    rt: HostRuntime,
    repo: &mut GitRepo,
    entries: &[Entry],
    spelled: &[u8],
) -> Result<Vec<HeldEntry>, AllocError> {
    let Some(raw) = RawIndex::read(rt.alloc(), spelled)? else {
        return Ok(Vec::new(rt.alloc()));
    };
    let held = assumed_of(rt.alloc(), entries, &raw)?;
    if !held.is_empty() {
        repo.take_index(raw.with_assumed_sparse(rt.alloc())?);
    }
    Ok(held)
}

/// Has the repository give its index with skip-worktree at each entry that has assume-valid, so that a check-in keeps
/// it. The keeper gives these entries their marks back.
pub fn hold_assumed(rt: HostRuntime, repo: &mut GitRepo) -> Result<Vec<HeldEntry>, AllocError> {
    let (Some(index), Some(spelled)) = (index_of(rt, repo), spelled_index(repo)) else {
        return Ok(Vec::new(rt.alloc()));
    };
    hold_in(rt, repo, index.entries(), spelled.as_slice())
}
