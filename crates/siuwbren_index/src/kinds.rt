//! The kinds of the files that are checked in: executable or not, and links.
use crate::guarded::is_guarded;
use crate::own_index::{MOST_INDEX, index_of};
use byte_path::Bytes;
use checkin_edge::{KeptKinds, OtherKind, PathMode, RawIndex, other_kind_at, with_modes};
use edge_kit::Repo;
use git_edge::{GitRepo, Guards};
use git_index::{Entry, Mode, read_index};
use std::alloc::{AllocError, Global};

/// What of a repository says which kinds its entries may have.
#[derive(Clone, Copy)]
struct KindRules {
    kept: KeptKinds,
    guards: Guards,
}

fn rules_of(repo: &GitRepo) -> KindRules {
    KindRules {
        kept: KeptKinds {
            links: repo.keeps().links,
            modes: repo.trusts_modes(),
        },
        guards: repo.guards(),
    }
}

/// Whether a check-in looks at the entry's file.
fn is_looked_at(entry: &Entry) -> bool {
    entry.stage == 0 && !entry.sparse && !entry.intent
}

/// Whether the entry may get the kind of its file. A link may not be what git refuses as one.
fn is_allowed(kind: &OtherKind, guards: Guards) -> bool {
    let is_link = matches!(kind.found, Mode::Link);
    !is_guarded(kind.path.as_slice(), is_link, guards)
}

/// The entries whose files in this folder are of another kind than they say, in their order.
fn other_kinds(
    rt: HostRuntime,
    tree: &str,
    entries: &[Entry],
    rules: KindRules,
) -> Result<Vec<OtherKind>, AllocError> {
    let mut kinds = Vec::new(rt.alloc());
    for entry in entries {
        if !is_looked_at(entry) {
            continue;
        }
        match other_kind_at(rt, tree, entry, rules.kept)? {
            Some(kind) if is_allowed(&kind, rules.guards) => kinds.push(kind)?,
            _ => {}
        }
    }
    Ok(kinds)
}

/// What was found at each of these entries.
fn found_modes(alloc: Global, kinds: &[OtherKind]) -> Result<Vec<PathMode<'_>>, AllocError> {
    let mut modes = Vec::with_capacity(alloc, kinds.len())?;
    for kind in kinds {
        modes.push(PathMode {
            path: kind.path.as_slice(),
            mode: kind.found,
        })?;
    }
    Ok(modes)
}

/// Whether the path is one of these, which are in order.
fn is_among(paths: &[Bytes], path: &[u8]) -> bool {
    paths
        .binary_search_by(|other| other.as_slice().cmp(path))
        .is_ok()
}

/// What those of these entries say whose paths failed.
fn said_modes<'a>(
    alloc: Global,
    kinds: &'a [OtherKind],
    failed: &[Bytes],
) -> Result<Vec<PathMode<'a>>, AllocError> {
    let mut modes = Vec::new(alloc);
    for kind in kinds {
        let path = kind.path.as_slice();
        if is_among(failed, path) {
            modes.push(PathMode {
                path,
                mode: kind.said,
            })?;
        }
    }
    Ok(modes)
}

/// An index with these modes. As it is, if there is none, or if it can't be read.
fn in_modes(alloc: Global, index: &[u8], modes: &[PathMode<'_>]) -> Result<Vec<u8>, AllocError> {
    if modes.is_empty() {
        return Vec::from_slice(alloc, index);
    }
    let (Ok(read), Some(raw)) = (read_index(alloc, index), RawIndex::read(alloc, index)?) else {
        return Vec::from_slice(alloc, index);
    };
    with_modes(alloc, &raw, read.entries(), modes)
}

/// An index with what was found at these entries.
fn with_kinds(alloc: Global, index: &[u8], kinds: &[OtherKind]) -> Result<Vec<u8>, AllocError> {
    let modes = found_modes(alloc, kinds)?;
    in_modes(alloc, index, modes.as_slice())
}

/// Has the repository give its index with the kinds of the files in this folder, and gives the entries whose kinds are
/// others, so that a check-in takes a file for what it is. A kind that isn't told stays.
pub fn take_kinds(
    rt: HostRuntime,
    repo: &mut GitRepo,
    tree: &str,
) -> Result<Vec<OtherKind>, AllocError> {
    let none = Vec::new(rt.alloc());
    let Some(index) = index_of(rt, repo) else {
        return Ok(none);
    };
    let kinds = other_kinds(rt, tree, index.entries(), rules_of(repo))?;
    if kinds.is_empty() {
        return Ok(none);
    }
    let Ok(Some(spelled)) = repo.index_bytes(MOST_INDEX) else {
        return Ok(none);
    };
    repo.take_index(with_kinds(rt.alloc(), spelled.as_slice(), kinds.as_slice())?);
    Ok(kinds)
}

/// An index with the modes that these entries had before, where their paths failed.
pub fn with_failed_kinds(
    alloc: Global,
    index: &[u8],
    kinds: &[OtherKind],
    failed: &[Bytes],
) -> Result<Vec<u8>, AllocError> {
    let modes = said_modes(alloc, kinds, failed)?;
    in_modes(alloc, index, modes.as_slice())
}
