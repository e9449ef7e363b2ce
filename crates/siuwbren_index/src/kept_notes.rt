//! What standard error says of a check-in beside its report: entries that stay though git would change them, and parts
//! of the index that the new one is without.
use crate::faults::say;
use crate::own_index::{MOST_INDEX, index_of};
use byte_path::quote_path;
use checkin_edge::RawIndex;
use edge_kit::Repo;
use git_edge::GitRepo;
use git_index::{Entry, Mode};
use std::alloc::{AllocError, Global};
use std::fs::symlink_metadata;

/// The path, quoted as in the report if it has to be.
fn shown(alloc: Global, path: &[u8]) -> Result<String, AllocError> {
    match String::from_utf8(quote_path(alloc, path)?) {
        Ok(text) => Ok(text),
        Err(_) => Ok(String::new(alloc)),
    }
}

/// Whether a commit is checked out in the folder of a submodule.
fn has_commit(rt: HostRuntime, tree: &str, entry: &Entry) -> Result<bool, AllocError> {
    let Ok(path) = str::from_utf8(entry.path.as_slice()) else {
        return Ok(false);
    };
    let place = format!(in rt.alloc(); "{tree}/{path}/.git")?;
    Ok(symlink_metadata(&rt, place.as_str()).is_ok())
}

/// What git does with an entry that stays, if it does another thing.
fn otherwise(
    rt: HostRuntime,
    tree: &str,
    entry: &Entry,
) -> Result<Option<&'static str>, AllocError> {
    if entry.stage != 0 {
        return Ok(Some("is unmerged, and kept: git add -u takes what stands there as resolved"));
    }
    if entry.intent {
        return Ok(Some("is to be added, and kept: git add -u adds what stands there"));
    }
    if matches!(entry.mode, Mode::Gitlink) && has_commit(rt, tree, entry)? {
        return Ok(Some(
            "is a submodule, and kept: git add -u takes the commit that is checked out in it",
        ));
    }
    Ok(None)
}

/// Names each path that stays and that git would change.
fn show_paths(rt: HostRuntime, tree: &str, entries: &[Entry]) -> Result<(), AllocError> {
    let mut before: &[u8] = &[];
    for entry in entries {
        let path = entry.path.as_slice();
        if path == before {
            continue;
        }
        before = path;
        if let Some(words) = otherwise(rt, tree, entry)? {
            let path = shown(rt.alloc(), path)?;
            say(rt, format!(in rt.alloc(); "note: {path} {words}")?.as_str());
        }
    }
    Ok(())
}

/// The extensions that git makes again by itself (gitformat-index(5)).
const REMADE: [[u8; 4]; 4] = [*b"TREE", *b"EOIE", *b"IEOT", *b"FSMN"];

/// What is lost with an extension of an index, if git doesn't make it again by itself.
fn lost_with(signature: [u8; 4]) -> Option<&'static str> {
    if REMADE.contains(&signature) {
        return None;
    }
    if signature == *b"REUC" {
        return Some("what git keeps of resolved conflicts: git checkout -m can't bring them back");
    }
    if signature == *b"UNTR" {
        return Some("the cache of untracked files: git update-index --untracked-cache begins one");
    }
    Some("an extension that isn't known")
}

/// Says what the new index is without, of these extensions of the old one.
fn show_lost_ones(rt: HostRuntime, signatures: &[[u8; 4]]) -> Result<(), AllocError> {
    for signature in signatures {
        if let Some(words) = lost_with(*signature) {
            let text = format!(in rt.alloc(); "note: the new index is without {words}")?;
            say(rt, text.as_str());
        }
    }
    Ok(())
}

/// Says what the new index is without.
fn show_lost(rt: HostRuntime, index: &[u8]) -> Result<(), AllocError> {
    let Some(raw) = RawIndex::read(rt.alloc(), index)? else {
        return Ok(());
    };
    let signatures = raw.extensions(rt.alloc())?;
    show_lost_ones(rt, signatures.as_slice())
}

/// Says what the new index of this repository is without.
fn show_lost_of(rt: HostRuntime, repo: &mut GitRepo) -> Result<(), AllocError> {
    match repo.index_bytes(MOST_INDEX) {
        Ok(Some(bytes)) => show_lost(rt, bytes.as_slice()),
        _ => Ok(()),
    }
}

/// Says of a check-in of this folder what git would do otherwise, and what the new index is without.
pub fn show_kept(rt: HostRuntime, repo: &mut GitRepo, tree: &str) -> Result<(), AllocError> {
    let shown = match index_of(rt, repo) {
        Some(index) => show_paths(rt, tree, index.entries()),
        None => return Ok(()),
    };
    shown?;
    show_lost_of(rt, repo)
}
