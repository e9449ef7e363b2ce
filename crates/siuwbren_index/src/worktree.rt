//! The folder that is checked in, looked at before anything is kept: a wrong one would make all its paths deleted ones.
use crate::faults::say;
use crate::own_index::index_of;
use exit_status::ExitStatus;
use git_edge::GitRepo;
use git_index::Entry;
use siuwbren_words::CheckinWords;
use std::alloc::AllocError;
use std::env::var;
use std::fs::{canonicalize, metadata, symlink_metadata};
use std::io;
use std::io::ErrorKind;

/// The folder of a check-in by its words, or the status if there is none.
pub fn tree_of(
    rt: HostRuntime,
    repo: &GitRepo,
    asked: &CheckinWords<'_>,
) -> Result<Result<String, ExitStatus>, AllocError> {
    if let Some(tree) = asked.tree {
        return Ok(Ok(String::from_str(rt.alloc(), tree)?));
    }
    match repo.worktree()? {
        Some(top) => Ok(Ok(top)),
        None => {
            say(rt, "error: the repository has no worktree: name TREE");
            Ok(Err(ExitStatus::Usage))
        }
    }
}

/// The path without links and `..`, if it leads to something and is text.
fn plain_path(rt: HostRuntime, path: &str) -> Option<String> {
    let plain = canonicalize(&rt, path).ok()?;
    String::from_utf8(plain.into_os_string().into_bytes()).ok()
}

/// Whether both paths lead to one folder.
pub fn is_same_folder(rt: HostRuntime, first: &str, second: &str) -> bool {
    match (plain_path(rt, first), plain_path(rt, second)) {
        (Some(first), Some(second)) => first.as_str() == second.as_str(),
        _ => false,
    }
}

/// What stands behind a folder and a slash.
fn behind<'a>(path: &'a str, folder: &str) -> Option<&'a str> {
    path.strip_prefix(folder)?.strip_prefix("/")
}

/// Whether an entry's path is in this folder of the worktree.
fn is_below(entry: &Entry, folder: &str) -> bool {
    match entry.path.as_slice().strip_prefix(folder.as_bytes()) {
        Some(rest) => rest.starts_with(b"/"),
        None => false,
    }
}

/// Whether the folder is one of the worktree's own, so that entries have it in their paths.
fn is_subfolder(rt: HostRuntime, tree: &str, top: &str, entries: &[Entry]) -> bool {
    let (Some(tree), Some(top)) = (plain_path(rt, tree), plain_path(rt, top)) else {
        return false;
    };
    match behind(tree.as_str(), top.as_str()) {
        Some(folder) => entries.iter().any(|entry| is_below(entry, folder)),
        None => false,
    }
}

/// Whether something stands at the entry's path in the folder.
fn is_there(rt: HostRuntime, tree: &str, entry: &Entry) -> Result<bool, AllocError> {
    let Ok(path) = str::from_utf8(entry.path.as_slice()) else {
        return Ok(false);
    };
    let place = format!(in rt.alloc(); "{tree}/{path}")?;
    Ok(symlink_metadata(&rt, place.as_str()).is_ok())
}

/// Whether something stands at the path of some entry, or there is no entry.
fn has_some(rt: HostRuntime, tree: &str, entries: &[Entry]) -> Result<bool, AllocError> {
    for entry in entries {
        if is_there(rt, tree, entry)? {
            return Ok(true);
        }
    }
    Ok(entries.is_empty())
}

/// A folder has to be at the path.
fn need_folder(rt: HostRuntime, tree: &str) -> io::Result<()> {
    if metadata(&rt, tree)?.is_dir() {
        Ok(())
    } else {
        Err(io::Error::from(ErrorKind::NotADirectory))
    }
}

/// The worktree's top where git finds the repository itself. A repository that is named has the folder in which this
/// program was started for its top, wherever its files are.
fn found_top(
    rt: HostRuntime,
    repo: &GitRepo,
    asked: &CheckinWords<'_>,
) -> Result<Option<String>, AllocError> {
    if asked.git_dir.is_some() || var(&rt, "GIT_DIR").is_ok() {
        return Ok(None);
    }
    repo.worktree()
}

/// Refuses a folder that is one of the worktree with this top, if it is.
fn refused_subfolder(
    rt: HostRuntime,
    tree: &str,
    top: &str,
    entries: &[Entry],
) -> Result<Option<ExitStatus>, AllocError> {
    if !is_subfolder(rt, tree, top, entries) {
        return Ok(None);
    }
    let text = format!(in rt.alloc(); "error: TREE is a folder of the worktree {top}: name that")?;
    say(rt, text.as_str());
    Ok(Some(ExitStatus::NotEmpty))
}

/// Refuses a folder that has no file of the index, if that isn't allowed.
fn refused_empty(
    rt: HostRuntime,
    tree: &str,
    entries: &[Entry],
    asked: &CheckinWords<'_>,
) -> Result<Option<ExitStatus>, AllocError> {
    if asked.allow_empty || has_some(rt, tree, entries)? {
        return Ok(None);
    }
    say(rt, "error: no file of the index is in TREE");
    say(
        rt,
        "hint: with --allow-empty all its paths are taken for deleted",
    );
    Ok(Some(ExitStatus::NotEmpty))
}

/// Refuses a folder that is a part of the worktree with this top, or has no file of the index.
fn refused_part(
    rt: HostRuntime,
    tree: &str,
    top: Option<String>,
    entries: &[Entry],
    asked: &CheckinWords<'_>,
) -> Result<Option<ExitStatus>, AllocError> {
    if let Some(top) = top {
        if let Some(status) = refused_subfolder(rt, tree, top.as_str(), entries)? {
            return Ok(Some(status));
        }
    }
    refused_empty(rt, tree, entries, asked)
}

/// The status if the folder can't be checked in: it is none, is a part of the worktree, or has no file of the index.
/// Standard error says why.
pub fn refused_tree(
    rt: HostRuntime,
    repo: &mut GitRepo,
    tree: &str,
    asked: &CheckinWords<'_>,
) -> Result<Option<ExitStatus>, AllocError> {
    if let Err(error) = need_folder(rt, tree) {
        say(
            rt,
            format!(in rt.alloc(); "error: {tree}: {error}")?.as_str(),
        );
        return Ok(Some(ExitStatus::ReadFault));
    }
    let top = found_top(rt, repo, asked)?;
    match index_of(rt, repo) {
        Some(index) => refused_part(rt, tree, top, index.entries(), asked),
        None => Ok(None),
    }
}
