//! The repository's index, and the refusal of one that other file systems would let change git's own folder.
use crate::channel::sink_of;
use crate::faults::say;
use crate::guarded::is_guarded;
use byte_path::{Bytes, quote_path};
use checkin_edge::IndexLinks;
use edge_kit::Repo;
use exit_status::ExitStatus;
use git_edge::{GitRepo, Guards};
use git_index::{Entry, Index, Mode, read_index};
use reports::{ReportForm, Row, spelled};
use std::alloc::{AllocError, Global};

/// The most bytes of an index that is read.
pub const MOST_INDEX: u64 = 67_108_864;

/// The repository's index, or nothing where the engine will say what is wrong with it.
pub fn index_of(rt: HostRuntime, repo: &mut GitRepo) -> Option<Index> {
    let bytes = repo.index_bytes(MOST_INDEX).ok()??;
    read_index(rt.alloc(), bytes.as_slice()).ok()
}

/// The paths of the links among these entries.
fn links_in(alloc: Global, entries: &[Entry]) -> Result<Vec<Bytes>, AllocError> {
    let mut paths = Vec::new(alloc);
    for entry in entries {
        if matches!(entry.mode, Mode::Link) {
            paths.push(Bytes::copy_of(alloc, entry.path.as_slice())?)?;
        }
    }
    Ok(paths)
}

/// The links of the repository's index.
pub fn links_of(rt: HostRuntime, repo: &mut GitRepo) -> Result<IndexLinks, AllocError> {
    let kept = repo.keeps().links;
    let paths = match index_of(rt, repo) {
        Some(index) => links_in(rt.alloc(), index.entries())?,
        None => Vec::new(rt.alloc()),
    };
    Ok(IndexLinks { paths, kept })
}

/// Whether the entry's path is one of git's own on a guarded file system.
fn is_guarded_entry(entry: &Entry, guards: Guards) -> bool {
    is_guarded(
        entry.path.as_slice(),
        matches!(entry.mode, Mode::Link),
        guards,
    )
}

/// Says these words of a refusal in the form of the report, and gives the status.
fn say_refusal(rt: HostRuntime, words: &str, form: ReportForm) -> Result<ExitStatus, AllocError> {
    let row = Row::Refusal(words.as_bytes());
    let text = spelled(rt.alloc(), form, &row)?;
    let mut out = sink_of(rt, form);
    Ok(exit_status::say(&mut out, &text, ExitStatus::Refused))
}

/// Says the refusal of the entry with this number in the form of the report, and gives the status.
fn refuse(
    rt: HostRuntime,
    number: usize,
    entry: &Entry,
    form: ReportForm,
) -> Result<ExitStatus, AllocError> {
    let words = format!(in rt.alloc(); "index path {number} dot-git")?;
    let status = say_refusal(rt, words.as_str(), form)?;
    if !matches!(status, ExitStatus::Refused) {
        return Ok(status);
    }
    if let Ok(path) = String::from_utf8(quote_path(rt.alloc(), entry.path.as_slice())?) {
        say(
            rt,
            format!(in rt.alloc(); "the entry's path: {path}")?.as_str(),
        );
    }
    Ok(status)
}

/// The status if one of these entries has a path that is one of git's own on a guarded file system.
fn refuse_entries(
    rt: HostRuntime,
    entries: &[Entry],
    guards: Guards,
    form: ReportForm,
) -> Result<Option<ExitStatus>, AllocError> {
    for (number, entry) in entries.iter().enumerate() {
        if is_guarded_entry(entry, guards) {
            return Ok(Some(refuse(rt, number, entry, form)?));
        }
    }
    Ok(None)
}

/// The status if the repository's index couldn't be made since a tree is lacking or broken.
fn refuse_tree(
    rt: HostRuntime,
    repo: &GitRepo,
    form: ReportForm,
) -> Result<Option<ExitStatus>, AllocError> {
    match repo.tree_refusal()? {
        Some(words) => Ok(Some(say_refusal(rt, words.as_str(), form)?)),
        None => Ok(None),
    }
}

/// Whether a checkout makes the entry's folder: that of a submodule, which is neither unmerged nor sparse.
fn has_folder(entry: &Entry) -> bool {
    matches!(entry.mode, Mode::Gitlink) && entry.stage == 0 && !entry.sparse
}

/// The paths of the submodules among these entries whose folders a checkout makes.
fn submodules_in(alloc: Global, entries: &[Entry]) -> Result<Vec<Bytes>, AllocError> {
    let mut paths = Vec::new(alloc);
    for entry in entries {
        if has_folder(entry) {
            paths.push(Bytes::copy_of(alloc, entry.path.as_slice())?)?;
        }
    }
    Ok(paths)
}

/// The paths of the submodules whose folders a checkout makes, or the status if the index is refused, as
/// `refuse_guarded` does.
pub fn allowed_submodules(
    rt: HostRuntime,
    repo: &mut GitRepo,
    form: ReportForm,
) -> Result<Result<Vec<Bytes>, ExitStatus>, AllocError> {
    let guards = repo.guards();
    let none = Vec::new(rt.alloc());
    let Some(index) = index_of(rt, repo) else {
        return Ok(refuse_tree(rt, repo, form)?.map_or(Ok(none), Err));
    };
    match refuse_entries(rt, index.entries(), guards, form)? {
        Some(status) => Ok(Err(status)),
        None => Ok(Ok(submodules_in(rt.alloc(), index.entries())?)),
    }
}

/// The status if the index has a path that is one of git's own on a guarded file system: the folder `.git`, or a link
/// `.gitmodules`. The first such entry is refused, before anything is done. So is a tree that is lacking or broken.
pub fn refuse_guarded(
    rt: HostRuntime,
    repo: &mut GitRepo,
    form: ReportForm,
) -> Result<Option<ExitStatus>, AllocError> {
    Ok(allowed_submodules(rt, repo, form)?.err())
}
