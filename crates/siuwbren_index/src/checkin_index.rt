//! The index that a check-in leaves, with what is told of its files: in the place of the repository's own one, or beside
//! it.
use crate::faults::say;
use crate::kinds::with_failed_kinds;
use crate::update_index::{ToldFiles, put_index, with_stats};
use byte_path::Bytes;
use checkin_edge::{OtherKind, replace_file};
use exit_status::ExitStatus;
use git_edge::IndexLock;
use git_index::{Stat, Version};
use std::alloc::{AllocError, Global};

/// What is left of a check-in that has ended.
#[derive(Drop)]
pub struct CheckedIn {
    pub status: u8,
    /// The new index with what is told of the files, if each path was looked at.
    pub index: Option<Vec<u8>>,
}

/// What a check-in has looked at.
#[derive(Clone, Copy)]
pub struct LookedPaths<'a> {
    pub status: u8,
    /// The index that it made.
    pub made: Option<&'a [u8]>,
    /// The paths that failed, in their order.
    pub failed: &'a [Bytes],
    /// What is told of files, by their paths and in their order.
    pub told: &'a [(&'a [u8], Stat)],
}

/// What its index is to have beside what it made.
#[derive(Clone, Copy)]
pub struct IndexMarks<'a> {
    pub version: Version,
    /// The entries whose files were found to be of another kind.
    pub kinds: &'a [OtherKind],
    /// The index before, if git is to take each changed file for what its entry says (core.ignoreStat).
    pub before: Option<&'a [u8]>,
}

/// Whether a check-in with this status has looked at each path.
fn is_done(status: u8) -> bool {
    matches!(
        ExitStatus::of(status),
        Some(ExitStatus::Done | ExitStatus::DoneWithFailures)
    )
}

/// The index that a check-in made, with these marks and with what is told of its files, if each path was looked at.
pub fn index_of_checkin(
    alloc: Global,
    looked: LookedPaths<'_>,
    marks: IndexMarks<'_>,
) -> Result<Option<Vec<u8>>, AllocError> {
    let made = match looked.made {
        Some(made) if is_done(looked.status) => made,
        _ => return Ok(None),
    };
    let told = ToldFiles {
        files: looked.told,
        are_assumed: false,
        before: marks.before,
    };
    let made = with_failed_kinds(alloc, made, marks.kinds, looked.failed)?;
    with_stats(alloc, marks.version, made.as_slice(), told, None)
}

/// Says that the new index would be too large, if it was to be made, and gives the status then.
fn without_index(rt: HostRuntime, status: u8) -> u8 {
    if !is_done(status) {
        return status;
    }
    say(
        rt,
        "error: the index is as it was, since the new one would be too large",
    );
    ExitStatus::OutputNotWritten.number()
}

/// Puts the index of a check-in into the place of the repository's own, which is locked for it, and gives the status of
/// the check-in then.
pub fn put_made(rt: HostRuntime, mut lock: IndexLock, left: &CheckedIn) -> Result<u8, AllocError> {
    match &left.index {
        Some(index) => put_index(rt, &mut lock, index.as_slice(), left.status),
        None => Ok(without_index(rt, left.status)),
    }
}

/// Writes the index of a check-in into this file, and gives the status of the check-in then.
pub fn put_beside(rt: HostRuntime, file: &str, left: &CheckedIn) -> Result<u8, AllocError> {
    let Some(index) = &left.index else {
        return Ok(without_index(rt, left.status));
    };
    match replace_file(rt, rt.alloc(), file, index.as_slice()) {
        Ok(()) => Ok(left.status),
        Err(error) => {
            let text = format!(in rt.alloc(); "error: the new index can't be written: {error}")?;
            say(rt, text.as_str());
            Ok(ExitStatus::OutputNotWritten.number())
        }
    }
}
