//! What stands at a path below a worktree's folder, read without following a link.
//!
//! Each folder on the way is looked at first, and then what stands at the path. If another process puts something else
//! in its place between the look and the opening, that is opened and not read. The folders are looked at once more
//! before the file is read: one that is a link for that moment alone isn't noticed. The kit has no call that opens
//! without following a link or without waiting: a FIFO that is put there in between is waited for. The path of the
//! worktree's folder itself may lead over links.
ghost use Rattle.std.specs.Prelude.{◌≤◌, IfOk, length};
ghost use Rattle.checkin_edge.specs.Reads.{IsWithin};

use edge_adapters::{LeafPlace, link_text};
use file_stat::stat_of;
use git_index::Stat;
use std::alloc::Global;
use std::fs::{File, Metadata, symlink_metadata};
use std::io;
use std::io::{Error, ErrorKind, Read};
use std::os::unix::fs::MetadataExt;

/// What was read at a path.
#[derive(Drop)]
pub enum FileRead {
    /// All bytes of a file, or the text of a link, and what an index is to tell of it: what the system told of it
    /// before it was read.
    Whole(Vec<u8>, Stat),
    /// More bytes than the limit.
    TooLong,
    /// There is no file.
    Absent,
    /// A file stands where a link is wanted, or a link where a file is.
    OtherKind,
}

/// What has to stand at a path.
#[derive(Clone, Copy, PartialEq, Eq)]
pub enum WantedKind {
    Either,
    File,
    Link,
}

/// A folder has to be at the path. A link to a folder is none.
fn need_folder(rt: HostRuntime, path: &str) -> io::Result<()> {
    if symlink_metadata(&rt, path)?.is_dir() {
        Ok(())
    } else {
        Err(Error::from(ErrorKind::NotADirectory))
    }
}

/// Folders have to be at all parts of a path that are named after its first `top` bytes, but for the last.
fn need_folders(rt: HostRuntime, path: &str, top: usize) -> io::Result<()> {
    for end in top.saturating_add(1)..path.len() {
        match path.split_at_checked(end) {
            Some((folder, rest)) if rest.starts_with('/') => need_folder(rt, folder)?,
            _ => {}
        }
    }
    Ok(())
}

/// The text of a link within the limit.
fn link_read(alloc: Global, path: &str, found: &Metadata, limit: u64) -> io::Result<FileRead>
    ensures { IfOk result (IsWithin limit) }
{
    let text = link_text(alloc, path)?;
    if text.len() as u64 > limit {
        return Ok(FileRead::TooLong);
    }
    Ok(FileRead::Whole(text, stat_of(found)))
}

/// Opens the regular file that was found at a path.
fn open_found(rt: HostRuntime, path: &str, found: &Metadata) -> io::Result<File> {
    let file = File::open(&rt, path)?;
    let opened = file.metadata()?;
    if opened.dev() != found.dev() || opened.ino() != found.ino() {
        return Err(Error::other("another file has its place now"));
    }
    Ok(file)
}

/// The bytes of an open file within the limit. Its length says how much room they need.
fn file_bytes(alloc: Global, file: File, found: &Metadata, limit: u64) -> io::Result<FileRead>
    ensures { IfOk result (IsWithin limit) }
{
    let len = file.metadata()?.len();
    if len > limit {
        return Ok(FileRead::TooLong);
    }
    // one byte more than the file, so that its end is seen without growing
    let room = len.saturating_add(1);
    let mut bytes = Vec::with_capacity(alloc, room as usize)?;
    file.take(limit.saturating_add(1)).read_to_end(&mut bytes)?;
    if bytes.len() as u64 > limit {
        return Ok(FileRead::TooLong);
    }
    Ok(FileRead::Whole(bytes, stat_of(found)))
}

/// Whether what was found is a link where a file is wanted, or a file where a link is.
fn is_other_kind(found: &Metadata, wanted: WantedKind) -> bool {
    match wanted {
        WantedKind::Either => false,
        WantedKind::File => found.is_symlink(),
        WantedKind::Link => found.is_file(),
    }
}

/// What the system tells of what stands at a place, over folders alone.
pub fn found_below(rt: HostRuntime, place: &LeafPlace) -> io::Result<Metadata> {
    let path = place.full();
    need_folders(rt, path, place.top())?;
    symlink_metadata(&rt, path)
}

/// The whole file or the text of the link at a place, within the limit. What is neither is a fault, and isn't opened,
/// since that may wait forever.
fn read_there(
    rt: HostRuntime,
    alloc: Global,
    place: &LeafPlace,
    wanted: WantedKind,
    limit: u64,
) -> io::Result<FileRead>
    ensures { IfOk result (IsWithin limit) }
{
    let (path, top) = (place.full(), place.top());
    let found = found_below(rt, place)?;
    if is_other_kind(&found, wanted) {
        return Ok(FileRead::OtherKind);
    }
    if found.is_symlink() {
        return link_read(alloc, path, &found, limit);
    }
    if !found.is_file() {
        return Err(Error::other("no regular file"));
    }
    let file = open_found(rt, path, &found)?;
    need_folders(rt, path, top)?;
    file_bytes(alloc, file, &found, limit)
}

/// The bytes of the regular file at a place of the worktree. There is none where a part of its path below the folder of
/// the worktree isn't there or is no folder, as where it is a link to one.
pub fn read_below(
    rt: HostRuntime,
    alloc: Global,
    place: &LeafPlace,
    wanted: WantedKind,
    limit: u64,
) -> io::Result<FileRead>
    ensures { IfOk result (IsWithin limit) }
{
    match read_there(rt, alloc, place, wanted, limit) {
        Err(error) => match error.kind() {
            ErrorKind::NotFound | ErrorKind::NotADirectory => Ok(FileRead::Absent),
            _ => Err(error),
        },
        read => read,
    }
}
