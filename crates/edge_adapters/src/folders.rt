//! Makes a file, a link or a folder below the worktree's folder, and the folders above it.
//!
//! Each folder on the way is looked at first, and a link is a fault, even if it leads to a folder. The file or the
//! link itself is made only where nothing is, so never through a link. The look and what follows are two calls, since
//! the kit has no call that opens below an open folder: if another process puts a link in a folder's place between
//! them, it is followed. The path of the worktree's folder itself may lead over links.

use crate::links::make_link;
use std::fs::{File, OpenOptions, create_dir, create_dir_all, remove_file, symlink_metadata};
use std::io;
use std::io::{ErrorKind, Seek, SeekFrom};
use std::os::unix::fs::{MetadataExt, OpenOptionsExt};

/// Makes a file where nothing is, with this mode less the umask, and never through a link.
pub fn create_new(rt: HostRuntime, path: &str, mode: u32) -> io::Result<File> {
    OpenOptions::new()
        .write(true)
        .create_new(true)
        .mode(mode)
        .open(&rt, path)
}

/// Whether a folder is at the path. A link to a folder, or anything else that is no folder, is a fault.
fn has_folder(rt: HostRuntime, path: &str) -> io::Result<bool> {
    match symlink_metadata(&rt, path) {
        Ok(found) if found.is_dir() => Ok(true),
        Ok(_) => Err(io::Error::from(ErrorKind::NotADirectory)),
        Err(error) if error.kind() == ErrorKind::NotFound => Ok(false),
        Err(error) => Err(error),
    }
}

/// Makes a folder at the path unless one is there. Another actor may make it at the same time.
fn make_folder(rt: HostRuntime, path: &str) -> io::Result<()> {
    if has_folder(rt, path)? {
        return Ok(());
    }
    match create_dir(&rt, path) {
        Err(error) if error.kind() == ErrorKind::AlreadyExists => {
            has_folder(rt, path)?;
            Ok(())
        }
        made => made,
    }
}

/// Makes the folders of a path that are named after its first `top` bytes.
fn make_folders(rt: HostRuntime, path: &str, top: usize) -> io::Result<()> {
    for end in top.saturating_add(1)..path.len() {
        match path.split_at_checked(end) {
            Some((folder, rest)) if rest.starts_with('/') => make_folder(rt, folder)?,
            _ => {}
        }
    }
    Ok(())
}

/// Makes a file where nothing is, and its folders below the worktree's folder, which is there.
fn create_below(rt: HostRuntime, path: &str, top: usize, mode: u32) -> io::Result<File> {
    make_folders(rt, path, top)?;
    create_new(rt, path, mode)
}

/// Makes a link where nothing is, and its folders below the worktree's folder, which is there.
fn link_below(rt: HostRuntime, text: &[u8], path: &str, top: usize) -> io::Result<()> {
    make_folders(rt, path, top)?;
    make_link(text, path)
}

/// Makes the worktree's folder, which the first `top` bytes of the path name, and the folders that it is in.
fn make_tree(rt: HostRuntime, path: &str, top: usize) -> io::Result<()> {
    match path.split_at_checked(top) {
        Some((tree, _)) => create_dir_all(&rt, tree),
        None => Ok(()),
    }
}

/// Makes a file where nothing is, with this mode less the umask, and its folders. The first `top` bytes of the path
/// name the worktree's folder, which is made if it isn't there.
pub fn create_in_tree(rt: HostRuntime, path: &str, top: usize, mode: u32) -> io::Result<File> {
    match create_below(rt, path, top, mode) {
        Err(error) if error.kind() == ErrorKind::NotFound => {}
        made => return made,
    }
    make_tree(rt, path, top)?;
    create_below(rt, path, top, mode)
}

/// Makes a link with this text where nothing is, and its folders, as `create_in_tree` does. What it leads to isn't
/// looked at.
pub fn link_in_tree(rt: HostRuntime, text: &[u8], path: &str, top: usize) -> io::Result<()> {
    match link_below(rt, text, path, top) {
        Err(error) if error.kind() == ErrorKind::NotFound => {}
        made => return made,
    }
    make_tree(rt, path, top)?;
    link_below(rt, text, path, top)
}

/// Makes a folder unless one is there, and those on the way, as `create_in_tree` does.
pub fn folder_in_tree(rt: HostRuntime, path: &str, top: usize) -> io::Result<()> {
    make_tree(rt, path, top)?;
    make_folders(rt, path, top)?;
    make_folder(rt, path)
}

/// Empties an open file and goes back to its beginning.
pub fn empty_file(file: &mut File) -> io::Result<()> {
    file.set_len(0)?;
    file.seek(SeekFrom::Start(0))?;
    Ok(())
}

/// Removes this open file from the path. If anything else is there, that is a fault, and it stays. No other file can
/// have the open file's number. The look and the removal are two calls.
pub fn remove_own(rt: HostRuntime, file: &File, path: &str) -> io::Result<()> {
    let own = file.metadata()?;
    let found = symlink_metadata(&rt, path)?;
    if own.dev() != found.dev() || own.ino() != found.ino() {
        return Err(io::Error::from(ErrorKind::AlreadyExists));
    }
    remove_file(&rt, path)
}
