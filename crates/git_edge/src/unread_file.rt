//! Why a file of a repository couldn't be read: it is looked at once more.
use git_answers::{Git, GitFault};
use std::fs::{File, metadata};
use std::io;
use std::io::{Error, ErrorKind, Read};

/// Reads the first byte of the file at the path. What is no file isn't opened, since that may wait forever.
fn read_first(rt: HostRuntime, path: &str) -> io::Result<()> {
    let found = metadata(&rt, path)?;
    if found.is_dir() {
        return Err(Error::from(ErrorKind::IsADirectory));
    }
    if !found.is_file() {
        return Err(Error::other("no regular file"));
    }
    let mut file = File::open(&rt, path)?;
    let mut first = [0u8];
    file.read(first.as_mut_slice())?;
    Ok(())
}

/// Why the file at this path can't be read. `None` if it can be, or if none is there.
pub fn unread_file(git: &Git, path: &str) -> Option<GitFault> {
    match read_first(git.rt, path) {
        Err(error) if error.kind() != ErrorKind::NotFound => {
            let path = String::from_str(git.alloc, path).ok()?;
            Some(GitFault::Unread(path, error))
        }
        _ => None,
    }
}
