//! Why a repository can't be used.
use std::alloc::{AllocError, AllocFailed};
use std::io;
use std::io::ErrorKind;
use thiserror::Error;

/// Why a repository can't be used, in words.
#[derive(Error, Debug, Drop)]
pub enum GitFault {
    /// The program git can't be started, or what it writes can't be read.
    #[error("git can't be run: {0}")]
    NoGit(io::Error),
    /// Git is of a version that doesn't know what it is asked.
    #[error("git is too old: it has to be of version 2.31 or later")]
    TooOld,
    /// Git finds no repository, or fails at a question on it. The text is git's own.
    #[error("{0}")]
    Refused(String),
    /// Git's processes need a folder for temporary files, and none can be made in this one.
    #[error("no temporary folder can be made in {0}: {1}")]
    NoScratch(String, io::Error),
    #[error("'{0}' names no commit, tag or tree")]
    NoRevision(String),
    /// The names of objects are not by SHA-1. The text is git's word for what they are by.
    #[error("object names are by {0}, and only names by SHA-1 are read")]
    ObjectFormat(String),
    /// A path of the repository isn't UTF-8 or has a line end in it.
    #[error("a path of the repository isn't UTF-8, or has a line end in it")]
    BadPath,
    /// Another process has the index's lock, which stands at this path.
    #[error("Unable to create '{0}': File exists.")]
    Locked(String),
    /// The index's lock can't be made at this path.
    #[error("Unable to create '{0}': {1}")]
    NoLock(String, io::Error),
    /// A file of the repository can't be read.
    #[error("read fault: {0}: {1}")]
    Unread(String, io::Error),
    /// An object that was needed can't be read. The text is its name in hex.
    #[error("read fault: object {0}")]
    UnreadObject(String),
    #[error("out of memory")]
    NoMemory,
}

impl GitFault {
    /// Why a folder for temporary files couldn't be made in this one.
    pub fn of_scratch(base: String, error: io::Error) -> GitFault {
        match error.kind() {
            ErrorKind::OutOfMemory => GitFault::NoMemory,
            _ => GitFault::NoScratch(base, error),
        }
    }
}

impl From<AllocError> for GitFault {
    fn from(_: AllocError) -> Self {
        GitFault::NoMemory
    }
}

impl From<io::Error> for GitFault {
    fn from(error: io::Error) -> Self {
        match error.kind() {
            ErrorKind::OutOfMemory => GitFault::NoMemory,
            _ => GitFault::NoGit(error),
        }
    }
}

impl<T: Drop> From<AllocFailed<T>> for GitFault {
    fn from(_: AllocFailed<T>) -> Self {
        GitFault::NoMemory
    }
}
