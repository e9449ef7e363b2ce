//! The lock of an index, which is also the place of the new one: `index.lock` beside it.
use crate::keeper::Keeper;
use file_stat::{Sharing, share_file};
use git_answers::{Git, GitFault};
use std::alloc::AllocError;
use std::fs::{File, OpenOptions, canonicalize, remove_file, rename, symlink_metadata};
use std::io;
use std::io::{ErrorKind, Write};
use std::os::unix::fs::OpenOptionsExt;

/// What a shell does with a lock: it says that it waits. Once it is told that the lock is made, it removes that at the
/// end of its input, unless it is told before that the lock is gone. Signals that a terminal sends to both don't end
/// the shell.
const KEEPING: &str =
    "trap '' HUP INT QUIT PIPE TERM; echo; read -r _ || exit; read -r _ && exit; rm -f -- \"$1\"";

/// An index that no other process of git changes. It is free again when this is dropped, and when a signal ends the
/// program.
pub struct IndexLock {
    rt: HostRuntime,
    // none where there is no shell: a signal then leaves the lock
    keeper: Option<Keeper>,
    file: File,
    // whether the file is still there
    is_held: bool,
    path: String,
    index: String,
}

/// Where the index is that this path leads to: git looks through a link to it.
fn place_of(git: &Git, path: &str) -> Result<String, AllocError> {
    let is_link = symlink_metadata(&git.rt, path).is_ok_and(|found| found.is_symlink());
    if is_link {
        if let Ok(place) = canonicalize(&git.rt, path) {
            if let Ok(place) = String::from_utf8(place.into_os_string().into_bytes()) {
                return Ok(place);
            }
        }
    }
    String::from_str(git.alloc, path)
}

/// Makes the file of a lock where nothing is.
fn make_new(rt: HostRuntime, path: &str) -> io::Result<File> {
    OpenOptions::new()
        .write(true)
        .create_new(true)
        .mode(0o666)
        .open(&rt, path)
}

/// Makes the file of a lock where nothing is, with the permissions that its repository says.
fn make(rt: HostRuntime, path: &str, sharing: Sharing) -> io::Result<File> {
    let file = make_new(rt, path)?;
    match share_file(&file, sharing) {
        Ok(()) => Ok(file),
        Err(error) => {
            let _ = remove_file(&rt, path);
            Err(error)
        }
    }
}

/// Why the file of a lock couldn't be made.
fn fault_of(path: String, error: io::Error) -> GitFault {
    match error.kind() {
        ErrorKind::OutOfMemory => GitFault::NoMemory,
        ErrorKind::AlreadyExists => GitFault::Locked(path),
        _ => GitFault::NoLock(path, error),
    }
}

impl IndexLock {
    /// Locks the index at this path, which is to have such permissions, or says why it can't be. It never waits for
    /// another process.
    pub fn take(git: &Git, index: &str, sharing: Sharing) -> Result<IndexLock, GitFault> {
        let index = place_of(git, index)?;
        let path = format!(in git.alloc; "{index}.lock")?;
        let mut keeper = match Keeper::start(git.rt, git.alloc, KEEPING, path.as_str()) {
            Ok(keeper) => keeper,
            Err(_) => None,
        };
        let file = match make(git.rt, path.as_str(), sharing) {
            Ok(file) => file,
            Err(error) => {
                end(keeper);
                return Err(fault_of(path, error));
            }
        };
        tell(&mut keeper);
        Ok(IndexLock {
            rt: git.rt,
            keeper,
            file,
            is_held: true,
            path,
            index,
        })
    }

    /// Puts these bytes into the place of the index, which is free again then. If that fails, the index is as it was.
    pub fn put(&mut self, index: &[u8]) -> io::Result<()> {
        self.file.write_all(index)?;
        tell(&mut self.keeper);
        rename(&self.rt, self.path.as_str(), self.index.as_str())?;
        self.is_held = false;
        Ok(())
    }
}

/// Tells a keeper one thing more, if there is one. One that has ended hears nothing.
fn tell(keeper: &mut Option<Keeper>) {
    if let Some(keeper) = keeper {
        let _ = keeper.tell();
    }
}

fn end(keeper: Option<Keeper>) {
    if let Some(keeper) = keeper {
        keeper.end();
    }
}

impl Drop for IndexLock {
    fn drop(self) {
        let IndexLock {
            rt,
            mut keeper,
            file,
            is_held,
            path,
            index,
        } = self;
        drop((file, index));
        if is_held {
            tell(&mut keeper);
            let _ = remove_file(&rt, path.as_str());
        }
        end(keeper);
    }
}
