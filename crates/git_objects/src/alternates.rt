//! The folders of objects that a repository borrows from (gitrepository-layout(5)).
use crate::fault::ObjectsFault;
use edge_adapters::{path_in, read_whole};
use std::alloc::{AllocError, Global};
use std::fs::metadata;
use std::os::unix::fs::MetadataExt;

/// The most bytes of a file that names folders.
const MOST: u64 = 1 << 20;

/// The most folders of a repository.
const FOLDERS: usize = 1000;

/// How often a folder that is borrowed from may borrow: as often as for git.
const DEEP: usize = 6;

/// What tells a folder from every other one, however its path is spelled: its device and its inode.
#[derive(Clone, Copy, PartialEq, Eq)]
struct Identity {
    device: u64,
    inode: u64,
}

/// What tells the folder at a path from others, if one is there.
fn identity_of(rt: HostRuntime, path: &str) -> Option<Identity> {
    let found = metadata(&rt, path).ok()?;
    if !found.is_dir() {
        return None;
    }
    Some(Identity {
        device: found.dev(),
        inode: found.ino(),
    })
}

/// The folders of a repository's objects, each once.
#[derive(Drop)]
pub struct Folders {
    pub paths: Vec<String>,
    identities: Vec<Identity>,
    /// Whether there are others, which git alone finds.
    pub are_partial: bool,
}

/// The path that a line names in the file of a folder. It is relative to the folder if it doesn't begin with a slash.
fn named_by(alloc: Global, folder: &str, line: &str) -> Result<String, AllocError> {
    if line.starts_with('/') {
        String::from_str(alloc, line)
    } else {
        path_in(alloc, folder, line)
    }
}

impl Folders {
    /// A folder and those that it borrows from.
    pub fn of(rt: HostRuntime, own: String) -> Result<Folders, ObjectsFault> {
        let mut identities = Vec::new(rt.alloc());
        if let Some(identity) = identity_of(rt, own.as_str()) {
            identities.push(identity)?;
        }
        let mut paths = Vec::new(rt.alloc());
        paths.push(own)?;
        let mut folders = Folders {
            paths,
            identities,
            are_partial: false,
        };
        let mut begun = 0;
        for _ in 0..DEEP {
            let end = folders.paths.len();
            folders.add_level(rt, begun, end)?;
            begun = end;
        }
        Ok(folders)
    }

    /// Adds the folders that the folders of these places borrow from.
    fn add_level(&mut self, rt: HostRuntime, begun: usize, end: usize) -> Result<(), ObjectsFault> {
        for place in begun..end {
            self.add_named(rt, place)?;
        }
        Ok(())
    }

    /// Adds the folders that the file of a folder names.
    fn add_named(&mut self, rt: HostRuntime, place: usize) -> Result<(), ObjectsFault> {
        let alloc = rt.alloc();
        let Some(folder) = self.paths.get(place) else {
            return Ok(());
        };
        let folder = folder.clone()?;
        let file = path_in(alloc, folder.as_str(), "info/alternates")?;
        let Some(bytes) = read_whole(rt, alloc, file.as_str(), MOST)? else {
            return Ok(());
        };
        let Ok(text) = str::from_utf8(bytes.as_slice()) else {
            self.are_partial = true;
            return Ok(());
        };
        for line in text.split('\n') {
            self.add_line(rt, folder.as_str(), line)?;
        }
        Ok(())
    }

    /// Adds the folder that a line names, unless it is known. What isn't there lends nothing. A path in quotes is
    /// left to git.
    fn add_line(&mut self, rt: HostRuntime, folder: &str, line: &str) -> Result<(), ObjectsFault> {
        if line.is_empty() || line.starts_with('#') {
            return Ok(());
        }
        if line.starts_with('"') || self.paths.len() >= FOLDERS {
            self.are_partial = true;
            return Ok(());
        }
        let path = named_by(rt.alloc(), folder, line)?;
        let Some(identity) = identity_of(rt, path.as_str()) else {
            return Ok(());
        };
        if !self.identities.contains(&identity) {
            self.identities.push(identity)?;
            self.paths.push(path)?;
        }
        Ok(())
    }
}
