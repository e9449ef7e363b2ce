//! Who else may use the files of a repository (git-config(1), core.sharedRepository).
use std::fs::{File, Permissions, set_permissions, symlink_metadata};
use std::io;
use std::os::unix::fs::PermissionsExt;

/// What a repository says of the permissions of its files.
#[derive(Clone, Copy, Debug)]
pub enum Sharing {
    /// They are what the umask leaves.
    Umask,
    /// They have these beside what the umask leaves.
    More(u32),
    /// They are these.
    Exact(u32),
}

/// The permissions to write a file.
const WRITING: u32 = 0o222;

/// The permissions to read a file.
const READING: u32 = 0o444;

/// The permissions that a file can get.
const MOST: u32 = 0o666;

/// The permissions of anything.
const ALL: u32 = 0o777;

/// What the group may do with a folder, if it may do anything there.
const OF_GROUP: u32 = 0o060;

/// That new files of a folder belong to the folder's group.
const SET_GROUP: u32 = 0o2000;

/// These permissions, and those to enter a folder for all who may read it.
fn entered(mode: u32) -> u32 {
    mode | (mode & READING) >> 2
}

impl Sharing {
    /// The permissions of a file that the system made with these. A file that its owner can't write nobody can.
    pub fn of_file(self, made: u32) -> u32 {
        let allowed = if made & 0o200 == 0 {
            MOST & !WRITING
        } else {
            MOST
        };
        match self {
            Sharing::Umask => made,
            Sharing::More(mode) => made | mode & allowed,
            Sharing::Exact(mode) => mode & allowed,
        }
    }

    /// The permissions of a folder that the system made with these. Its group has its new files if it may use it.
    pub fn of_folder(self, made: u32) -> u32 {
        let shared = match self {
            Sharing::Umask => return made,
            Sharing::More(mode) => entered(made | mode & MOST),
            Sharing::Exact(mode) => entered(made & !ALL | mode & MOST),
        };
        if shared & OF_GROUP == 0 {
            shared
        } else {
            shared | SET_GROUP
        }
    }
}

/// All permissions, and what beside them says how a folder's files belong to its group.
const KEPT: u32 = 0o7777;

/// Gives a new file the permissions that its repository says.
pub fn share_file(file: &File, sharing: Sharing) -> io::Result<()> {
    let made = file.metadata()?.permissions().mode() & KEPT;
    let mode = sharing.of_file(made);
    if mode != made {
        file.set_permissions(Permissions::from_mode(mode))?;
    }
    Ok(())
}

/// Gives a new folder the permissions that its repository says.
pub fn share_folder(rt: HostRuntime, path: &str, sharing: Sharing) -> io::Result<()> {
    let made = symlink_metadata(&rt, path)?.permissions().mode() & KEPT;
    let mode = sharing.of_folder(made);
    if mode != made {
        set_permissions(&rt, path, Permissions::from_mode(mode))?;
    }
    Ok(())
}
