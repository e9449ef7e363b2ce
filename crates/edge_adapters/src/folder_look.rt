// A look into a folder, which takes no memory.
ghost use Rattle.std.specs.Prelude.{◌≡◌, ◌||◌, [], codes, not};
ghost use Rattle.std.specs.Str.{bytes_eq};

use std::fs::Files;
use std::io;
use std::io::{Error, ErrorKind, Read};

/// How many bytes a path has at most, with the NUL behind it.
const ROOM: usize = 4096;

/// Opens a folder. The slash has the system follow a link to one.
fn open_folder<R: Files>(rt: &R, folder: &str) -> io::Result<R::Dir> {
    let len = folder.len();
    if len == 0 || len >= ROOM {
        return rt.open_dir(folder);
    }
    let mut room = [0u8; ROOM];
    room[..len].copy_from_slice(folder.as_bytes());
    room[len] = b'/';
    match str::from_utf8(&room[..=len]) {
        Ok(path) => rt.open_dir(path),
        Err(_) => Err(Error::from(ErrorKind::InvalidFilename)),
    }
}

/// Whether an entry with this name counts: the folder itself, the one above it and `.git` don't.
fn counts(name: &[u8]) -> bool
    ensures { result ≡ not (bytes_eq name.now [] || bytes_eq name.now (codes ".") || bytes_eq name.now (codes "..")
        || bytes_eq name.now (codes ".git")) }
{
    !(name.is_empty()
        || name == b".".as_slice()
        || name == b"..".as_slice()
        || name == b".git".as_slice())
}

/// Whether one of these names counts, each of which has a NUL behind it.
fn one_counts(names: &[u8]) -> bool {
    for name in names.split(|byte| *byte == 0) {
        if counts(name) {
            return true;
        }
    }
    false
}

/// Whether a folder holds nothing but an entry `.git`. It takes no memory.
pub fn holds_nothing(rt: HostRuntime, folder: &str) -> io::Result<bool> {
    let mut dir = open_folder(&rt, folder)?;
    let mut names = [0u8; ROOM];
    for _ in 0..u64::MAX {
        let count = dir.read(&mut names)?;
        if count == 0 {
            return Ok(true);
        }
        if one_counts(&names[..count]) {
            return Ok(false);
        }
    }
    Ok(true)
}
