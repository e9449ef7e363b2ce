//! The attribute files of the system and of the user, which decide where no other does (gitattributes(5)).
ghost use Rattle.edge_kit.specs.Told.{Untold, Takes};

use crate::finding::FoundRepository;
use crate::git::{Answer, Git, fault_of};
use crate::listing::SettingsList;
use byte_path::unmarked;
use edge_adapters::read_whole;
use edge_kit::TakeFault;
use std::alloc::AllocError;
use std::env::var;
use std::fs::{File, metadata};
use std::io;
use std::io::ErrorKind;

/// Where the system's file is, if git doesn't say.
const SYSTEM: &str = "/etc/gitattributes";

/// The status with which git ends if it doesn't know its words.
const USAGE: i32 = 129;

/// What git says of a file: its path, or none. `None` if this git doesn't say it.
fn path_said(git: &Git, answer: &Answer) -> io::Result<Option<Option<String>>> {
    if answer.status == Some(USAGE) {
        return Ok(None);
    }
    let Ok(text) = str::from_utf8(answer.bytes.as_slice()) else {
        return Err(io::Error::from(ErrorKind::InvalidFilename));
    };
    match text.strip_suffix("\n") {
        Some(path) if answer.is_good() && !path.is_empty() => {
            Ok(Some(Some(String::from_str(git.alloc, path)?)))
        }
        _ => Ok(Some(None)),
    }
}

/// A variable of the environment, if it is there and isn't empty.
fn variable(git: &Git, name: &str) -> Option<String> {
    match var(&git.rt, name) {
        Ok(value) if !value.is_empty() => Some(value),
        _ => None,
    }
}

/// Where the system's file is, if it is to be read. A git that can't say it isn't asked.
fn system_path(
    git: &Git,
    found: &FoundRepository,
    listing: &SettingsList,
) -> io::Result<Option<String>> {
    if listing.no_system {
        return Ok(None);
    }
    if !found.is_silent {
        let answer = git.ask(&["var", "GIT_ATTR_SYSTEM"])?;
        if let Some(path) = path_said(git, &answer)? {
            return Ok(path);
        }
    }
    Ok(Some(String::from_str(git.alloc, SYSTEM)?))
}

/// A path as git looks for it, which goes to the top of the worktree first.
fn from_top(git: &Git, found: &FoundRepository, path: String) -> Result<String, AllocError> {
    match &found.top {
        Some(top) if !path.as_str().starts_with('/') => format!(in git.alloc; "{top}/{path}"),
        _ => Ok(path),
    }
}

/// Where the user's file is if no setting names one, as the variables have it.
fn default_path(git: &Git) -> io::Result<Option<String>> {
    if let Some(folder) = variable(git, "XDG_CONFIG_HOME") {
        return Ok(Some(format!(in git.alloc; "{folder}/git/attributes")?));
    }
    match variable(git, "HOME") {
        Some(folder) => Ok(Some(format!(in git.alloc; "{folder}/.config/git/attributes")?)),
        None => Ok(None),
    }
}

/// A path of a setting that git doesn't change but for the home at its front, if it is such a one.
fn plain_path(git: &Git, value: &[u8]) -> Result<Option<String>, AllocError> {
    let Ok(text) = str::from_utf8(value) else {
        return Ok(None);
    };
    if text.starts_with('/') {
        return Ok(Some(String::from_str(git.alloc, text)?));
    }
    match (text.strip_prefix("~/"), variable(git, "HOME")) {
        (Some(rest), Some(home)) => Ok(Some(format!(in git.alloc; "{home}/{rest}")?)),
        _ => Ok(None),
    }
}

/// Where this setting says that the user's file is.
fn set_path(git: &Git, value: &[u8]) -> io::Result<Option<String>> {
    if let Some(path) = plain_path(git, value)? {
        return Ok(Some(path));
    }
    let answer = git.ask(&["config", "--type=path", "--get", "core.attributesFile"])?;
    Ok(path_said(git, &answer)?.flatten())
}

/// Where a setting or the variables say that the user's file is.
fn named_path(git: &Git, listing: &SettingsList) -> io::Result<Option<String>> {
    match listing.last(b"core.attributesfile") {
        Some(Some(value)) => set_path(git, value),
        Some(None) => Ok(None),
        None => default_path(git),
    }
}

/// Where the user's file is, if there may be one.
fn user_path(
    git: &Git,
    found: &FoundRepository,
    listing: &SettingsList,
) -> io::Result<Option<String>> {
    match named_path(git, listing)? {
        Some(path) => Ok(Some(from_top(git, found, path)?)),
        None => Ok(None),
    }
}

/// Opens the file at a path, to see whether that can be. A folder can't be opened, and what else is no file isn't.
fn open_file(git: &Git, path: &str) -> io::Result<()> {
    let found = metadata(&git.rt, path)?;
    if found.is_dir() {
        return Err(io::Error::from(ErrorKind::IsADirectory));
    }
    if found.is_file() {
        File::open(&git.rt, path)?;
    }
    Ok(())
}

/// Notes why a file is left out. One that isn't there isn't missed, nor one in a folder that is none, as in that of a
/// home which is `/dev/null`.
fn leave_out(
    git: &Git,
    path: &str,
    error: &io::Error,
    left_out: &mut Vec<String>,
) -> Result<(), AllocError> {
    match error.kind() {
        ErrorKind::NotFound | ErrorKind::NotADirectory => Ok(()),
        ErrorKind::OutOfMemory => Err(AllocError),
        _ => {
            let line = format!(in git.alloc; "the attribute file {path} is left out: {error}")?;
            left_out.push(line)?;
            Ok(())
        }
    }
}

/// The file at this path, or nothing if it isn't there or can't be opened.
fn file_at(
    git: &Git,
    path: io::Result<Option<String>>,
    limit: u64,
    left_out: &mut Vec<String>,
) -> Result<Vec<u8>, TakeFault> {
    let Some(path) = path.map_err(|error| fault_of(&error))? else {
        return Ok(Vec::new(git.alloc));
    };
    if let Err(error) = open_file(git, path.as_str()) {
        leave_out(git, path.as_str(), &error, left_out)?;
        return Ok(Vec::new(git.alloc));
    }
    match read_whole(git.rt, git.alloc, path.as_str(), limit)? {
        Some(bytes) => Ok(bytes),
        None => Ok(Vec::new(git.alloc)),
    }
}

/// The two files as one, of which the later lines win: the system's, and then the user's. Neither has its mark
/// (U+FEFF). One that can't be opened is left out, as git has it, and it is noted why.
pub fn base_attributes(
    git: &Git,
    found: &FoundRepository,
    listing: &SettingsList,
    limit: u64,
    left_out: &mut Vec<String>,
) -> Result<Option<Vec<u8>>, TakeFault>
    ensures { Takes Untold limit result }
{
    let system = file_at(git, system_path(git, found, listing), limit, left_out)?;
    let user = file_at(git, user_path(git, found, listing), limit, left_out)?;
    if system.is_empty() && user.is_empty() {
        return Ok(None);
    }
    let mut both = Vec::new(git.alloc);
    if !system.is_empty() {
        both.extend_from_slice(unmarked(system.as_slice()))?;
        both.extend_from_slice(b"\n")?;
    }
    both.extend_from_slice(unmarked(user.as_slice()))?;
    if both.len() as u64 > limit {
        return Err(TakeFault::TooLong);
    }
    Ok(Some(both))
}
