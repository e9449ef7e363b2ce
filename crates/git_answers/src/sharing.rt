//! Who else may use the files of a repository (git-config(1), core.sharedRepository).
use crate::fault::GitFault;
use crate::finding::switch_of;
use crate::git::Git;
use crate::listing::{SettingsList, plain_switch};
use file_stat::Sharing;

/// What the group may do beside the owner.
const GROUP: Sharing = Sharing::More(0o660);

/// What the group and all others may do beside the owner.
const EVERYBODY: Sharing = Sharing::More(0o664);

/// The permissions that the owner always has.
const OWNER: u32 = 0o600;

/// The permissions that a file can get.
const MOST: u32 = 0o666;

/// The number that octal digits are: 0 without one, and at most 2^32 - 1.
fn octal_of(text: &[u8]) -> Option<u32> {
    let mut number = 0u32;
    for byte in text {
        match byte {
            b'0'..=b'7' => {
                let digit = u32::from(*byte - b'0');
                number = number.saturating_mul(8).saturating_add(digit);
            }
            _ => return None,
        }
    }
    Some(number)
}

/// What a number says: one of the old numbers, or the permissions.
fn numbered(git: &Git, number: u32) -> Result<Sharing, GitFault> {
    match number {
        0 => Ok(Sharing::Umask),
        1 => Ok(GROUP),
        2 => Ok(EVERYBODY),
        mode if mode & OWNER == OWNER => Ok(Sharing::Exact(mode & MOST)),
        mode => Err(GitFault::Refused(format!(in git.alloc;
            "problem with core.sharedRepository filemode value (0{mode:03o}).\n\
             The owner of files must always have read and write permissions."
        )?)),
    }
}

/// What a value says that is no number of these: it is a switch.
fn switched(git: &Git, value: &[u8]) -> Result<Sharing, GitFault> {
    let text = str::from_utf8(value).unwrap_or("");
    let on = match plain_switch(value) {
        Some(on) => Some(on),
        None => switch_of(git, text)?,
    };
    match on {
        Some(true) => Ok(GROUP),
        Some(false) => Ok(Sharing::Umask),
        None => Err(GitFault::Refused(format!(in git.alloc;
            "bad boolean config value '{text}' for 'core.sharedrepository'"
        )?)),
    }
}

/// What a value of the setting says.
fn said_by(git: &Git, value: &[u8]) -> Result<Sharing, GitFault> {
    match value {
        b"umask" => Ok(Sharing::Umask),
        b"group" => Ok(GROUP),
        b"all" | b"world" | b"everybody" => Ok(EVERYBODY),
        value => match octal_of(value) {
            Some(number) => numbered(git, number),
            None => switched(git, value),
        },
    }
}

/// What the settings say of the permissions of a repository's files, or why git would stop there.
pub fn sharing_of(git: &Git, listing: &SettingsList) -> Result<Sharing, GitFault> {
    match listing.last(b"core.sharedrepository") {
        Some(Some(value)) => said_by(git, value),
        Some(None) => Ok(GROUP),
        None => Ok(Sharing::Umask),
    }
}
