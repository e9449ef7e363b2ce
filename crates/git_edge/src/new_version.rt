//! The version of an index that takes the place of a repository's own one.
use byte_path::read_decimal;
use edge_adapters::read_whole;
use git_answers::{Git, SettingsList};
use git_index::{Version, index_version};
use std::env::var;

/// The key of the setting that says which version an index has (git-config(1)).
const SETTING: &[u8] = b"index.version";

/// The variable that says which version a new index has (git(1)).
const VARIABLE: &str = "GIT_INDEX_VERSION";

/// The version with this number, if an index may have that. Versions 2 and 3 stand for each other.
fn version_with(number: u64) -> Option<Version> {
    match number {
        2 | 3 => Some(Version::Two),
        4 => Some(Version::Four),
        _ => None,
    }
}

/// The version that the setting says, if it says one.
fn set_version(listing: &SettingsList) -> Option<Version> {
    version_with(listing.size(SETTING)?)
}

/// The version of an index where none is: by the variable, else by the setting, and else as many files want it.
fn first_version(git: &Git, listing: &SettingsList) -> Version {
    let said = match var(&git.rt, VARIABLE) {
        Ok(number) => read_decimal(number.as_bytes(), u64::MAX).and_then(version_with),
        Err(_) if listing.last(SETTING).is_some() => set_version(listing),
        Err(_) if listing.is_asked(b"feature.manyfiles") => Some(Version::Four),
        Err(_) => None,
    };
    said.unwrap_or(Version::Two)
}

/// The version of an index that takes the place of one with this version, or of none.
pub fn next_version(git: &Git, listing: &SettingsList, own: Option<Version>) -> Version {
    match own {
        Some(own) => set_version(listing).unwrap_or(own),
        None => first_version(git, listing),
    }
}

/// The version of the index at this path, if there is one that can be read and has at most so many bytes.
pub fn version_at(git: &Git, path: &str, limit: u64) -> Option<Version> {
    let index = read_whole(git.rt, git.alloc, path, limit).ok()??;
    index_version(index.as_slice())
}
