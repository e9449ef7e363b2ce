//! What standard error says of a refusal beside its line: of which entry or setting it is, and what the limit is.
use crate::faults::say;
use crate::own_index::MOST_INDEX;
use edge_kit::Repo;
use git_config::read_config;
use git_edge::GitRepo;
use git_index::{IndexFault, read_index};
use program_kit::show_refused_path;
use settings_view::{KeyId, SettingFault, settings};

/// How many bytes a configuration may have.
const MOST_CONFIG: u64 = 1_048_576;

/// How many entries an index may have.
const MOST_ENTRIES: u32 = 100_000;

/// The key that a fault is about.
fn key_of(fault: SettingFault) -> Option<KeyId> {
    match fault {
        SettingFault::BadBool(key) | SettingFault::BadNumber(key) | SettingFault::BadChoice(key) =>
            Some(key),
        SettingFault::NoMemory => None,
    }
}

/// The key for which the settings of a repository are refused.
fn refused_key(rt: HostRuntime, repo: &mut GitRepo) -> Option<KeyId> {
    let bytes = repo.config_bytes(MOST_CONFIG).ok()??;
    let config = read_config(rt.alloc(), bytes.as_slice()).ok()?;
    key_of(settings(rt.alloc(), &config).err()?)
}

/// The line of the setting for which a repository is refused.
fn refused_line(rt: HostRuntime, repo: &mut GitRepo) -> Option<String> {
    let key = refused_key(rt, repo)?;
    let key = format!(in rt.alloc(); "{key}").ok()?;
    repo.refused_setting(key.as_str())
}

/// Says for which setting a repository is refused, if it is for one: its key and value, and where it stands.
fn show_setting(rt: HostRuntime, repo: &mut GitRepo) {
    if let Some(line) = refused_line(rt, repo) {
        say(rt, line.as_str());
    }
}

/// Says how many entries an index may have, if it is refused for their number.
fn show_limit(rt: HostRuntime, fault: IndexFault) {
    if let IndexFault::Count(_) = fault {
        let _ = eprintln!(rt; "the limit: an index of {MOST_ENTRIES} entries");
    }
}

/// Says what else is to be said of a repository that is refused.
pub fn show_refusal(rt: HostRuntime, repo: &mut GitRepo) {
    show_refused_path(rt, repo);
    let Ok(Some(bytes)) = repo.index_bytes(MOST_INDEX) else {
        return;
    };
    match read_index(rt.alloc(), bytes.as_slice()) {
        Ok(_) => show_setting(rt, repo),
        Err(fault) => show_limit(rt, fault),
    }
}
