//! Where a setting stands and which value it has, as git says it.
use crate::git::Git;
use crate::listing::plain_switch;
use byte_path::quote_path;
use std::alloc::{AllocError, Global};

/// What is asked of `git config` before a pattern of keys.
const ASKED: [&str; 4] = ["config", "--show-origin", "-z", "--get-regexp"];

/// The keys that say whether a driver is required, as a pattern.
const REQUIRED: &str = "^filter\\..*\\.required$";

/// A setting with the place where it stands, in git's words, its key, and behind a line end its value if it has one.
#[derive(Clone, Copy)]
struct PlacedSetting<'a> {
    place: &'a str,
    text: &'a str,
}

impl<'a> PlacedSetting<'a> {
    fn key(self) -> &'a str {
        match self.text.split_once('\n') {
            Some((key, _)) => key,
            None => self.text,
        }
    }

    fn value(self) -> Option<&'a str> {
        match self.text.split_once('\n') {
            Some((_, value)) => Some(value),
            None => None,
        }
    }

    /// Whether it has a value that is no switch.
    fn is_no_switch(self) -> bool {
        match self.value() {
            Some(value) => plain_switch(value.as_bytes()).is_none(),
            None => false,
        }
    }

    /// Its line.
    fn line(self, alloc: Global) -> Result<String, AllocError> {
        let (key, place) = (self.key(), self.place);
        let Some(value) = self.value() else {
            return format!(in alloc; "the setting {key} has no value in {place}");
        };
        let quoted = quote_path(alloc, value.as_bytes())?;
        let value = str::from_utf8(quoted.as_slice()).unwrap_or(value);
        format!(in alloc; "the setting {key} has the value {value} in {place}")
    }
}

/// The settings of git's answer, each a place, a NUL, a key with its value, and a NUL.
fn settings_in(alloc: Global, answer: &str) -> Result<Vec<PlacedSetting<'_>>, AllocError> {
    let mut settings = Vec::new(alloc);
    let mut rest = answer;
    for _ in 0..answer.len() {
        let Some((place, behind)) = rest.split_once('\0') else {
            return Ok(settings);
        };
        let Some((text, behind)) = behind.split_once('\0') else {
            return Ok(settings);
        };
        settings.push(PlacedSetting { place, text })?;
        rest = behind;
    }
    Ok(settings)
}

/// The settings of the keys that fit a pattern, as git lists them.
fn answer_of(git: &Git, pattern: &str) -> Option<String> {
    let answer = git.ask_more(ASKED.as_slice(), &[pattern]).ok()?;
    String::from_utf8(answer.bytes).ok()
}

/// The first setting that is the last of its key and whose value is no switch.
fn no_switch<'a>(settings: &[PlacedSetting<'a>]) -> Option<PlacedSetting<'a>> {
    let mut rest = settings;
    for _ in 0..settings.len() {
        let [setting, later @ ..] = rest else {
            return None;
        };
        let is_last = !later.iter().any(|other| other.key() == setting.key());
        if is_last && setting.is_no_switch() {
            return Some(*setting);
        }
        rest = later;
    }
    None
}

/// The line of the setting for which a repository is refused: that of the key, or of a driver that is neither required
/// nor not, if the key is that of no driver alone. `None` where git can't say it, or where its words aren't UTF-8.
pub fn refused_setting(git: &Git, key: &str) -> Option<String> {
    if key.starts_with("filter.") {
        let answer = answer_of(git, REQUIRED)?;
        let settings = settings_in(git.alloc, answer.as_str()).ok()?;
        return no_switch(settings.as_slice())?.line(git.alloc).ok();
    }
    let lowered = key.to_ascii_lowercase(git.alloc).ok()?;
    let pattern = format!(in git.alloc; "^{lowered}$").ok()?;
    let answer = answer_of(git, pattern.as_str())?;
    let settings = settings_in(git.alloc, answer.as_str()).ok()?;
    settings.last()?.line(git.alloc).ok()
}
