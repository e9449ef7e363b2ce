//! The settings that git uses, as `git config --list -z` has them.
use byte_path::read_decimal;
use memchr::{memchr, memrchr};
use std::alloc::{AllocError, Global};

/// A key with its section, in git's spelling, and its value if it has one.
#[derive(Clone, Copy)]
struct Setting<'a> {
    key: &'a [u8],
    value: Option<&'a [u8]>,
}

/// All settings, one after the other. Each is a key, behind a line end its value if it has one, and a NUL.
#[derive(Drop)]
pub struct SettingsList {
    bytes: Vec<u8>,
    /// Whether a variable says that the system's attribute file isn't read.
    pub no_system: bool,
}

fn setting_of(text: &[u8]) -> Setting<'_> {
    match memchr(b'\n', text) {
        Some(end) => {
            let (key, rest) = text.split_at(end);
            let (_, value) = rest.split_at(1);
            Setting {
                key,
                value: Some(value),
            }
        }
        None => Setting {
            key: text,
            value: None,
        },
    }
}

/// The keys that a checkout reads, without those of drivers.
const COUNTED: [&[u8]; 5] = [
    b"core.autocrlf",
    b"core.eol",
    b"checkout.workers",
    b"checkout.thresholdforparallelism",
    b"extensions.objectformat",
];

/// Whether a checkout reads the key.
fn counts(key: &[u8]) -> bool {
    key.starts_with(b"filter.") || COUNTED.iter().any(|counted| *counted == key)
}

/// Writes a value in double quotes (git-config(1)).
fn add_value(config: &mut Vec<u8>, text: &[u8]) -> Result<(), AllocError> {
    config.extend_from_slice(b"\"")?;
    for byte in text {
        match byte {
            b'\n' => config.extend_from_slice(b"\\n")?,
            b'"' => config.extend_from_slice(b"\\\"")?,
            b'\\' => config.extend_from_slice(b"\\\\")?,
            byte => config.extend_from_slice(&[*byte])?,
        }
    }
    config.extend_from_slice(b"\"")
}

/// Writes a section's head: its name, and behind the first dot that of its part, where a backslash means the next byte.
fn add_head(config: &mut Vec<u8>, section: &[u8]) -> Result<(), AllocError> {
    config.extend_from_slice(b"[")?;
    match memchr(b'.', section) {
        None => config.extend_from_slice(section)?,
        Some(dot) => {
            let (name, rest) = section.split_at(dot);
            let (_, part) = rest.split_at(1);
            config.extend_from_slice(name)?;
            config.extend_from_slice(b" ")?;
            add_value(config, part)?;
        }
    }
    config.extend_from_slice(b"]\n")
}

fn add_setting(config: &mut Vec<u8>, setting: Setting<'_>) -> Result<(), AllocError> {
    let Some(dot) = memrchr(b'.', setting.key) else {
        return Ok(());
    };
    let (section, rest) = setting.key.split_at(dot);
    let (_, name) = rest.split_at(1);
    add_head(config, section)?;
    config.extend_from_slice(name)?;
    if let Some(value) = setting.value {
        config.extend_from_slice(b" = ")?;
        add_value(config, value)?;
    }
    config.extend_from_slice(b"\n")
}

/// Whether a value of a switch says no (git-config(1)).
fn says_no(value: &[u8]) -> bool {
    value.is_empty()
        || value == b"0".as_slice()
        || value.eq_ignore_ascii_case(b"false")
        || value.eq_ignore_ascii_case(b"no")
        || value.eq_ignore_ascii_case(b"off")
}

/// Whether one of the usual values of a switch is on. `None` for each other one.
pub fn plain_switch(value: &[u8]) -> Option<bool> {
    if says_no(value) {
        return Some(false);
    }
    let is_on = value == b"1".as_slice()
        || value.eq_ignore_ascii_case(b"true")
        || value.eq_ignore_ascii_case(b"yes")
        || value.eq_ignore_ascii_case(b"on");
    if is_on { Some(true) } else { None }
}

/// How many bytes a value says: a number, with `k`, `m` or `g` at its end so many times 1,024 (git-config(1)).
fn size_said(value: &[u8]) -> Option<u64> {
    let (digits, unit) = match value {
        [digits @ .., b'k' | b'K'] => (digits, 1 << 10),
        [digits @ .., b'm' | b'M'] => (digits, 1 << 20),
        [digits @ .., b'g' | b'G'] => (digits, 1 << 30),
        digits => (digits, 1),
    };
    read_decimal(digits, u64::MAX)?.checked_mul(unit)
}

/// The remote that a setting says a partial clone is of, as git takes it: by `remote.<name>.promisor` where that is
/// true, by `remote.<name>.partialCloneFilter` or, as it was said before, by `extensions.partialClone`. A later
/// setting takes nothing back.
fn promised_by<'a>(setting: Setting<'a>) -> Option<&'a [u8]> {
    if setting.key == b"extensions.partialclone".as_slice() {
        return setting.value;
    }
    let rest = setting.key.strip_prefix(b"remote.")?;
    if let Some(remote) = rest.strip_suffix(b".partialclonefilter") {
        return Some(remote);
    }
    let remote = rest.strip_suffix(b".promisor")?;
    match setting.value {
        Some(value) if says_no(value) => None,
        _ => Some(remote),
    }
}

impl SettingsList {
    pub fn new(bytes: Vec<u8>, no_system: bool) -> SettingsList {
        SettingsList { bytes, no_system }
    }

    /// The value of the last setting with this key.
    pub fn last(&self, key: &[u8]) -> Option<Option<&[u8]>> {
        let mut last = None;
        for text in self.bytes.split(|byte| *byte == 0) {
            let setting = setting_of(text);
            if setting.key == key {
                last = Some(setting.value);
            }
        }
        last
    }

    /// How many bytes the last setting with this key says. `None` if there is none, or it says no number.
    pub fn size(&self, key: &[u8]) -> Option<u64> {
        size_said(self.last(key)??)
    }

    /// Whether a switch is on, that is so if nothing is said of it.
    pub fn is_on(&self, key: &[u8]) -> bool {
        match self.last(key) {
            Some(Some(value)) => !says_no(value),
            _ => true,
        }
    }

    /// Whether a switch is on, that is off if nothing is said of it.
    pub fn is_asked(&self, key: &[u8]) -> bool {
        self.last(key).is_some() && self.is_on(key)
    }

    /// The name of a remote from which objects may still be fetched, as a partial clone has one.
    pub fn promisor(&self) -> Option<&[u8]> {
        for text in self.bytes.split(|byte| *byte == 0) {
            if let Some(remote) = promised_by(setting_of(text)) {
                return Some(remote);
            }
        }
        None
    }

    /// The configuration of the settings that a checkout reads.
    pub fn config(&self, alloc: Global) -> Result<Vec<u8>, AllocError> {
        let mut config = Vec::new(alloc);
        for text in self.bytes.split(|byte| *byte == 0) {
            let setting = setting_of(text);
            if counts(setting.key) {
                add_setting(&mut config, setting)?;
            }
        }
        Ok(config)
    }
}
