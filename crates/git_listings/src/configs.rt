//! What a configuration lists, and what is wrong with it.
use case_kit::{push_all, shown};
use git_config::{Setting, read_config};
use std::alloc::{AllocError, Global};
use std::test::Fail;

/// A setting's subsection after a dot, if it has one.
fn sub_of(setting: &Setting) -> (&[u8], &[u8]) {
    match &setting.sub {
        Some(sub) => (b".", sub.as_slice()),
        None => (b"", b""),
    }
}

/// A setting's value after a line feed, if it has one.
fn value_of(setting: &Setting) -> (&[u8], &[u8]) {
    match &setting.value {
        Some(value) => (b"\n", value.as_slice()),
        None => (b"", b""),
    }
}

/// Appends a setting as `git config --list --null` shows it.
fn push_listed(list: &mut Vec<u8>, setting: &Setting) -> Result<(), AllocError> {
    let section = setting.section.as_slice();
    let (dot, sub) = sub_of(setting);
    let (end, value) = value_of(setting);
    let key = setting.key.as_slice();
    push_all(list, &[section, dot, sub, b".", key, end, value, b"\0"])
}

/// The settings of a file as git lists them, or what is wrong with it.
pub fn listed(alloc: Global, text: &[u8]) -> Result<Vec<u8>, AllocError> {
    match read_config(alloc, text) {
        Ok(config) => {
            let mut list = Vec::new(alloc);
            for setting in config.settings() {
                push_listed(&mut list, setting)?;
            }
            Ok(list)
        }
        Err(fault) => shown(alloc, fault),
    }
}

/// How many settings a file has.
pub fn counted(alloc: Global, text: &[u8]) -> Result<Vec<u8>, Fail> {
    let config = read_config(alloc, text)?;
    Ok(shown(alloc, config.settings().len())?)
}
