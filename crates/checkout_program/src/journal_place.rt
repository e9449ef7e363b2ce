//! The file for the journal of a checkout, if the environment names one.
use program_kit::JournalFile;
use std::alloc::AllocError;
use std::env::{VarError, var};

/// Where the journal of a checkout goes.
#[derive(Drop)]
pub enum JournalPlace {
    Nowhere,
    File(JournalFile),
    /// No new file can be where the environment says, and standard error says why.
    Unusable,
}

/// What standard error says first of a journal.
const TITLE: &str = "SIUWBREN_JOURNAL";

/// A new file at this path.
fn new_file(rt: HostRuntime, path: String) -> Result<JournalPlace, AllocError> {
    let title = String::from_str(rt.alloc(), TITLE)?;
    match JournalFile::make(rt, title, path)? {
        Some(file) => Ok(JournalPlace::File(file)),
        None => Ok(JournalPlace::Unusable),
    }
}

/// Where the journal of a checkout by these words goes.
pub fn journal_place(rt: HostRuntime, words: &[String]) -> Result<JournalPlace, AllocError> {
    match words {
        [_, _, name, ..] if name.as_str() == "checkout" => {}
        _ => return Ok(JournalPlace::Nowhere),
    }
    match var(&rt, "SIUWBREN_JOURNAL") {
        Ok(path) => new_file(rt, path),
        Err(VarError::NotPresent) => Ok(JournalPlace::Nowhere),
        Err(VarError::NotUnicode) => {
            let _ = eprintln!(rt; "{TITLE}: the path is not UTF-8");
            Ok(JournalPlace::Unusable)
        }
        Err(VarError::OutOfMemory) => Err(AllocError),
    }
}
