//! The file for the journal of a checkout.
use program_kit::JournalFile;
use std::alloc::AllocError;

/// The new file at this path for the journal of a checkout. If it can't be made, standard error says why.
pub fn journal_file(rt: HostRuntime, path: &str) -> Result<Option<JournalFile>, AllocError> {
    let title = format!(in rt.alloc(); "error: journal '{path}'")?;
    let path = String::from_str(rt.alloc(), path)?;
    JournalFile::make(rt, title, path)
}
