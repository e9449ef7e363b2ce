//! The audit of a journal.
use edge_adapters::{FolderBlob, OutputSink};
use journal_run::show_audit;
use siuwbren_index::end_with;
use std::alloc::AllocError;

/// Judges the journal in a file, and prints a line of that.
pub fn audit(rt: HostRuntime, file: &str) -> Result<u8, AllocError> {
    let mut text = FolderBlob::of_file(rt, String::from_str(rt.alloc(), file)?);
    let mut out = OutputSink::new(rt, rt.stdout());
    let status = show_audit(rt.alloc(), &mut text, &mut out);
    Ok(end_with(rt, status.number()))
}
