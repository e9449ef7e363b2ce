//! Journals at work: that of a run, that of a rehearsal by its numbers, and the audit of one in a file.
#![tactic(auto)]

mod finding;
mod journal;
mod laws;
mod rehearsed;
mod run;
mod words;

pub use journal::print_journal;
pub use laws::{a_file_has_one_finding, checkouts_are_legal, rehearsals_are_legal, runs_are_legal};
pub use run::{journal_run, show_audit};
pub use words::is_journal;
