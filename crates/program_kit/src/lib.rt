//! What the programs share: their words, what standard error says of a run beside the report, its progress, the file of
//! its journal, and a check-in.
#![tactic(auto)]

mod checkin;
mod failure_sink;
mod journal_file;
mod messages;
mod notes;
mod own_words;
mod progress;
mod refused;

pub use checkin::{EndedCheckin, check_in};
pub use journal_file::JournalFile;
pub use messages::message_of;
pub use notes::{show_drivers, show_errors};
pub use own_words::words_of;
pub use progress::{CountingTree, Progress, has_terminal};
pub use refused::show_refused_path;
