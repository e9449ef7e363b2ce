//! A worktree back into blobs and an index.
#![tactic(auto)]

mod command;
mod kept_entries;
mod kept_index;
mod laws;
mod report;
mod rows;
mod words;

pub use command::checkin;
pub use laws::{checkins_are_rows, equal_sessions_give_equal_turns, same_files_ask_alike};
pub use rows::CheckinReport;
pub use words::is_checkin;
