//! How a command ends: its status, and the text that goes out with it.
#![tactic(auto)]

mod output;
mod status;

pub use output::{say, say_rows};
pub use status::ExitStatus;
