//! The words after the program's name: `checkout`, `checkin`, `plan`, `rehearse` or `audit` with its arguments, or a
//! wish for help.
#![tactic(auto)]

mod command;
mod commands;
mod fault;
mod parser;
mod path_count;
mod values;
mod words_read;
mod worker_count;

pub use command::{CheckinWords, CheckoutWords, PlanWords, ProgressChoice, Subcommand};
pub use fault::UsageFault;
pub use path_count::PathCount;
pub use words_read::read_words;
pub use worker_count::WorkerCount;
