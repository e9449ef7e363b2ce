//! A checkout straight from a git folder into an empty folder.
//!
//! Beside the files and the empty folders of submodules it gives a report in the form that is asked for, the
//! progress, a journal, and the repository's own index with what is told of the files. Standard error says what is
//! wrong, why files weren't written, what a driver wrote in place of packets, and what git would do otherwise.
#![tactic(auto)]

mod checkout;
mod driver_gate;
mod engine_call;
mod journal;
mod submodules;
mod target;

pub use checkout::check_out;
