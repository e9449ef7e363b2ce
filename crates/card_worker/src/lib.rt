//! A worker of a checkout: it claims cards from the book, writes each as a file and closes it, until no card waits.
#![tactic(auto)]

mod ahead;
mod few;
mod hand;
mod held;
pub mod laws;
mod leaf;
mod workers;
mod written;

pub use hand::Gathering;
pub use workers::work;
pub use written::{Written, write_card};
