//! A check-in into a git folder: the files of a folder, looked at by the repository's own index.
//!
//! The folder has to be meant. Objects are kept among the repository's own. The new index stands beside its own one, or
//! takes its place. Standard output has the report; standard error says what is wrong, where the new index is, and what
//! git would do otherwise.
#![tactic(auto)]

mod checkin;
mod engine_words;

pub use checkin::check_in_tree;
