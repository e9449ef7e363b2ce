//! The tests of the outside of a check-in, with real files, each in a folder of its own, which a shell fills (`place`).
//!
//! `files` has what is read of a worktree's folder, `keepers` what is kept and how git reads it, and `streams` zlib
//! streams of stored blocks. It has nothing but tests, whose tables `table` reads.
#![tactic(auto)]

#[cfg(test)]
mod files;
#[cfg(test)]
mod keepers;
#[cfg(test)]
mod place;
#[cfg(test)]
mod streams;
#[cfg(test)]
mod table;
