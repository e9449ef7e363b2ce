//! The objects of repositories that real git made, read without git.
//!
//! Each test is in a folder of its own, which a shell fills (`place`). Where git isn't there a test passes without a
//! look.
#![tactic(auto)]

#[cfg(test)]
mod objects;
#[cfg(test)]
mod place;
