//! The patterns of attribute files, and the paths that they match: gitattributes(5) and gitignore(5).
#![tactic(auto)]

mod classes;
mod compiled;
mod front;
mod matching;
mod part;
mod sets;

pub use compiled::Compiled;
pub use matching::{last_part, matches};
