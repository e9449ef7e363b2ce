//! The lines of an attribute file (gitattributes(5)).
#![tactic(auto)]

mod content;
mod file;
mod line;
mod outcome;
mod pairs;
mod reader;
mod state;
mod text;

pub use content::AttrContent;
pub use file::{AttrFile, AttrRow, Pair, Skipped};
pub use reader::read_attributes;
pub use state::AttrState;
