//! The attributes of a path: which file, row and macro decides each (gitattributes(5)).
#![tactic(auto)]

mod chain;
mod compiled_file;
mod decide;
mod files;
mod folders;
mod laws;
mod linked_macros;
mod macros;
mod noted;
mod open_file;
mod reach;
mod stack;
mod states;

pub use files::{AttrFiles, FileAt, OuterFiles};
pub use laws::pairs_decide_by_rule;
pub use stack::AttrStack;
pub use states::attributes_of;
