//! Line ends of the worktree (gitattributes(5), "End-of-line conversion").
#![tactic(auto)]

mod action;
mod content;
mod looks;
mod setting;
mod windows;

pub use action::{Action, action_of, line_ends_of};
pub use content::{changes_ends, to_tree_ends};
pub use setting::{AutoCrlf, EolSetting, LineEnds};
