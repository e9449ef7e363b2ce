//! A folder that a checkout fills as git does, with plain files, executable ones and links. Nothing is told of what the
//! files hold, and each object counts its faults.
#![tactic(auto)]

mod kinds;
mod leaf;
mod tree;

pub use kinds::{FileKind, Keeps};
pub use leaf::{Driven, GitLeaf};
pub use tree::GitTree;
