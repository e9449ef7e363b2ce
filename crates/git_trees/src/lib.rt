//! The tree objects of a repository (gitformat "tree": what `git mktree` writes and `git ls-tree` shows).
#![tactic(auto)]

mod compare;
mod entry;
mod entry_bytes;
mod fault;
mod field;
mod folder;
mod place;
mod source;
mod tree;
mod walk;
mod walk_fault;

pub use entry::{TreeEntry, TreeMode};
pub use fault::{NameKind, TreeFault};
pub use source::TreeSource;
pub use tree::{Tree, one_tree, one_walk, read_tree, tree_has_no_fault};
pub use walk::{leaves_can_stand, read_leaves, stops_end_walks};
pub use walk_fault::{WalkBounds, WalkFault};
