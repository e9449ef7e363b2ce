//! The commits and trees of a repository, and the index of a tree, which is read here.
//!
//! Each object is checked against its name. What gives the stored objects is the caller's.
#![tactic(auto)]

mod object_lack;
mod stored_objects;
mod tree_index;
mod tree_objects;

pub use stored_objects::StoredObjects;
pub use tree_index::{TreeIndex, index_of};
pub use tree_objects::root_tree;
