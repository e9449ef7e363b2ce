//! The tree cache of an index, its extension `TREE` (gitformat-index(5)): what each folder's tree is, so that git needn't
//! read or write trees.
#![tactic(auto)]

mod cache;
mod extension;
mod folder;
mod line;
mod run;

pub use cache::{TreeCache, cache_of};
pub use extension::with_tree_cache;
