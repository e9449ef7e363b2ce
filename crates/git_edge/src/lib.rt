//! A repository as git has it: the outside of a checkout straight from a Git folder.
//!
//! Git itself is asked where the files are and for the settings. Objects are read from their files, and a process of
//! git gives those that the files don't. Nothing is told of what they give, and each object counts its faults.
#![tactic(auto)]

mod cat_file;
mod git_blob;
mod git_repo;
mod index_file;
mod index_lock;
mod keeper;
mod lender;
mod lent;
mod new_version;
mod object_pool;
mod object_reader;
mod scratch;
mod unmerged;
mod unread_file;
mod wanted_tree;

pub use git_answers::GitFault;
pub use git_blob::GitBlob;
pub use git_repo::{GitRepo, Guards};
pub use index_lock::IndexLock;
