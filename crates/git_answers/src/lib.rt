//! What git says of a repository: where its parts are, its settings, the attribute files beside it, and what is to be
//! noted of it.
//!
//! Git is asked as a process. It fetches nothing, and runs nothing that the repository names.
#![tactic(auto)]

mod attribute_files;
mod fault;
mod finding;
mod git;
mod listing;
mod notes;
mod placed_setting;
mod sharing;

pub use attribute_files::base_attributes;
pub use fault::GitFault;
pub use finding::{FoundRepository, find, list, tree_by_git};
pub use git::{Answer, Git, copy_of, fault_of};
pub use listing::SettingsList;
pub use notes::{Met, notes_of, place_of, word_of};
pub use placed_setting::refused_setting;
pub use sharing::sharing_of;
