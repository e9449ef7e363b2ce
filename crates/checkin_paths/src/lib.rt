//! The paths of an index, looked at in a worktree, and the objects of the changed ones kept.
#![tactic(auto)]

mod cleaned_file;
mod fate;
mod files;
mod found_file;
mod keep;
mod kept_paths;
mod laws;
mod look;
mod memory_files;
mod memory_keep;
mod path;
mod paths;
mod paths_read;
mod ways;

pub use fate::{CheckinCause, Fate};
pub use files::Files;
pub use keep::Keep;
pub use kept_paths::check_and_leave;
pub use laws::path_comes_back;
pub use memory_files::MemoryFiles;
pub use memory_keep::MemoryKeep;
pub use path::{CheckinPath, PathDriver, Storing, Way};
pub use paths_read::{PathsRead, read_paths};
