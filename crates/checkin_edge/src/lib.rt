//! The outside of a check-in as the system has it: the files of a worktree's folder, and what keeps objects and an
//! index beside those of a repository. They tell nothing of what they hold, and each counts its faults.
#![tactic(auto)]

mod file_kind;
mod folder_entry;
mod folder_files;
mod folder_keep;
mod held_entries;
mod looked_files;
mod new_file;
mod raw_index;
mod stored_object;
mod zlib_store;

pub use file_kind::{KeptKinds, OtherKind, PathMode, other_kind_at, with_modes};
pub use folder_files::{FolderFiles, IndexLinks};
pub use folder_keep::{FolderKeep, ObjectForm};
pub use held_entries::HeldEntry;
pub use new_file::replace_file;
pub use raw_index::{RawEntry, RawIndex};
pub use zlib_store::zlib_stored;
