//! The outside of a checkout as the system has it: a Git folder, a worktree's folder, the child processes of filter
//! drivers, and an output. They tell nothing of what they hold, and each counts its faults. What an adapter of another
//! crate needs of files, folders and paths is here too.
#![tactic(auto)]

mod file_leaf;
mod folder_look;
mod folder_repo;
mod folder_tree;
mod folders;
mod front;
mod given_up;
mod leaf_place;
mod links;
mod output_sink;
mod past;
mod paths;
mod patient;
mod process_link;
mod process_once;
mod process_spawner;
mod process_starter;
mod shell;
mod standard_files;
mod whole_file;
mod whole_write;
mod write_errors;

pub use file_leaf::FileLeaf;
pub use folder_look::holds_nothing;
pub use folder_repo::{FolderBlob, FolderRepo};
pub use folder_tree::FolderTree;
pub use folders::{
    create_in_tree, create_new, empty_file, folder_in_tree, link_in_tree, remove_own,
};
pub use leaf_place::LeafPlace;
pub use links::link_text;
pub use output_sink::OutputSink;
pub use past::Past;
pub use paths::path_in;
pub use process_link::ProcessLink;
pub use process_once::{ProcessOnce, ProcessOnceMaker};
pub use process_spawner::{DriverPlace, ProcessSpawner};
pub use process_starter::{ProcessStarter, ReturnedDriver};
pub use standard_files::hold_standard;
pub use whole_file::read_whole;
pub use whole_write::write_whole;
pub use write_errors::{ErrorCount, WriteErrors};
