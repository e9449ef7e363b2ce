//! What `siuwbren` does with the repository's own index, and with the folder of its files.
//!
//! It refuses an index that other file systems would let change git's own folder, and a folder that isn't meant. It
//! keeps entries as they are in a check-in, says what a check-in leaves, and updates the index after a checkout or a
//! check-in. Standard error says why something is refused, how a command ended, and what git would do otherwise.
#![tactic(auto)]

mod assumed;
mod channel;
mod checkin_index;
mod ends;
mod error_value;
mod faults;
mod gathered_sink;
mod guarded;
mod kept_notes;
mod kinds;
mod own_index;
mod refusal;
mod update_index;
mod worktree;

pub use assumed::hold_assumed;
pub use channel::{Channel, sink_of};
pub use checkin_index::{
    CheckedIn, IndexMarks, LookedPaths, index_of_checkin, put_beside, put_made,
};
pub use ends::{end_run, end_with, show_notes};
pub use error_value::{show_error, show_error_of};
pub use faults::{refuse_repository, refuse_wish, say};
pub use gathered_sink::GatheredSink;
pub use kept_notes::show_kept;
pub use kinds::take_kinds;
pub use own_index::{MOST_INDEX, allowed_submodules, links_of, refuse_guarded};
pub use refusal::show_refusal;
pub use update_index::{index_lock, put_index, updated_index};
pub use worktree::{refused_tree, tree_of};
