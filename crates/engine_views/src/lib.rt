//! What of the engine's cases is shown: what a run leaves, reports of paths, and commands that run once.
#![tactic(auto)]

mod left;
mod path_reports;
mod single_runs;
mod talks;
mod work;

pub use left::{Left, RunView, Sight, left_of, said};
pub use path_reports::reported;
pub use single_runs::{command_of, host_of, run_of};
