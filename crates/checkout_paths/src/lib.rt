//! The paths of a plan, written by workers and by desks.
#![tactic(auto)]

mod cards;
mod dealt;
mod given_back;
mod laws;
mod paths;
mod work;
mod workers;

pub use cards::{count_of, starts_of};
pub use laws::drivers_are_in_use;
pub use paths::{PathsDone, check_out_paths};
pub use work::{Means, PlannedWork};
pub use workers::{Pace, workers_for};
