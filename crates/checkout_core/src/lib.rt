//! What can happen to the paths of a checkout: a state machine over the events of its actors.
#![tactic(auto)]

mod conditions;
mod cursor;
mod driver;
mod driver_path;
mod effect;
mod event;
mod path;
mod state;
mod steps;
mod verdict;

pub use driver::{DriverState, OpenSession};
pub use effect::{Effect, Sweep};
pub use event::{Event, OpenCause};
pub use path::{Heard, Path, PathState, Start};
pub use state::State;
pub use steps::{Refused, replay, step};
pub use verdict::{FailCause, FilterCause, ObjectKind, Own, SkipCause, Verdict};
