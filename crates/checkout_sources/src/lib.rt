//! What a repository holds before its objects: the index, the configuration and the attribute files. Why it is refused,
//! and the line that says so.
#![tactic(auto)]

mod laws;
mod planned;
mod planned_index;
mod refusal;
mod sources;
mod stop;

pub use laws::readings_leave_parts;
pub use planned::{Planned, read_plan};
pub use planned_index::{PlannedIndex, read_planned_index};
pub use refusal::{refusal_line, refusal_words};
pub use sources::{Sources, read_sources};
pub use stop::{Refusal, Stop};
