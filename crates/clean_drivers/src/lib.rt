//! The filter drivers of a check-in: each cleans over a line of its own, or by a command that runs once for each
//! content.
//!
//! A driver is started for the first path that it is asked for. At the end each starter is given back. A line has what
//! starts the driver, and the session that is open, if one is. A session is opened for the first path, and again after
//! one that broke. After an abort, and where the driver doesn't announce `clean`, every later path is refused without a
//! question. gitattributes(5), "Long Running Filter Process"
#![tactic(auto)]

mod cause;
mod drivers;
mod laws;
mod line;
mod session_start;
mod single;

pub use cause::{CleanCause, CleanFault};
pub use drivers::{CleanDrivers, Question, clean, give_back};
pub use laws::{equal_sessions_give_equal_answers, turns_are_talks};
pub use line::CleanLine;
