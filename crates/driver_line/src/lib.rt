//! A driver's line: what starts the driver, and the session that is open, if one is.
//!
//! Each call is one exchange, or the start of a session. A session that is over is ended at once, so there is none, or
//! one that can be asked.
#![tactic(auto)]

mod laws;
mod line;

pub use laws::{
    a_path_gets_one_content, a_starter_stays_the_same, counts_tell_the_cause,
    equal_outputs_give_equal_talks, equal_sessions_give_equal_talks, exchanges_are_spelled,
    links_are_given_back, one_part,
};
pub use line::{Line, SessionStart};
