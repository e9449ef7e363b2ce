//! The numbers in the line of a rehearsal, tied to the verdicts and files that the definitions of a checkout give.
#![tactic(auto)]

mod laws;

pub use laws::{block_lines_are_right, contents_are_apart, lines_are_right, rehearsals_have_plans};
