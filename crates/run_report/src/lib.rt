//! The report of a run, whose paths are those of a plan.
#![tactic(auto)]

mod laws;
mod report;

pub use laws::first_rows_are_lines;
pub use report::RunReport;
