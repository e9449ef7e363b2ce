//! The report of a checkout.
#![tactic(auto)]

mod cells;
mod laws;
mod report;
mod rows;
mod words;

pub use cells::{mark_value, report_row};
pub use laws::reports_are_rows;
pub use report::{
    ReportPath, failed_count, is_failed, report_text, unfiltered_count, written_count,
};
pub use rows::{Report, done_row};
pub use words::cause_of;
