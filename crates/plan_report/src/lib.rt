//! The plan of a checkout as rows, which say its text.
#![tactic(auto)]

mod cells;
mod laws;
mod rows;

pub use laws::text_is_plan;
pub use rows::PlanRows;
