//! Rows of a report, and their spellings: lines, lines that end in NUL, JSON objects, and the lines of failures alone.
#![tactic(auto)]

mod form;
mod laws;
mod line;
mod object;
mod row;
mod rows;

pub use form::{ReportForm, spelled};
pub use laws::{first_rows_are_a_part, fronts_grow};
pub use row::{Cell, CellValue, Count, PathRow, Row};
pub use rows::{Rows, joined_rows, write_rows};
