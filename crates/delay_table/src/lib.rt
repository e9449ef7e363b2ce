//! Which of a driver's paths are delayed, which it has listed, and which are done.
//!
//! gitattributes(5) lets a filter delay a path and list it later, when its content can be asked for again. A table has
//! a place for each name, in order of the names.
#![tactic(auto)]

mod order;
mod place;
mod search;
mod table;

pub use place::Place;
pub use table::DelayTable;
