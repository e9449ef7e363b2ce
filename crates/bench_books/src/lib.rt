//! Books, of which the cards are claimed and closed, one after another.
//!
//! Four small books are told with their histories and the verdict of each path: one and three cards with one worker,
//! two cards with a worker and a driver's desk, and two cards that are left for the caller. The calls of the books with
//! a desk stand between two lines each. Of a large book its events are told, and the time it takes.
#![tactic(auto)]

mod books;
mod cards;
mod desk;
mod lists;
pub mod marks;
mod pair;
mod runs;
mod work;

pub use books::{tell_large, tell_small};
