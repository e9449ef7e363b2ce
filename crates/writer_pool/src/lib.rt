//! The actors of a checkout, at once: a desk serves the paths of its driver. Then, as each worker does, it claims cards
//! from the book, writes each as a file and closes it, until no card waits.
#![tactic(auto)]

mod back;
mod begun;
mod desk_actor;
mod desks;
mod jobs;
pub mod laws;
mod on_book;
mod path_ends;
mod pool_end;
mod pooled;
mod run;

pub use pooled::{DeskSeed, Pooled};
pub use run::pool_run;
