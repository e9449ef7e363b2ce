//! What the runs of the engine's cases meet: an index, a repository, drivers, a worktree, a sink and a gate, in memory.
#![tactic(auto)]

mod cases;
mod gate;
mod index;
mod objects;
mod out_of_memory;
mod scripts;
mod stored;
mod world;

pub use cases::{Case, case_of, words_of};
pub use gate::Watch;
pub use index::IndexCase;
pub use out_of_memory::{OutOfMemoryBlob, OutOfMemoryRepo};
pub use scripts::{DriverCase, singles_of};
pub use stored::RepoCase;
pub use world::{World, world_of};
