//! The objects of a Git folder, read from its packs and files (gitformat-pack(5), gitrepository-layout(5)).
//!
//! Nothing is told of what files hold, and an object isn't checked against its name here. A delta is: the content that
//! it gives is the one that its instructions make of the base.
#![tactic(auto)]

mod alternates;
mod bases;
mod delta;
mod entry;
mod fault;
mod index;
mod loose;
mod number;
mod object;
mod objects;
mod open_files;
mod pack;
mod placed_file;
mod shared_object;
mod shelf;
mod windowed_file;

pub use delta::apply_delta;
pub use fault::ObjectsFault;
pub use objects::Objects;
pub use shelf::{PackShelf, USUAL_BASES};
