//! A repository and filter drivers in memory, made from two numbers, on which a checkout can be tried.
#![tactic(auto)]

mod answers;
mod files;
mod order;
mod paths;
mod rehearsed;
mod scripts;

pub use rehearsed::{
    Rehearsed, attributes_are_right, blocks_are_alike, files_have_an_index, rehearse,
};
