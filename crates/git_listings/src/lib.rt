//! What the cases of formats show of indexes, attribute files and configurations, mostly as git lists them.
#![tactic(auto)]

mod answer;
pub mod attributes;
pub mod configs;
mod index_rows;
pub mod indexes;
pub mod script;
pub mod views;
