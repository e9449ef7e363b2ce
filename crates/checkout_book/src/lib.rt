//! The cards of a checkout under a lock, with the one history of its actors.
#![tactic(auto)]

pub mod book;
pub mod ended;
pub mod laws;
pub mod plan;
pub mod reserved_cards;
pub mod shelf;
mod turns;
mod waiting;
