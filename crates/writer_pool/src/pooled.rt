//! What a pool is given, and what it leaves.
use checkout_core::{Event, Verdict};
use convert_plan::Card;
use edge_kit::{Blob, Leaf};

/// The cards of a driver's paths, in path order, and what starts the driver.
#[derive(Drop)]
pub struct DeskSeed<S, B: Blob, L: Leaf> {
    /// Whether the driver is required.
    pub required: bool,
    pub starter: S,
    pub cards: Vec<Card<B, L>>,
}

/// What a pool leaves.
#[derive(Drop)]
pub struct Pooled<S, B: Blob, L: Leaf> {
    /// The events of all actors, in the order in which they happened.
    pub history: Vec<Event>,
    /// The verdict of each path.
    pub verdicts: Vec<Verdict>,
    /// The leaves of all cards, in path order.
    pub leaves: Vec<L>,
    /// Their blobs, in the same order.
    pub blobs: Vec<B>,
    /// The starter of each driver, with its sessions.
    pub starters: Vec<S>,
    /// What was noted of each driver's talk, in order.
    pub talks: Vec<Vec<Event>>,
}
