// What a book is made for, and what an entry of its history tells. No value of these types is made.
use checkout_core::{Event, Start};
use convert_plan::Card;
use edge_kit::{Blob, Leaf, LeafState};
use std::collections::LinkedList;

/// What a book is made for.
pub struct BookPlan<B: Blob, L: Leaf> {
    /// The cards that wait at first.
    pub pool: Vec<Card<B, L>>,
    /// The cards of each driver.
    pub desks: Vec<Vec<Card<B, L>>>,
    pub starts: Vec<Start>,
    pub workers: u32,
    pub drivers: u32,
}

/// What the leaf and the blob of a closed card tell. The state of a sealed leaf has its mark.
pub struct Parts {
    pub path: LinkedList<u8>,
    pub content: Option<LinkedList<u8>>,
    pub state: LeafState,
    pub leaf_faults: u64,
    pub name: LinkedList<u8>,
    pub blob_faults: u64,
}

/// An entry of the history.
pub struct HistoryEntry {
    pub event: Event,
    /// There in the entry of a close.
    pub parts: Option<Parts>,
}
