// What lies under the lock.
use crate::plan::{BookPlan, HistoryEntry};
use crate::waiting::Waiting;
use checkout_core::{Event, Start, State};
use convert_plan::Card;
use edge_kit::{Blob, Leaf};
use std::snapshot::Snapshot;
use turn_lock::{Kept, TurnLock, TurnSeat};

/// Where the card of a path is.
#[derive(Drop)]
pub enum Slot<B: Blob, L: Leaf> {
    /// With an actor, or there is none.
    Away,
    Waits(Card<B, L>),
    Ended(B, L),
}

/// The state of the core, its history, and the cards that no actor has. `P`, `Q` and `R` keep the cards and the starts
/// for contracts alone: with a snapshot as a field, no proof of `Send` is written.
#[derive(Drop)]
pub struct Rack<B: Blob, L: Leaf, P, Q, R> {
    pub(crate) core: State,
    pub(crate) events: Vec<Event>,
    /// One for each path.
    pub(crate) slots: Vec<Slot<B, L>>,
    pub(crate) waiting: Waiting,
    /// Empty, with room for the blob and the leaf of each path.
    pub(crate) parts: Vec<(B, L)>,
    pub(crate) workers: u32,
    pub(crate) drivers: u32,
    pub(crate) pool: P,
    pub(crate) desks: R,
    pub(crate) starts: Q,
}

pub type Shelf<B: Blob, L: Leaf> = Rack<
    B,
    L,
    Snapshot<Vec<Card<B, L>>>,
    Snapshot<Vec<Start>>,
    Snapshot<Vec<Vec<Card<B, L>>>>,
>;

impl<B: Blob, L: Leaf> Kept for Shelf<B, L> {
    ghost use Rattle.std.specs.Prelude.{◌≡◌};
    ghost use Rattle.checkout_book.specs.Entries.{history_of};
    ghost use Rattle.checkout_book.specs.Shelves.{plan_of, IsSound, HasRoom};
    ghost use Rattle.checkout_book.specs.Sights.{sight, tell};

    type Entry = HistoryEntry;

    type Told = BookPlan<B, L>;

    ghost history = { λ s. history_of (tell (sight B.told B.seen L.seen)) s };

    ghost told = { λ s. plan_of s };

    ghost fits = { λ s d. (plan_of s ≡ d) × IsSound (sight B.told B.seen L.seen) s × HasRoom s };
}

fn crosses<X: Send>() {}

fn is_shared<X: Sync>() {}

// Passes move to threads of their own, which share the book.
fn threads_take_it<B: Blob + Send, L: Leaf + Send>() {
    crosses::<Vec<TurnSeat<Shelf<B, L>>>>();
    crosses::<Shelf<B, L>>();
    is_shared::<TurnLock<Shelf<B, L>>>();
}
