//! What a contract sees of a seat.
// No value of these types is ever made.
use std::collections::LinkedList;

pub enum SeatPlace<E> {
    Out,
    /// With the history that it found.
    Inside(LinkedList<(u64, E)>),
}

/// What a seat had when it was joined into another.
pub struct Old<E> {
    pub number: u64,
    pub seen: LinkedList<(u64, E)>,
    pub mine: LinkedList<E>,
}

pub struct View<E, D> {
    pub number: u64,
    pub place: SeatPlace<E>,
    /// How many turns it took. The one that it is in counts.
    pub turns: u64,
    /// The history at its last turn.
    pub seen: LinkedList<(u64, E)>,
    /// Its own entries.
    pub mine: LinkedList<E>,
    pub told: D,
    /// How many numbers were given, or 0 in a seat that gives none.
    pub made: u64,
    pub olds: LinkedList<Old<E>>,
}

/// A seat that was joined into another is spent.
pub enum Knows<E, D> {
    Spent,
    Seated(View<E, D>),
}
