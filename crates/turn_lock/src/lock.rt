ghost use Rattle.std.specs.Prelude.{◌≡◌, ◌≤◌, ◌<◌, ℕ, [], Some, IfOk, length, slice_get};
ghost use Rattle.std.specs.List.{All};
ghost use Rattle.turn_lock.specs.History.{own, Begins, Follows};
ghost use Rattle.turn_lock.specs.Seat.{SeatView, place_of, told_of, seen_of, mine_of, number_of};
ghost use Rattle.turn_lock.specs.Rule.{newcomer};
ghost use Rattle.turn_lock.specs.Seat.{entered, left, made_of, raised};
ghost use Rattle.turn_lock.specs.Seats.{AreSeats};
ghost use Rattle.turn_lock.specs.declared.view.SeatPlace.TheVariants.{Out, Inside};

use crate::kept::Kept;
use crate::rule::Law;
use crate::seat::TurnSeat;
use crate::steps::RawSeat;
use crate::view::Knows;
use atomic_table::Table;
use std::alloc::{AllocError, Global};
use std::marker::Model;
use std::snapshot::Snapshot;
use std::sync::Wait;

/// A value with a history, and the turns of its seats. A contract sees the lock's identity, which its seats have too.
#[derive(Drop)]
pub struct TurnLock<T: Kept + Drop> {
    pub(crate) table: Table<Option<T>, Knows<T::Entry, T::Told>, Snapshot<T>, Law, Global>,
}

impl<T: Kept + Drop> Model for TurnLock<T> {
    ghost use Rattle.atomic_table.specs.Seated.{TableId};
    ghost use Rattle.turn_lock.specs.Seat.{IsSmall};

    ghost Value = { TableId };

    ghost view = { λ s. s.table.shared.table_id };

    ghost invariant = { λ s. IsSmall s.table.shared.table_id };
}

/// The value, for one turn.
pub struct Turn<T> {
    pub value: T,
}

impl<T: Kept + Drop> TurnLock<T> {
    /// A lock with its seats, in order of number. It fixes the data that the value tells.
    pub fn make(
        alloc: Global,
        value: T,
        seats: u32,
    ) -> Result<(TurnLock<T>, Vec<TurnSeat<T>>), AllocError>
        requires some { 1 ≤ seats }
        requires empty { T.history value ≡ [] }
        requires fits { T.fits value (T.told value) }
        ensures count { IfOk result (λ r. length r.1.items ≡ seats) }
        ensures seats { IfOk result (λ r.
            AreSeats r.0 (T.told value) 0 seats r.1.items) }
        ensures unseen { IfOk result (λ r. All (λ s. seen_of s ≡ []) r.1.items) }
    {
        let mut all = Vec::with_capacity(alloc, seats as usize)?;
        let (lock, mut first) = TurnLock::open(alloc, value)?;
        for number in 1..seats {
            let seat = lock.split(&mut first);
            all.push_reserved(TurnSeat { seat, number });
        }
        all.insert(
            0,
            TurnSeat {
                seat: first,
                number: 0,
            },
        )?;
        Ok((lock, all))
    }

    /// Waits for the seat's turn, and gives the value. The seat's own entries are those that it made. What it saw at
    /// its last turn is a first part of the history that it finds.
    pub fn enter<H: Wait>(&self, rt: &H, seat: &mut TurnSeat<T>) -> Turn<T>
        requires of { (seat.old).lock ≡ self.now }
        requires out { place_of seat.old ≡ Out }
        ensures inside { seat.new ≡ entered (T.history result.value) seat.old }
        ensures fits { (d : _) → told_of seat.old ≡ Some d → T.fits result.value d }
        ensures begins { Begins (seen_of seat.old) (T.history result.value) }
        ensures mine { mine_of seat.old ≡ own (number_of seat.old) (T.history result.value) }
    {
        self.take_turn(rt, &mut seat.seat)
    }

    /// Puts the value back, and passes the turn on. The history is the one that was found, or it has one entry more,
    /// which is this seat's.
    pub fn leave(&self, seat: &mut TurnSeat<T>, turn: Turn<T>)
        requires of { (seat.old).lock ≡ self.now }
        requires inside { (found : _) × (place_of seat.old ≡ Inside found)
            × Follows (number_of seat.old) found (T.history turn.value) }
        requires fits { (d : _) × (told_of seat.old ≡ Some d) × T.fits turn.value d }
        ensures { seat.new ≡ left (T.history turn.value) seat.old }
    {
        self.give_turn(&mut seat.seat, turn);
    }

    /// A seat with no entry, into which the others can be joined.
    fn gatherer(&self, first: &mut TurnSeat<T>) -> RawSeat<T>
        requires of { (first.old).lock ≡ self.now }
        requires out { place_of first.old ≡ Out }
        requires makes { 0 < made_of first.old }
        ensures of { result.table_id ≡ self.now }
        ensures first { first.new ≡ raised first.old }
        ensures result { result.me ≡ (newcomer first.old.known, []) }
    {
        self.split(&mut first.seat)
    }

    /// The value at the end, from all its seats. What each seat saw is a first part of the history. Its own entries are
    /// those of its number in the history, and nobody else has an entry.
    pub fn end(self, mut seats: Vec<TurnSeat<T>>) -> T
        requires all { (d : T.Told) × (0 < length seats.items)
            × AreSeats self d 0 (length seats.items) seats.items }
        ensures fits { (d : T.Told) → AreSeats self d 0 (length seats.items) seats.items
            → T.fits result d }
        ensures seen { (i : ℕ) (s : SeatView T.Entry T.Told) → slice_get seats.items i ≡ Some s
            → Begins (seen_of s) (T.history result) }
        ensures mine { (i : ℕ) (s : SeatView T.Entry T.Told) → slice_get seats.items i ≡ Some s
            → own i (T.history result) ≡ mine_of s }
        ensures none { (k : ℕ) → length seats.items ≤ k → own k (T.history result) ≡ [] }
    {
        let mut all = self.gatherer(&mut seats[0]);
        while let Some(seat) = seats.pop() {
            let TurnSeat { seat, number: _ } = seat;
            self.join(&mut all, seat);
        }
        self.close(all)
    }
}
