//! What a whole turn does to a seat, and what holds of the seats of a lock, one by one.
ghost use Rattle.std.specs.Prelude.{◌≡◌, ◌+◌, ℕ, List, Some, length, slice_get};
ghost use Rattle.atomic_table.specs.Seated.{TableId};
ghost use Rattle.turn_lock.specs.Seat.{SeatView, number_of, turns_of, entered};
ghost use Rattle.turn_lock.specs.Seats.{IsSeat, AreSeats, Within};

use crate::kept::Kept;

/// A seat that entered is still a seat of its lock, with its number and its data. When it has left, it is out again and
/// has seen the history that it left. Its own entries are those of its number in that history, and it took one turn
/// more.
pub fn a_turn_keeps_a_seat<T: Kept>()
    ensures { (lock : TableId) (d : T.Told) (number made : ℕ) (found : List (ℕ × T.Entry))
        (s t : SeatView T.Entry T.Told) → IsSeat lock d number made s → t ≡ entered found s
        → Within d number made (turns_of s + 1) found lock t }
{}

/// Each of a lock's seats has its place in the list as its number.
pub fn each_seat_has_its_place<T: Kept>()
    ensures { (lock : TableId) (d : T.Told) (made : ℕ) (all : List (SeatView T.Entry T.Told))
        (i : ℕ) (s : SeatView T.Entry T.Told) → AreSeats lock d 0 made all → slice_get all i ≡ Some s
        → (m : ℕ) × (number_of s ≡ i) × IsSeat lock d i m s }
{}

/// Seats that stay seats of their lock, each with its number, are again all its seats.
pub fn seats_that_stay_are_all_again<T: Kept>()
    ensures { (lock : TableId) (d : T.Told) (made : ℕ) (before after : List (SeatView T.Entry T.Told))
        → length after ≡ length before → AreSeats lock d 0 made before
        → ((i : ℕ) (s t : SeatView T.Entry T.Told) → slice_get before i ≡ Some s
        → slice_get after i ≡ Some t → (m : ℕ) → IsSeat lock d (number_of s) m s
        → IsSeat lock d (number_of s) m t)
        → AreSeats lock d 0 made after }
{}
