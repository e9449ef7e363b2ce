ghost use Rattle.std.specs.Prelude.{◌≡◌};
ghost use Rattle.turn_lock.specs.Seat.{number_of};

use crate::kept::Kept;
use crate::view::Knows;
use atomic_table::Seat;
use std::marker::Model;

/// One of a lock's seats. A contract sees the lock that it belongs to and what it knows: its number, whether it is
/// inside, how many turns it took, the history at its last turn, its own entries in it, and the data that `make` fixed.
#[derive(Drop)]
pub struct TurnSeat<T: Kept> {
    pub(crate) seat: Seat<Option<T>, Knows<T::Entry, T::Told>>,
    pub(crate) number: u32,
}

impl<T: Kept> Model for TurnSeat<T> {
    ghost use Rattle.turn_lock.specs.Seat.{SeatView, Shaped, Numbered};

    ghost Value = { SeatView T.Entry T.Told };

    ghost view = { λ s. record { lock = s.seat.table_id; known = s.seat.me.0 } };

    ghost invariant = { λ s. Shaped s.seat.me × Numbered s.number s.seat.me };
}

impl<T: Kept> TurnSeat<T> {
    /// Its number, from 0.
    pub fn number(&self) -> u32
        ensures { result ≡ number_of self.now }
    {
        self.number
    }
}
