//! The uses of the lock's table, one for each call.
// The steps of a seat, each over what the table's seat knows. The lock's own calls are built on these.
ghost use Rattle.std.specs.Prelude.{◌≡◌, ◌<◌, [], IfOk};
ghost use Rattle.turn_lock.specs.History.{own, Begins, Follows};
ghost use Rattle.turn_lock.specs.Rule.{IsOut, IsIn, Covers, Closes};
ghost use Rattle.turn_lock.specs.Rule.{entering, leaving, opened, risen, new_seat, with_other};
ghost use Rattle.turn_lock.specs.declared.view.View.{View};

use crate::kept::Kept;
use crate::lock::{Turn, TurnLock};
use crate::rule::{Cut, Gather, Leave, Try};
use crate::view::Knows;
use atomic_table::{Refused, Seat, Table};
use crossbeam_utils::Backoff;
use std::alloc::{AllocError, Global};
use std::snapshot::Snapshot;
use std::sync::Wait;

pub(crate) type RawSeat<T> = Seat<Option<T>, Knows<<T as Kept>::Entry, <T as Kept>::Told>>;

impl<T: Kept + Drop> TurnLock<T> {
    /// A lock, with its first seat.
    pub(crate) fn open(alloc: Global, value: T) -> Result<(TurnLock<T>, RawSeat<T>), AllocError>
        requires empty { T.history value ≡ [] }
        requires fits { T.fits value (T.told value) }
        ensures of { IfOk result (λ r. r.1.table_id ≡ r.0) }
        ensures seat { IfOk result (λ r. r.1.me ≡ (opened (T.told value), [])) }
    {
        let told = Snapshot::of(&value);
        let mut slots = Vec::with_capacity(alloc, 1)?;
        slots.push_reserved(Some(value));
        match Table::new(alloc, &[0], slots, &told) {
            Ok((table, seat)) => Ok((TurnLock { table }, seat)),
            Err(Refused { slots: _ }) => Err(AllocError),
        }
    }

    /// A new seat, with the next number.
    pub(crate) fn split(&self, seat: &mut RawSeat<T>) -> RawSeat<T>
        requires of { seat.old.table_id ≡ self.now }
        requires out { (v : View T.Entry T.Told) × IsOut seat.old.me v × (0 < v.made) }
        ensures of { (seat.new.table_id ≡ seat.old.table_id) × (result.table_id ≡ seat.old.table_id) }
        ensures seats { (v : View T.Entry T.Told) → IsOut seat.old.me v
            → IsOut seat.new.me (risen v) × IsOut result.me (new_seat v) }
    {
        self.table.shared.split_seat::<Cut>(seat)
    }

    /// Joins another seat into this one.
    pub(crate) fn join(&self, seat: &mut RawSeat<T>, other: RawSeat<T>)
        requires of { (seat.old.table_id ≡ self.now)
            × (other.table_id ≡ self.now) }
        requires out { (v : View T.Entry T.Told) × (w : View T.Entry T.Told)
            × IsOut seat.old.me v × IsOut other.me w }
        ensures of { seat.new.table_id ≡ seat.old.table_id }
        ensures seat { (v : View T.Entry T.Told) (w : View T.Entry T.Told) → IsOut seat.old.me v
            → IsOut other.me w → IsOut seat.new.me (with_other v w) }
    {
        self.table.shared.join_seat::<Gather>(seat, other);
    }

    /// The value, at the end, from a seat into which all others were joined.
    pub(crate) fn close(self, seat: RawSeat<T>) -> T
        requires of { seat.table_id ≡ self }
        requires all { (v : View T.Entry T.Told) × IsOut seat.me v × Covers v }
        ensures { (v : View T.Entry T.Told) → IsOut seat.me v → Covers v → Closes T.history T.fits v result }
    {
        let TurnLock { table } = self;
        let mut closed = table.close_with(seat);
        let value = closed.take(0).unwrap();
        closed.free();
        value
    }

    /// Waits for the seat's turn, and takes the value.
    pub(crate) fn take_turn<H: Wait>(&self, rt: &H, seat: &mut RawSeat<T>) -> Turn<T>
        requires of { seat.old.table_id ≡ self.now }
        requires out { (v : View T.Entry T.Told) × IsOut seat.old.me v }
        ensures of { seat.new.table_id ≡ seat.old.table_id }
        ensures turn { (v : View T.Entry T.Told) → IsOut seat.old.me v
            → IsIn seat.new.me (entering (T.history result.value) v) (T.history result.value)
            × T.fits result.value v.told × Begins v.seen (T.history result.value)
            × (v.mine ≡ own v.number (T.history result.value)) }
    {
        let shared = &self.table.shared;
        let backoff = Backoff::new();
        for _ in rt.forever() {
            let found = shared.compare_exchange::<Try>(seat, 0, 0, 1);
            if found == 0 {
                let value = shared.exchange(seat, 0, None).unwrap();
                return Turn { value };
            }
            backoff.snooze();
        }
        unreachable!()
    }

    /// Puts the value back, and passes the turn on.
    pub(crate) fn give_turn(&self, seat: &mut RawSeat<T>, turn: Turn<T>)
        requires of { seat.old.table_id ≡ self.now }
        requires inside { (v : View T.Entry T.Told) × (found : _) × IsIn seat.old.me v found
            × T.fits turn.value v.told × Follows v.number found (T.history turn.value) }
        ensures of { seat.new.table_id ≡ seat.old.table_id }
        ensures out { (v : View T.Entry T.Told) (found : _) → IsIn seat.old.me v found
            → IsOut seat.new.me (leaving (T.history turn.value) v) }
    {
        let Turn { value } = turn;
        let shared = &self.table.shared;
        drop(shared.exchange(seat, 0, Some(value)));
        shared.store::<Leave>(seat, 0, 0);
    }
}
