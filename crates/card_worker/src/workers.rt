//! Workers: each claims cards and writes them.
ghost use Rattle.std.specs.Prelude.{ℕ};
ghost use Rattle.turn_lock.specs.Seat.{number_of};
ghost use Rattle.checkout_book.specs.declared.plan.BookPlan.{BookPlan};
ghost use Rattle.checkout_book.specs.Sights.{sight};
ghost use Rattle.card_worker.specs.Working.{IsReady, Idled};

use crate::few::Few;
use crate::hand::{Gathering, Hand};
use checkout_book::book::{Book, Pass};
use edge_kit::{Blob, Gate, Leaf};
use std::sync::Wait;
use std::thread::Threads;

/// Claims cards, writes each and closes it, again and again until no card waits. It claims up to 32 and reads them.
/// While it finds their SHA-1 side by side, as many more are read, if there is much to hash. Then it writes and closes
/// the first ones. The gate is called outside the lock, after a card was claimed and after it was closed.
pub fn work<B: Blob + Send, L: Leaf + Send, G: Gate, H: Threads + Wait>(
    rt: &H,
    gathering: Gathering,
    book: &Book<B, L>,
    gate: &G,
    pass: Pass<B, L>,
) -> Pass<B, L>
    requires { (d : BookPlan B L) × (made : ℕ)
        × IsReady (sight B.told B.seen L.seen) book.now d (number_of pass) made pass }
    ensures { (d : BookPlan B L) (made : ℕ)
        → IsReady (sight B.told B.seen L.seen) book.now d (number_of pass) made pass
        → Idled (sight B.told B.seen L.seen) book.now d (number_of pass) made pass result }
{
    let mut hand = Hand {
        pass,
        cards: Few::with_room(gathering.alloc),
        next: Few::with_room(gathering.alloc),
    };
    'turns: for _ in rt.forever() {
        if !hand.take_turn(rt, gathering, book, gate) {
            return hand.into_pass();
        }
    }
    unreachable!()
}
