// The turns of a worker, and of the desk of a driver that can't be started.
ghost use Rattle.std.specs.Prelude.{◌≡◌, ℕ};
ghost use Rattle.checkout_book.specs.declared.plan.BookPlan.{BookPlan};
ghost use Rattle.checkout_book.specs.Reserving.{HasNothing};
ghost use Rattle.checkout_book.specs.Shelves.{IsRefused, cards_of};
ghost use Rattle.checkout_book.specs.Sights.{sight};
ghost use Rattle.bench_books.specs.Pairs.{IsFirst};

use crate::marks::{call_begins, call_ends};
use crate::work::work;
use checkout_book::book::{Book, Pass, hand_back, note};
use checkout_core::{Event, OpenCause};
use convert_plan::Card;
use core_laws::laws;
use edge_kit::{Blob, Leaf};
use std::io::Print;
use std::sync::Wait;

/// Notes that the driver of path 1 can't be started, and hands the path's card back.
pub fn give_back<B: Blob, L: Leaf, H: Print + Wait>(
    rt: &H,
    told: bool,
    book: &Book<B, L>,
    mut pass: Pass<B, L>,
    card: Card<B, L>,
) -> Pass<B, L>
    requires first { (d : BookPlan B L) × (made : ℕ) × IsFirst book.now d made pass
        × IsRefused (sight B.told B.seen L.seen) (cards_of d) card }
    requires path { card.path ≡ 1 }
    ensures { (d : BookPlan B L) (made : ℕ) → IsFirst book.now d made pass
        → HasNothing book.now d 1 made result }
{
    laws::what_may_follow_is_a_step();
    checkout_book::laws::a_pass_lists_its_own_entries::<B, L>();
    call_begins(rt, told, "note");
    note(
        rt,
        book,
        &mut pass,
        Event::OpenFailed {
            path: 1,
            cause: OpenCause::NotStarted,
        },
    );
    call_ends(rt, told);
    call_begins(rt, told, "hand_back");
    hand_back(rt, book, &mut pass, card);
    call_ends(rt, told);
    pass
}

/// The worker closes what waits, and gets nothing more. Then the desk hands its card back. Now the worker gets that,
/// and after it the desk gets nothing. Without claims the desk hands its card back, and that is all.
pub fn turns<B: Blob, L: Leaf, H: Print + Wait>(
    rt: &H,
    told: bool,
    book: &Book<B, L>,
    worker: Pass<B, L>,
    desk: Pass<B, L>,
    card: Card<B, L>,
    most: u32,
) -> (Pass<B, L>, Pass<B, L>)
    requires first { (d : BookPlan B L) × (made : ℕ) × HasNothing book.now d 0 made worker
        × IsFirst book.now d 0 desk × IsRefused (sight B.told B.seen L.seen) (cards_of d) card }
    requires path { card.path ≡ 1 }
    ensures { (d : BookPlan B L) (made : ℕ) → HasNothing book.now d 0 made worker
        → IsFirst book.now d 0 desk
        → HasNothing book.now d 0 made result.0 × HasNothing book.now d 1 0 result.1 }
{
    let idle = work(rt, told, book, worker, most);
    let desk = give_back(rt, told, book, desk, card);
    let worker = work(rt, told, book, idle, most);
    let desk = work(rt, told, book, desk, most);
    (worker, desk)
}
