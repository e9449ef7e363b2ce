// One pass at work.
ghost use Rattle.std.specs.Prelude.{ℕ};
ghost use Rattle.turn_lock.specs.Seat.{number_of};
ghost use Rattle.checkout_book.specs.declared.plan.BookPlan.{BookPlan};
ghost use Rattle.checkout_book.specs.Reserving.{HasNothing};

use crate::marks::{call_begins, call_ends};
use checkout_book::book::{Book, Pass, claim, close};
use checkout_core::Own;
use edge_kit::{Blob, Leaf};
use std::io::Print;
use std::sync::Wait;

/// Claims a card that waits, and closes it at once. Whether one waited is returned.
fn close_one<B: Blob, L: Leaf, H: Print + Wait>(
    rt: &H,
    told: bool,
    book: &Book<B, L>,
    pass: &mut Pass<B, L>,
) -> bool
    requires { (d : BookPlan B L) × (made : ℕ)
        × HasNothing book.now d (number_of pass.old) made pass.old }
    ensures { (d : BookPlan B L) (made : ℕ)
        → HasNothing book.now d (number_of pass.old) made pass.old
        → HasNothing book.now d (number_of pass.old) made pass.new }
{
    core_laws::laws::a_path_in_hand_may_be_closed();
    checkout_book::laws::a_claimed_card_is_out::<B, L>();
    call_begins(rt, told, "claim");
    let Some(card) = claim(rt, book, pass) else {
        call_ends(rt, told);
        return false;
    };
    call_ends(rt, told);
    call_begins(rt, told, "close");
    close(rt, book, pass, card, Own::Fine { unencoded: false });
    call_ends(rt, told);
    true
}

/// Claims each card that waits, and closes it at once, until a claim gets nothing or so many were made.
pub fn work<B: Blob, L: Leaf, H: Print + Wait>(
    rt: &H,
    told: bool,
    book: &Book<B, L>,
    mut pass: Pass<B, L>,
    most: u32,
) -> Pass<B, L>
    requires { (d : BookPlan B L) × (made : ℕ) × HasNothing book.now d (number_of pass) made pass }
    ensures { (d : BookPlan B L) (made : ℕ) → HasNothing book.now d (number_of pass) made pass
        → HasNothing book.now d (number_of pass) made result }
{
    for _turn in 0..most {
        if !close_one(rt, told, book, &mut pass) {
            return pass;
        }
    }
    pass
}
