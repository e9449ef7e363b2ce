// Books from their beginning to their end.
ghost use Rattle.std.specs.Prelude.{◌≡◌, ◌+◌, ◌<◌, ◌^◌, ℕ, IfOk, IfSome, length};
ghost use Rattle.convert_plan.specs.Card.{IsNewCard};
ghost use Rattle.checkout_book.specs.declared.plan.BookPlan.{BookPlan};
ghost use Rattle.checkout_book.specs.Ending.{GoesOn};
ghost use Rattle.checkout_book.specs.Reserving.{HasNothing};
ghost use Rattle.checkout_book.specs.Sights.{sight, seen};
ghost use Rattle.bench_books.specs.Pools.{IsPool};

use crate::cards::{NewCards, new_cards, refused_card};
use crate::desk::{give_back, turns};
use crate::lists::{alone, both};
use crate::marks::{call_begins, call_ends};
use crate::pair::{PairBegun, begin_pair};
use crate::work::work;
use checkout_book::book::{Book, Pass};
use checkout_book::ended::Ended;
use checkout_book::reserved_cards::{BookBegun, finish, reserve};
use checkout_core::Own;
use convert_plan::Card;
use edge_kit::{Blob, Leaf, Repo, Worktree};
use std::alloc::{AllocError, Global};
use std::io::Print;
use std::sync::Wait;

/// A book of a pool with one worker, and the worker's pass.
fn begin_pool<B: Blob, L: Leaf>(
    alloc: Global,
    new: NewCards<B, L>,
) -> Result<(Book<B, L>, Pass<B, L>), AllocError>
    requires pool { (count : ℕ) × IsPool (sight B.told B.seen L.seen) count new.starts.items new.cards.items }
    requires few { length new.starts.items < 2 ^ 32 }
    ensures { IfOk result (λ r. (d : BookPlan B L) × HasNothing r.0 d 0 (d.workers + d.drivers) r.1
        × (d.workers + d.drivers ≡ 1)) }
{
    let NewCards { cards, starts } = new;
    let desks = Vec::new(alloc);
    let begun = reserve(alloc, cards, desks, starts, 1)?;
    let BookBegun {
        book,
        mut workers,
        ..
    } = begun;
    let Some(pass) = workers.pop() else {
        unreachable!()
    };
    Ok((book, pass))
}

/// What a book is after its one pass came back.
fn finish_one<B: Blob, L: Leaf>(
    alloc: Global,
    book: Book<B, L>,
    pass: Pass<B, L>,
) -> Result<Ended<B, L>, AllocError>
    requires { (d : BookPlan B L) × HasNothing book d 0 (d.workers + d.drivers) pass
        × (d.workers + d.drivers ≡ 1) }
{
    let done = alone(alloc, pass)?;
    Ok(finish(book, done))
}

/// What a book with so many cards is after one worker closed them all.
pub fn by_one_worker<R: Repo, W: Worktree, H: Print + Wait>(
    rt: &H,
    alloc: Global,
    repo: &mut R,
    tree: &mut W,
    count: u32,
) -> Result<Ended<R::Blob, W::Leaf>, AllocError> {
    let new = new_cards(alloc, repo, tree, count)?;
    let begun = begin_pool(alloc, new)?;
    let (book, pass) = begun;
    let idle = work(rt, false, &book, pass, u32::MAX);
    finish_one(alloc, book, idle)
}

/// What a book is after its two passes came back.
fn finish_both<B: Blob, L: Leaf, H: Print>(
    rt: &H,
    told: bool,
    alloc: Global,
    book: Book<B, L>,
    worker: Pass<B, L>,
    desk: Pass<B, L>,
) -> Result<Ended<B, L>, AllocError>
    requires { (d : BookPlan B L) × HasNothing book d 0 2 worker × HasNothing book d 1 0 desk
        × (d.workers + d.drivers ≡ 2) }
    ensures { IfOk result (λ e. GoesOn (sight B.told B.seen L.seen) e.shelf) }
{
    let done = both(alloc, worker, desk)?;
    call_begins(rt, told, "finish");
    let ended = finish(book, done);
    call_ends(rt, told);
    Ok(ended)
}

/// Closes the next card that waits, as actor 0. Whether one waited is returned.
fn close_next<B: Blob, L: Leaf, H: Print>(rt: &H, told: bool, ended: &mut Ended<B, L>) -> bool
    requires { GoesOn (sight B.told B.seen L.seen) ended.old.shelf }
    ensures { GoesOn (sight B.told B.seen L.seen) ended.new.shelf }
{
    core_laws::laws::a_path_in_hand_may_be_closed();
    checkout_book::laws::a_claimed_card_is_out::<B, L>();
    call_begins(rt, told, "Ended::take_waiting");
    let Some(card) = ended.take_waiting() else {
        call_ends(rt, told);
        return false;
    };
    call_ends(rt, told);
    call_begins(rt, told, "Ended::close");
    ended.close(card, Own::Fine { unencoded: false });
    call_ends(rt, told);
    true
}

/// Closes the cards that still wait, up to so many, as actor 0.
fn close_rest<B: Blob, L: Leaf, H: Print>(
    rt: &H,
    told: bool,
    mut ended: Ended<B, L>,
    most: u32,
) -> Ended<B, L>
    requires { GoesOn (sight B.told B.seen L.seen) ended.shelf }
    ensures { GoesOn (sight B.told B.seen L.seen) result.shelf }
{
    for _card in 0..most {
        if !close_next(rt, told, &mut ended) {
            return ended;
        }
    }
    ended
}

/// What a book is after a worker, the desk of a driver that can't be started, and the caller. Path 0 is for any actor,
/// path 1 is the driver's. An actor claims so many cards in a turn, and the caller so many of those that are left.
/// `None` where the object of path 1 can't be read, or memory runs out.
pub fn by_all<B: Blob, L: Leaf, H: Print + Wait>(
    rt: &H,
    told: bool,
    alloc: Global,
    free: Card<B, L>,
    filtered: Card<B, L>,
    claims: u32,
    left: u32,
) -> Result<Option<Ended<B, L>>, AllocError>
    requires free { free.path ≡ 0 }
    requires filtered { filtered.path ≡ 1 }
    requires free_new { IsNewCard (seen (sight B.told B.seen L.seen) free) }
    requires filtered_new { IsNewCard (seen (sight B.told B.seen L.seen) filtered) }
    ensures { IfOk result (λ o. IfSome o (λ e. GoesOn (sight B.told B.seen L.seen) e.shelf)) }
{
    let begun = begin_pair(alloc, free, filtered)?;
    let PairBegun {
        book,
        worker,
        desk,
        card,
    } = begun;
    let Some(refused) = refused_card(alloc, card) else {
        return Ok(None);
    };
    let (worker, desk) = turns(rt, told, &book, worker, desk, refused, claims);
    let ended = finish_both(rt, told, alloc, book, worker, desk)?;
    Ok(Some(close_rest(rt, told, ended, left)))
}
