// A book with a path for any actor, and a path of a driver.
ghost use Rattle.std.specs.Prelude.{◌≡◌, IfOk};
ghost use Rattle.convert_plan.specs.Card.{IsNewCard};
ghost use Rattle.checkout_book.specs.declared.plan.BookPlan.{BookPlan};
ghost use Rattle.checkout_book.specs.Sights.{sight, seen};
ghost use Rattle.bench_books.specs.Pairs.{two, IsPair, IsBegun, pair_plan};

use crate::lists::apart;
use checkout_book::book::{Book, Pass};
use checkout_book::reserved_cards::{BookBegun, reserve};
use checkout_core::Start;
use convert_plan::Card;
use edge_kit::{Blob, Leaf};
use std::alloc::{AllocError, Global};

/// What a book is reserved for.
pub struct Pair<B: Blob, L: Leaf> {
    pub pool: Vec<Card<B, L>>,
    pub desks: Vec<Vec<Card<B, L>>>,
    pub starts: Vec<Start>,
}

/// A book of a pair, with its passes and the card of its desk.
pub struct PairBegun<B: Blob, L: Leaf> {
    pub book: Book<B, L>,
    pub worker: Pass<B, L>,
    pub desk: Pass<B, L>,
    pub card: Card<B, L>,
}

/// Path 0 is for any actor, and path 1 of a driver that isn't required.
fn two_starts(alloc: Global) -> Result<Vec<Start>, AllocError>
    ensures { IfOk result (λ starts. starts.items ≡ two) }
{
    let desk = Start::Desk {
        driver: 0,
        required: false,
    };
    Vec::from_slice(alloc, &[Start::Pool, desk])
}

/// The first card waits, and the second is of a driver that isn't required.
fn make_pair<B: Blob, L: Leaf>(
    alloc: Global,
    free: Card<B, L>,
    filtered: Card<B, L>,
) -> Result<Pair<B, L>, AllocError>
    requires free { free.path ≡ 0 }
    requires filtered { filtered.path ≡ 1 }
    requires free_new { IsNewCard (seen (sight B.told B.seen L.seen) free) }
    requires filtered_new { IsNewCard (seen (sight B.told B.seen L.seen) filtered) }
    ensures { IfOk result (λ r. IsPair (sight B.told B.seen L.seen) (pair_plan r) free filtered) }
{
    let starts = two_starts(alloc)?;
    let (pool, desks) = apart(alloc, free, filtered)?;
    Ok(Pair {
        pool,
        desks,
        starts,
    })
}

/// A book for two new cards. The first waits, and the second is of a driver that isn't required.
pub fn begin_pair<B: Blob, L: Leaf>(
    alloc: Global,
    free: Card<B, L>,
    filtered: Card<B, L>,
) -> Result<PairBegun<B, L>, AllocError>
    requires free { free.path ≡ 0 }
    requires filtered { filtered.path ≡ 1 }
    requires free_new { IsNewCard (seen (sight B.told B.seen L.seen) free) }
    requires filtered_new { IsNewCard (seen (sight B.told B.seen L.seen) filtered) }
    ensures { IfOk result (λ r. (d : BookPlan B L)
        × IsBegun (sight B.told B.seen L.seen) r.book d r.worker r.desk r.card) }
{
    let cards = make_pair(alloc, free, filtered)?;
    let Pair {
        pool,
        desks,
        starts,
    } = cards;
    let begun = reserve(alloc, pool, desks, starts, 1)?;
    let BookBegun {
        book,
        mut workers,
        mut desks,
    } = begun;
    let Some(worker) = workers.pop() else {
        unreachable!()
    };
    let Some(last) = desks.pop() else {
        unreachable!()
    };
    let (desk, mut own) = last;
    let Some(card) = own.pop() else {
        unreachable!()
    };
    Ok(PairBegun {
        book,
        worker,
        desk,
        card,
    })
}
