//! A pool before its threads start.
ghost use Rattle.std.specs.Prelude.{IfOk};
ghost use Rattle.checkout_book.specs.Sights.{sight};
ghost use Rattle.writer_pool.specs.Jobs.{IsBegun};
ghost use Rattle.writer_pool.specs.Pools.{CanBegin};

use crate::desks::{take_apart, with_desks, worker_jobs};
use crate::jobs::ActorJob;
use crate::pooled::DeskSeed;
use checkout_book::book::Book;
use checkout_book::reserved_cards::{BookBegun, reserve};
use checkout_core::Start;
use convert_plan::Card;
use edge_kit::{Blob, Leaf, Starter};
use std::alloc::{AllocError, Global};

/// Makes the book of a checkout, and a job for each actor: those of the workers, and then those of the desks in order
/// of driver.
pub(crate) fn begin_pool<S: Starter, B: Blob, L: Leaf>(
    alloc: Global,
    pool: Vec<Card<B, L>>,
    desks: Vec<DeskSeed<S, B, L>>,
    starts: Vec<Start>,
    workers: u32,
) -> Result<(Book<B, L>, Vec<ActorJob<S, B, L>>), AllocError>
    requires { CanBegin S.seen (sight B.told B.seen L.seen) starts.items workers pool.items desks.items }
    ensures { IfOk result (λ r. IsBegun S.seen (sight B.told B.seen L.seen) starts.items workers pool.items
        desks.items r.0 r.1.items) }
{
    let (heads, cards) = take_apart(alloc, desks)?;
    let begun = reserve(alloc, pool, cards, starts, workers)?;
    let BookBegun {
        book,
        workers: passes,
        desks: dealt,
    } = begun;
    let jobs = worker_jobs(alloc, passes)?;
    let jobs = with_desks(alloc, jobs, heads, dealt, workers)?;
    Ok((book, jobs))
}
