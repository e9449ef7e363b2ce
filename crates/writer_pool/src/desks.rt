//! The desks of a pool, made of their seeds before anything is started.
ghost use Rattle.std.specs.Prelude.{◌≡◌, ◌≤◌, ◌++◌, ◌∷◌, [], Some, None, IfOk, OnOk, length, map};
ghost use Rattle.checkout_book.specs.Sights.{sight};
ghost use Rattle.writer_pool.specs.Dealing.{AreDecks, desk_jobs, head_of};

use crate::jobs::{ActorJob, DeskJob, Job};
use crate::pooled::DeskSeed;
use checkout_book::reserved_cards::DeskPass;
use convert_plan::Card;
use driver_desk::Desk;
use edge_kit::{Blob, Leaf, Starter};
use std::alloc::{AllocError, Global};

/// What starts a driver.
#[derive(Drop)]
pub(crate) struct DeskHead<S> {
    /// Whether the driver is required.
    pub required: bool,
    pub starter: S,
}

/// Adds a value to each of two vectors.
fn add_both<H: Drop, C: Drop>(
    heads: &mut Vec<H>,
    cards: &mut Vec<C>,
    head: H,
    card: C,
) -> Result<(), AllocError>
    ensures heads { OnOk result (heads.new.items ≡ heads.old.items ++ head ∷ []) }
    ensures cards { OnOk result (cards.new.items ≡ cards.old.items ++ card ∷ []) }
{
    heads.push(head)?;
    cards.push(card)?;
    Ok(())
}

/// Seeds without their cards, and the cards, which the book deals.
pub(crate) fn take_apart<S: Starter, B: Blob, L: Leaf>(
    alloc: Global,
    seeds: Vec<DeskSeed<S, B, L>>,
) -> Result<(Vec<DeskHead<S>>, Vec<Vec<Card<B, L>>>), AllocError>
    ensures heads { IfOk result (λ r. r.0.items ≡ map (λ x. head_of x) seeds.items) }
    ensures cards { IfOk result (λ r. r.1.items ≡ map (λ x. x.cards) seeds.items) }
{
    let mut heads = Vec::new(alloc);
    let mut decks = Vec::new(alloc);
    for seed in seeds {
        let DeskSeed {
            required,
            starter,
            cards,
        } = seed;
        add_both(
            &mut heads,
            &mut decks,
            DeskHead { required, starter },
            cards,
        )?;
    }
    Ok((heads, decks))
}

/// The jobs of workers with these passes.
pub(crate) fn worker_jobs<P: Drop, D: Drop>(
    alloc: Global,
    passes: Vec<P>,
) -> Result<Vec<Job<P, D>>, AllocError>
    ensures { IfOk result (λ v. v.items ≡ map (λ p. record { pass = p; desk = None }) passes.items) }
{
    let mut jobs = Vec::with_capacity(alloc, passes.len())?;
    for pass in passes {
        jobs.push(Job { pass, desk: None })?;
    }
    Ok(jobs)
}

/// Adds the job of a desk.
fn add_job<P: Drop, D: Drop>(
    jobs: &mut Vec<Job<P, DeskJob<D>>>,
    pass: P,
    required: bool,
    desk: D,
) -> Result<(), AllocError>
    ensures { OnOk result (jobs.new.items ≡ jobs.old.items
        ++ record { pass = pass; desk = Some (record { required = required; desk = desk }) } ∷ []) }
{
    let desk = Some(DeskJob { required, desk });
    jobs.push(Job { pass, desk })?;
    Ok(())
}

/// These jobs, and then those of the desks. Each desk is made of what starts its driver and of its dealt cards.
pub(crate) fn with_desks<S: Starter, B: Blob, L: Leaf>(
    alloc: Global,
    mut jobs: Vec<ActorJob<S, B, L>>,
    heads: Vec<DeskHead<S>>,
    dealt: Vec<DeskPass<B, L>>,
    workers: u32,
) -> Result<Vec<ActorJob<S, B, L>>, AllocError>
    requires few_workers { workers ≤ 16 }
    requires few_desks { length dealt.items ≤ 16 }
    requires heads { length heads.items ≡ length dealt.items }
    requires decks { AreDecks (sight B.told B.seen L.seen) (map (λ x. x.1) dealt.items) }
    ensures { IfOk result (λ v. v.items ≡ jobs.items
        ++ desk_jobs S.seen (sight B.told B.seen L.seen) workers 0 heads.items dealt.items) }
{
    let mut heads = heads.into_iter();
    let mut driver = 0;
    for (pass, cards) in dealt {
        let Some(DeskHead { required, starter }) = heads.next() else {
            unreachable!()
        };
        let desk = Desk::make(alloc, workers + driver, driver, required, starter, cards)?;
        add_job(&mut jobs, pass, required, desk)?;
        driver += 1;
    }
    Ok(jobs)
}
