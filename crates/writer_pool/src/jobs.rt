//! The actors of a pool, each in a thread of its own.
ghost use Rattle.std.specs.Prelude.{ℕ, IfOk};
ghost use Rattle.turn_lock.specs.Seat.{number_of};
ghost use Rattle.checkout_book.specs.declared.plan.BookPlan.{BookPlan};
ghost use Rattle.checkout_book.specs.Sights.{sight};
ghost use Rattle.writer_pool.specs.Jobs.{IsJob, AreJobs, IsThroughJob, AreThroughJobs};

use crate::desk_actor::{DeskEnd, serve_desk};
use card_worker::{Gathering, work};
use checkout_book::book::{Book, Pass};
use driver_desk::{Desk, Served};
use edge_kit::{Blob, Gate, Leaf, Starter};
use std::alloc::AllocError;
use std::sync::Wait;
use std::thread;
use std::thread::Threads;

/// A desk.
#[derive(Drop)]
pub(crate) struct DeskJob<D> {
    /// Whether its driver is required.
    pub required: bool,
    pub desk: D,
}

/// What an actor begins with. A worker has no desk. Jobs cross to threads, so their parts are parameters: with the
/// desk's own type as a field, no proof of `Send` is written.
#[derive(Drop)]
pub(crate) struct Job<P, D> {
    pub pass: P,
    pub desk: Option<D>,
}

/// What an actor leaves: its pass, and what is left of its desk.
#[derive(Drop)]
pub(crate) struct JobEnd<P, D> {
    pub pass: P,
    pub served: Option<D>,
}

pub(crate) type ActorJob<S: Starter, B: Blob, L: Leaf> = Job<Pass<B, L>, DeskJob<Desk<S, B, L>>>;

pub(crate) type ActorEnd<S: Starter, B: Blob, L: Leaf> = JobEnd<Pass<B, L>, Served<S>>;

/// Does an actor's job: a desk serves its cards, and then each actor works until no card waits.
fn act<S: Starter, B: Blob + Send, L: Leaf + Send, G: Gate, H: Threads + Wait>(
    rt: &H,
    gathering: Gathering,
    book: &Book<B, L>,
    gate: &G,
    job: ActorJob<S, B, L>,
) -> ActorEnd<S, B, L>
    requires { (d : BookPlan B L) × (made : ℕ)
        × IsJob (sight B.told B.seen L.seen) book.now d (number_of job.pass) made job }
    ensures { (d : BookPlan B L) (made : ℕ)
        → IsJob (sight B.told B.seen L.seen) book.now d (number_of job.pass) made job
        → IsThroughJob S.seen (sight B.told B.seen L.seen) book.now d (number_of job.pass) made job result }
{
    let Job { pass, desk } = job;
    match desk {
        Some(job) => {
            let DeskEnd { pass, served } = serve_desk(rt, book, gate, job, pass);
            JobEnd {
                pass: work(rt, gathering, book, gate, pass),
                served: Some(served),
            }
        }
        None => JobEnd {
            pass: work(rt, gathering, book, gate, pass),
            served: None,
        },
    }
}

/// All actors, each in a thread of its own. Where no thread can be made they act one after another.
pub(crate) fn act_all<
    S: Starter + Send,
    B: Blob + Send,
    L: Leaf + Send,
    G: Gate,
    H: Threads + Wait + Sync,
>(
    rt: &H,
    gathering: Gathering,
    book: &Book<B, L>,
    gate: &G,
    jobs: Vec<ActorJob<S, B, L>>,
) -> Result<Vec<ActorEnd<S, B, L>>, AllocError>
    requires { (d : BookPlan B L) × (made : ℕ)
        × AreJobs (sight B.told B.seen L.seen) book.now d 0 made jobs.items }
    ensures { IfOk result (λ v. (d : BookPlan B L) (made : ℕ)
        → AreJobs (sight B.told B.seen L.seen) book.now d 0 made jobs.items
        → AreThroughJobs S.seen (sight B.told B.seen L.seen) book.now d 0 made jobs.items v.items) }
{
    thread::map_vec(
        rt,
        jobs,
        &|job: ActorJob<S, B, L>| -> ActorEnd<S, B, L>
            requires { (d : BookPlan B L) × (made : ℕ)
                × IsJob (sight B.told B.seen L.seen) book.now d (number_of job.pass) made job }
            ensures { (d : BookPlan B L) (made : ℕ)
                → IsJob (sight B.told B.seen L.seen) book.entry.now d (number_of job.pass) made job
                → IsThroughJob S.seen (sight B.told B.seen L.seen) book.entry.now d (number_of job.pass) made job
                result }
        { act(rt, gathering, book, gate, job) },
    )
}
