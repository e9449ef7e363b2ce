// A book at its beginning and at its end.
ghost use Rattle.std.specs.Prelude.{◌≡◌, ◌≤◌, ◌<◌, ◌+◌, ◌*◌, ◌++◌, ◌^◌, [], ℕ, Some, length};
ghost use Rattle.std.specs.Prelude.{slice_get, map, IfOk, vec_capacity};
ghost use Rattle.convert_plan.specs.declared.card.Card.{Card};
ghost use Rattle.checkout_book.specs.declared.plan.BookPlan.{BookPlan};
ghost use Rattle.checkout_book.specs.Shelves.{waits};
ghost use Rattle.checkout_book.specs.Reserving.{aways, placed, AreDealt, AreIdle};
ghost use Rattle.checkout_book.specs.Reserving.{AreFresh, IsFinished, IsPlan, IsBegun, plan_for};
ghost use Rattle.checkout_book.specs.Sights.{sight};

use crate::book::{Book, Pass};
use crate::ended::Ended;
use crate::shelf::{Rack, Slot};
use crate::turns::is_waiting_card;
use crate::waiting::Waiting;
use checkout_core::{Start, State};
use convert_plan::Card;
use core_laws::laws;
use edge_kit::{Blob, Leaf};
use std::alloc::{AllocError, Global};
use std::mem;
use std::snapshot::Snapshot;
use turn_lock::TurnLock;

/// The pass of a desk, and its cards.
pub type DeskPass<B: Blob, L: Leaf> = (Pass<B, L>, Vec<Card<B, L>>);

/// A book as it begins.
#[derive(Drop)]
pub struct BookBegun<B: Blob, L: Leaf> {
    pub book: Book<B, L>,
    pub workers: Vec<Pass<B, L>>,
    /// In order of driver.
    pub desks: Vec<DeskPass<B, L>>,
}

fn all_away<B: Blob, L: Leaf>(alloc: Global, count: usize) -> Result<Vec<Slot<B, L>>, AllocError>
    ensures { IfOk result (λ v. v.items ≡ aways count) }
{
    let mut slots = Vec::with_capacity(alloc, count)?;
    for _at in 0..count {
        slots.push(Slot::Away)?;
    }
    Ok(slots)
}

/// Each card in the slot of its path.
fn place<B: Blob, L: Leaf>(mut slots: Vec<Slot<B, L>>, pool: Vec<Card<B, L>>) -> Vec<Slot<B, L>>
    requires { (k : ℕ) (c : Card B L) → slice_get pool.items k ≡ Some c → c.path < length slots.items }
    ensures { result.items ≡ placed slots.items pool.items }
{
    for card in pool {
        let at = card.path as usize;
        drop(mem::replace(&mut slots[at], Slot::Waits(card)));
    }
    slots
}

/// Whether a card waits, for each slot.
fn flags_of<B: Blob, L: Leaf>(alloc: Global, slots: &[Slot<B, L>]) -> Result<Vec<bool>, AllocError>
    ensures { IfOk result (λ v. v.items ≡ map (λ s. waits s) slots.now) }
{
    slots.iter().map(is_waiting_card).collect(alloc)
}

/// Slots for so many paths, with the pool's cards in them, and which of these wait.
fn lay<B: Blob, L: Leaf>(
    alloc: Global,
    paths: usize,
    pool: Vec<Card<B, L>>,
) -> Result<(Vec<Slot<B, L>>, Waiting), AllocError>
    requires few { paths < 2 ^ 32 }
    requires there { (k : ℕ) (c : Card B L) → slice_get pool.items k ≡ Some c → c.path < paths }
    ensures slots { IfOk result (λ r. r.0.items ≡ placed (aways paths) pool.items) }
    ensures waiting { IfOk result (λ r. r.1 ≡ map (λ s. waits s) r.0.items) }
{
    let slots = all_away(alloc, paths)?;
    let slots = place(slots, pool);
    let flags = flags_of(alloc, slots.as_slice())?;
    let waiting = Waiting::reserve(alloc, flags)?;
    Ok((slots, waiting))
}

/// Room for ten events of each path.
fn events_of<E: Drop>(alloc: Global, paths: usize) -> Result<Vec<E>, AllocError>
    requires { paths < 2 ^ 32 }
    ensures none { IfOk result (λ v. v.items ≡ []) }
    ensures room { IfOk result (λ v. 10 * paths ≤ vec_capacity v) }
{
    Vec::with_capacity(alloc, 10 * paths)
}

/// Room for ten events of each path, and for its parts.
fn rooms<E: Drop, P: Drop>(alloc: Global, paths: usize) -> Result<(Vec<E>, Vec<P>), AllocError>
    requires { paths < 2 ^ 32 }
    ensures no_event { IfOk result (λ r. r.0.items ≡ []) }
    ensures events { IfOk result (λ r. 10 * paths ≤ vec_capacity r.0) }
    ensures no_part { IfOk result (λ r. r.1.items ≡ []) }
    ensures parts { IfOk result (λ r. paths ≤ vec_capacity r.1) }
{
    let events = events_of(alloc, paths)?;
    let parts = Vec::with_capacity(alloc, paths)?;
    Ok((events, parts))
}

/// A book, with its passes in order of number: first those of the workers, then those of the desks.
fn begin<B: Blob, L: Leaf>(
    alloc: Global,
    pool: Vec<Card<B, L>>,
    desks: &Vec<Vec<Card<B, L>>>,
    starts: Vec<Start>,
    workers: u32,
) -> Result<(Book<B, L>, Vec<Pass<B, L>>), AllocError>
    requires { IsPlan (sight B.told B.seen L.seen) (plan_for pool desks.now starts workers) }
    ensures { IfOk result (λ r. IsBegun r.0 (plan_for pool desks.now starts workers) r.1.items) }
{
    let told = Snapshot::of(&pool);
    let begun = Snapshot::of(&starts);
    let kept = Snapshot::of(desks);
    let drivers = desks.len() as u32;
    let paths = starts.len();
    let room = rooms(alloc, paths)?;
    let laid = lay(alloc, paths, pool)?;
    let core = State::start(alloc, starts, workers, drivers)?;
    let (events, parts) = room;
    let (slots, waiting) = laid;
    let value = Rack {
        core,
        events,
        slots,
        waiting,
        parts,
        workers,
        drivers,
        pool: told,
        desks: kept,
        starts: begun,
    };
    TurnLock::make(alloc, value, workers + drivers)
}

/// Each desk's pass with its cards.
fn deal<P: Drop, D: Drop>(
    alloc: Global,
    mut passes: Vec<P>,
    mut desks: Vec<D>,
) -> Result<(Vec<P>, Vec<(P, D)>), AllocError>
    requires { length desks.items ≤ length passes.items }
    ensures count { IfOk result (λ r. length r.0.items + length desks.items ≡ length passes.items) }
    ensures passes { IfOk result (λ r. r.0.items ++ map (λ x. x.0) r.1.items ≡ passes.items) }
    ensures cards { IfOk result (λ r. map (λ x. x.1) r.1.items ≡ desks.items) }
{
    let mut dealt = Vec::with_capacity(alloc, desks.len())?;
    while let Some(cards) = desks.pop() {
        let Some(pass) = passes.pop() else {
            unreachable!()
        };
        dealt.insert(0, (pass, cards))?;
    }
    Ok((passes, dealt))
}

/// A book with the passes of its workers and of its desks, in order of number. It takes all the room that the book will
/// need. The pool's cards wait, and each desk has its own.
pub fn reserve<B: Blob, L: Leaf>(
    alloc: Global,
    pool: Vec<Card<B, L>>,
    desks: Vec<Vec<Card<B, L>>>,
    starts: Vec<Start>,
    workers: u32,
) -> Result<BookBegun<B, L>, AllocError>
    requires plan { IsPlan (sight B.told B.seen L.seen) (plan_for pool desks starts workers) }
    requires desks { AreDealt starts.items 0 desks.items }
    ensures count { IfOk result (λ r. length r.workers.items ≡ workers) }
    ensures passes { IfOk result (λ r. AreIdle r.book (plan_for pool desks starts workers)
        0 (workers + length desks.items) (r.workers.items ++ map (λ x. x.0) r.desks.items)) }
    ensures fresh { IfOk result (λ r. AreFresh (r.workers.items ++ map (λ x. x.0) r.desks.items)) }
    ensures cards { IfOk result (λ r. map (λ x. x.1) r.desks.items ≡ desks.items) }
{
    let (book, passes) = begin(alloc, pool, &desks, starts, workers)?;
    let (workers, desks) = deal(alloc, passes, desks)?;
    Ok(BookBegun {
        book,
        workers,
        desks,
    })
}

/// What the book holds, after all its passes came back with nothing in hand.
pub fn finish<B: Blob, L: Leaf>(book: Book<B, L>, passes: Vec<Pass<B, L>>) -> Ended<B, L>
    requires { (d : BookPlan B L) × AreIdle book d 0 (length passes.items) passes.items
        × (0 < length passes.items) × (length passes.items ≡ d.workers + d.drivers) }
    ensures { (d : BookPlan B L) → AreIdle book d 0 (length passes.items) passes.items
        → IsFinished (sight B.told B.seen L.seen) d passes.items result.shelf }
{
    laws::own_entries_tell_what_is_in_hand();
    let shelf = book.end(passes);
    Ended { shelf }
}
