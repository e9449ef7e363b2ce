//! All actors of a checkout at once.
ghost use Rattle.std.specs.Prelude.{◌≡◌, ◌<◌, ◌≤◌, ◌^◌, ◌++◌, IfOk, length};
ghost use Rattle.checkout_core.specs.States.{AreBelow};
ghost use Rattle.checkout_book.specs.Sights.{sight};
ghost use Rattle.checkout_book.specs.Reserving.{ArePool, AreNew};
ghost use Rattle.writer_pool.specs.Ends.{IsRun, AreEnds};
ghost use Rattle.writer_pool.specs.Pools.{AreSeeds, AreStartersBack, AreTalks, seed_cards};

use crate::back::{Back, back_room, came_back};
use crate::begun::begin_pool;
use crate::jobs::act_all;
use crate::path_ends::{PathEnds, room_for};
use crate::pool_end::{end_all, leave};
use crate::pooled::{DeskSeed, Pooled};
use card_worker::Gathering;
use checkout_core::Start;
use convert_plan::Card;
use core_laws::laws;
use edge_kit::{Blob, Gate, Leaf, Starter};
use std::alloc::{AllocError, Global};
use std::sync::Wait;
use std::thread::Threads;

/// Where several actors are at work, one claims more than a card at once only while so many are left for each of them.
const SHARE: usize = 8;

/// The path below which cards are plenty: so many are behind it that each actor gets its share of them.
fn plenty_below(paths: usize, workers: u32, drivers: usize) -> usize {
    let actors = drivers.saturating_add(workers as usize);
    if actors < 2 {
        return paths;
    }
    paths.saturating_sub(actors.saturating_mul(SHARE))
}

/// Writes all cards of a checkout: by as many workers, and by a desk for each driver, each in a thread of its own. The
/// caller closes what still waits after all of them came back.
///
/// The cards are new, in path order, and those that `starts` names. `NoMemory` is the only error. It comes before any
/// actor is started, or from the threads themselves, and gives nothing back. Want of memory after that is a path's own.
pub fn pool_run<
    S: Starter + Send,
    B: Blob + Send,
    L: Leaf + Send,
    G: Gate,
    H: Threads + Wait + Sync,
>(
    rt: &H,
    alloc: Global,
    pool: Vec<Card<B, L>>,
    desks: Vec<DeskSeed<S, B, L>>,
    starts: Vec<Start>,
    workers: u32,
    gate: &G,
) -> Result<Pooled<S, B, L>, AllocError>
    requires few_paths { length starts.items < 2 ^ 32 }
    requires below { AreBelow (length desks.items) starts.items }
    requires some { 1 ≤ workers }
    requires few_workers { workers ≤ 16 }
    requires few_desks { length desks.items ≤ 16 }
    requires pool { ArePool starts.items pool.items }
    requires desks { AreSeeds S.seen starts.items 0 desks.items }
    requires new { AreNew (sight B.told B.seen L.seen) (pool.items ++ seed_cards desks.items) }
    ensures run { IfOk result (λ r. IsRun starts.items workers (length desks.items) r.history.items r.verdicts.items) }
    ensures ends { IfOk result (λ r. AreEnds (sight B.told B.seen L.seen) starts.items r.history.items
        (pool.items ++ seed_cards desks.items) 0 starts.items r.blobs.items r.leaves.items) }
    ensures starters { IfOk result (λ r. AreStartersBack S.seen (sight B.told B.seen L.seen) starts.items
        r.history.items r.leaves.items 0 desks.items r.starters.items) }
    ensures talks { IfOk result (λ r. AreTalks starts.items r.history.items 0 r.talks.items) }
    ensures talk_count { IfOk result (λ r. length r.talks.items ≡ length desks.items) }
{
    laws::a_claim_takes_its_path();
    laws::a_close_closes_its_path();
    laws::a_path_that_is_handed_back_waits();
    laws::a_note_keeps_paths_with_their_driver();
    let paths = starts.len();
    let drivers = desks.len();
    let room = room_for(alloc, paths)?;
    let back = back_room(alloc, workers, drivers)?;
    let gathering = Gathering {
        alloc,
        below: plenty_below(paths, workers, drivers),
    };
    let (book, jobs) = begin_pool(alloc, pool, desks, starts, workers)?;
    let ends = act_all(rt, gathering, &book, gate, jobs)?;
    let Back {
        passes,
        starters,
        talks,
    } = came_back(ends, back);
    let ended = end_all(alloc, book, passes);
    let (history, ends) = leave(ended, paths as u32, room);
    let PathEnds {
        verdicts,
        leaves,
        blobs,
    } = ends;
    Ok(Pooled {
        history,
        verdicts,
        leaves,
        blobs,
        starters,
        talks,
    })
}
