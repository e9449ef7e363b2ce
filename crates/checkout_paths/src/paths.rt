//! All paths of a plan, by workers in threads.
ghost use Rattle.std.specs.Prelude.{◌≡◌, IfOk, OnErr};
ghost use Rattle.checkout_paths.specs.Cards.{AreOrdered};
ghost use Rattle.checkout_paths.specs.Dealing.{IsWork};
ghost use Rattle.checkout_paths.specs.Made.{BreaksOff};
ghost use Rattle.checkout_paths.specs.Workers.{IsPace};
ghost use Rattle.checkout_paths.specs.Writing.{ArePathsDone, IsRunAt};

use crate::cards::starts_of;
use crate::dealt::{Dealt, deal};
use crate::given_back::{give_blobs, give_leaves, give_starters};
use crate::work::{Means, PlannedWork};
use crate::workers::workers_for;
use checkout_core::{Event, Verdict};
use core_laws::laws;
use edge_kit::{Gate, Repo, Spawner, Worktree};
use std::alloc::AllocError;
use std::sync::Wait;
use std::thread::Threads;
use writer_pool::laws::{a_talk_asks_for_what_was_read, works_fit_their_contents};
use writer_pool::{Pooled, pool_run};

/// How paths ended.
#[derive(Drop)]
pub struct PathsDone {
    /// The events of all workers, in the order in which they happened.
    pub history: Vec<Event>,
    /// The verdict of each path.
    pub verdicts: Vec<Verdict>,
    /// How many workers there were.
    pub workers: u32,
}

/// Reads, writes and ends the paths, by as many workers as the pace says and by a desk for each driver. The blobs and
/// the leaves are given back in path order, and the starters in order of the drivers. If memory runs out, what was made
/// is given back, or all of it is still out.
pub fn check_out_paths<R: Repo, T: Worktree, P: Spawner, G: Gate, H: Threads + Wait + Sync>(
    means: &Means<'_, G, H>,
    repo: &mut R,
    tree: &mut T,
    spawner: &mut P,
    work: &PlannedWork<'_>,
) -> Result<PathsDone, AllocError>
    requires work { IsWork work.now.paths.now work.now.drivers.now }
    requires ordered { AreOrdered work.now.paths.now }
    requires pace { IsPace work.now.pace }
    ensures told { R.told repo.new ≡ R.told repo.old }
    ensures starts { P.told spawner.new ≡ P.told spawner.old }
    ensures broken { OnErr result (BreaksOff work.now.paths.now work.now.drivers.now (R.seen repo.old) (R.seen repo.new)
        (T.seen tree.old) (T.seen tree.new) (P.seen spawner.old) (P.seen spawner.new)) }
    ensures ended { IfOk result (λ r. ArePathsDone (P.told spawner.old) (R.told repo.old).object
        work.now.paths.now work.now.drivers.now r.verdicts.items r.history.items (R.seen repo.old) (R.seen repo.new)
        (T.seen tree.old) (T.seen tree.new) (P.seen spawner.old) (P.seen spawner.new)) }
    ensures run { IfOk result (λ r. IsRunAt work.now.pace work.now.paths.now work.now.drivers.now
        r.workers r.history.items r.verdicts.items) }
{
    laws::a_verdict_is_what_is_told();
    laws::a_history_keeps_its_size();
    a_talk_asks_for_what_was_read::<P::Starter, R::Blob, T::Leaf>();
    works_fit_their_contents::<P::Starter, R::Blob, T::Leaf>();
    let alloc = means.alloc;
    let starts = starts_of(alloc, work.paths)?;
    let Dealt { pool, desks } = deal(alloc, repo, tree, spawner, work)?;
    let workers = workers_for(work.pace, pool.len());
    let pooled = pool_run(means.rt, alloc, pool, desks, starts, workers, means.gate)?;
    let Pooled {
        history,
        verdicts,
        leaves,
        blobs,
        starters,
        ..
    } = pooled;
    give_blobs(repo, blobs);
    give_leaves(tree, leaves);
    give_starters(spawner, starters);
    Ok(PathsDone {
        history,
        verdicts,
        workers,
    })
}
