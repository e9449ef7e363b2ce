//! The steps of a checkout of a repository into an empty worktree.
ghost use Rattle.std.specs.Prelude.{◌≡◌, [], OnOk, OnErr, IfOk};
ghost use Rattle.edge_kit.specs.Seen.{RepoSeen, SinkSeen};
ghost use Rattle.edge_kit.specs.Told.{Tells};
ghost use Rattle.checkout_sources.specs.Reading.{IsRead};
ghost use Rattle.checkout_paths.specs.Made.{BreaksOff};
ghost use Rattle.checkout_paths.specs.Workers.{IsAsked};
ghost use Rattle.checkout_engine.specs.Checkout.{HasVerdicts, HasWholeRun, Leaves, history_of};
ghost use Rattle.checkout_engine.specs.Complete.{Finishes};
ghost use Rattle.checkout_engine.specs.Ending.{StopsTree, StopsRun, IsRunOver};
ghost use Rattle.checkout_engine.specs.Ends.{begun, seen};
ghost use Rattle.checkout_engine.specs.Headline.{LeavesHeadline};

use crate::end::{Checkout, CheckoutRun};
use crate::halt::{Halt, halted};
use checkout_paths::{Means, Pace, PathsDone, PlannedWork, check_out_paths, drivers_are_in_use};
use checkout_plan::closed_paths_have_causes;
use checkout_sources::{Planned, Stop, read_plan, readings_leave_parts};
use core_laws::laws;
use driver_line::equal_outputs_give_equal_talks;
use edge_kit::{Failed, Gate, Repo, Spawner, Worktree};
use git_index::{index_has_no_fault, one_reading, paths_are_ordered};
use std::alloc::{AllocError, Global};
use std::sync::Wait;
use std::thread::Threads;

/// A plan that was read, and how many workers are asked for.
#[derive(Drop)]
pub(crate) struct PacedPlan {
    pub planned: Planned,
    pub asked: Option<u32>,
}

/// Stops unless the worktree is empty.
fn need_empty<T: Worktree>(tree: &mut T) -> Result<(), Halt>
    ensures kept { let seen = T.seen tree.new in
        seen ≡ record (T.seen tree.old) { faults = seen.faults } }
    ensures no_file { OnOk result (Tells (T.seen tree.old).files []) }
    ensures stops { StopsTree (T.seen tree.old) (T.seen tree.new) result }
{
    match tree.is_empty() {
        Ok(true) => Ok(()),
        Ok(false) => Err(Halt::NotEmpty),
        Err(Failed) => Err(Halt::Stop(Stop::ReadFault)),
    }
}

/// Reads all that a checkout needs before it touches a file or starts a driver: the plan.
fn prepare<R: Repo, T: Worktree>(alloc: Global, repo: &mut R, tree: &mut T) -> Result<Planned, Halt>
    ensures told { R.told repo.new ≡ R.told repo.old }
    ensures kept { let seen = T.seen tree.new in
        seen ≡ record (T.seen tree.old) { faults = seen.faults } }
    ensures no_file { OnOk result (Tells (T.seen tree.old).files []) }
    ensures stops { StopsRun (R.told repo.old)
        (T.seen tree.old) (T.seen tree.new) (R.seen repo.old) (R.seen repo.new) result }
{
    need_empty(tree)?;
    match read_plan(alloc, repo) {
        Ok(planned) => Ok(planned),
        Err(stop) => Err(Halt::Stop(stop)),
    }
}

/// Writes the paths of a plan that was read.
pub(crate) fn write_paths<R: Repo, T: Worktree, P: Spawner, G: Gate, H: Threads + Wait + Sync>(
    means: &Means<'_, G, H>,
    repo: &mut R,
    tree: &mut T,
    spawner: &mut P,
    paced: PacedPlan,
) -> Result<CheckoutRun, AllocError>
    requires asked { IsAsked paced.asked }
    requires read { (before : RepoSeen) × IsRead (R.told repo.old) paced.planned before (R.seen repo.old) }
    ensures told { R.told repo.new ≡ R.told repo.old }
    ensures starts { P.told spawner.new ≡ P.told spawner.old }
    ensures broken { OnErr result (BreaksOff paced.planned.plan.paths paced.planned.plan.drivers
        (R.seen repo.old) (R.seen repo.new) (T.seen tree.old) (T.seen tree.new)
        (P.seen spawner.old) (P.seen spawner.new)) }
    ensures done { IfOk result (λ run. IsRunOver (P.told spawner.old) (R.told repo.old).object paced run
        (R.seen repo.old) (R.seen repo.new) (T.seen tree.old) (T.seen tree.new)
        (P.seen spawner.old) (P.seen spawner.new)) }
{
    paths_are_ordered();
    let PacedPlan { planned, asked } = paced;
    let Planned {
        plan,
        workers,
        threshold,
    } = planned;
    let pace = Pace {
        asked,
        workers,
        threshold,
    };
    let paths = plan.paths.as_slice();
    let drivers = plan.drivers.as_slice();
    let work = PlannedWork {
        paths,
        drivers,
        pace,
    };
    let Ok(done) = check_out_paths(means, repo, tree, spawner, &work) else {
        return Err(AllocError);
    };
    let PathsDone {
        history,
        verdicts,
        workers,
    } = done;
    Ok(CheckoutRun {
        plan,
        workers,
        verdicts,
        history,
    })
}

/// Does the steps of a checkout, as far as they go.
fn do_steps<R: Repo, T: Worktree, P: Spawner, G: Gate, H: Threads + Wait + Sync>(
    means: &Means<'_, G, H>,
    repo: &mut R,
    tree: &mut T,
    spawner: &mut P,
    workers: Option<u32>,
) -> Checkout
    requires { IsAsked workers }
    ensures verdicts { HasVerdicts result }
    ensures told { R.told repo.new ≡ R.told repo.old }
    ensures starts { P.told spawner.new ≡ P.told spawner.old }
    ensures ends { (sink : SinkSeen) → Leaves (R.told repo.old) (P.told spawner.old) workers
        (begun (R.seen repo.old) (T.seen tree.old) (P.seen spawner.old) sink)
        (seen (R.seen repo.new) (T.seen tree.new) (P.seen spawner.new) sink (history_of result)) result }
{
    paths_are_ordered();
    readings_leave_parts();
    let planned = match prepare(means.alloc, repo, tree) {
        Ok(planned) => planned,
        Err(halt) => return halted(halt),
    };
    let paced = PacedPlan {
        planned,
        asked: workers,
    };
    match write_paths(means, repo, tree, spawner, paced) {
        Ok(run) => Checkout::Done(run),
        Err(_) => Checkout::NoMemory,
    }
}

/// A checkout: reads what it needs, and refuses, or writes the paths of the plan. It reports nothing.
///
/// The paths are written by workers in threads, as many as are asked for or the settings say, and by a desk for each
/// driver in use, which call the gate. The starters of the drivers are given back in order of the drivers.
pub fn checkout<R: Repo, T: Worktree, P: Spawner, G: Gate, H: Threads + Wait + Sync>(
    means: &Means<'_, G, H>,
    repo: &mut R,
    tree: &mut T,
    spawner: &mut P,
    workers: Option<u32>,
) -> Checkout
    // 1 to 16
    requires { IsAsked workers }
    // A run has a verdict for each path of its plan, and is small enough for a journal.
    ensures whole { HasWholeRun result }
    // What the repository tells stays, and so does what the spawner tells of its starts.
    ensures told { R.told repo.new ≡ R.told repo.old }
    ensures starts { P.told spawner.new ≡ P.told spawner.old }
    // Done: each path of the plan ended as its verdict says, the worktree has the files of the written ones, and the
    // history is the run that gave these verdicts. Else: why there is no run, and what was done. No sink is looked at.
    ensures ends { (sink : SinkSeen) → Leaves (R.told repo.old) (P.told spawner.old) workers
        (begun (R.seen repo.old) (T.seen tree.old) (P.seen spawner.old) sink)
        (seen (R.seen repo.new) (T.seen tree.new) (P.seen spawner.new) sink (history_of result)) result }
    // The headline: each path has a verdict with its cause, and the files are those of the written paths, each with its
    // object's content, converted, where memory ran out for no path. A first part of a file may remain if the file
    // could neither be written nor removed.
    ensures headline { (sink : SinkSeen) → LeavesHeadline (R.told repo.old) (P.told spawner.old) workers
        (begun (R.seen repo.old) (T.seen tree.old) (P.seen spawner.old) sink)
        (seen (R.seen repo.new) (T.seen tree.new) (P.seen spawner.new) sink (history_of result)) result }
    // A checkout that has all that it needs, and in which no count of faults rises, is done without a failed path, or
    // memory runs out. If it has drivers, what is told of their starts gives each of their paths, or each talk with
    // them does. Where nothing is told of the file `base`, it may be refused since that is too large.
    ensures complete { (sink : SinkSeen) → Finishes (R.told repo.old) (P.told spawner.old)
        (begun (R.seen repo.old) (T.seen tree.old) (P.seen spawner.old) sink)
        (seen (R.seen repo.new) (T.seen tree.new) (P.seen spawner.new) sink (history_of result)) result }
{
    one_reading();
    index_has_no_fault();
    paths_are_ordered();
    equal_outputs_give_equal_talks();
    closed_paths_have_causes();
    drivers_are_in_use();
    laws::a_history_keeps_its_size();
    laws::own_entries_tell_what_is_in_hand();
    laws::a_history_is_short();
    do_steps(means, repo, tree, spawner, workers)
}
