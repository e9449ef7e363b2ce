//! The command `rehearse`: a checkout in memory, of a repository and drivers that two numbers make, and its summary.
ghost use Rattle.std.specs.Prelude.{◌≡◌, ◌≤◌, IfOk, Some, length, string_bytes};
ghost use Rattle.std.specs.List.{list_any};
ghost use Rattle.checkout_engine.specs.Complete.{IsValid};
ghost use Rattle.checkout_sources.specs.Reading.{IsRead};
ghost use Rattle.checkout_engine.specs.Rehearsed.{is_memory, bytes_of, first_words, last_words, summary, new_memory};
ghost use Rattle.checkout_engine.specs.Rehearsed.{is_write_failed, is_link_failed, is_driver_failed, is_disturbed};
ghost use Rattle.checkout_engine.specs.Rehearsed.{IsTried, IsTriedWell, IsRehearsed, IsSummed, Rehearses};
ghost use Rattle.checkout_engine.specs.Rehearsed.{IsRehearsedRun};
ghost use Rattle.checkout_engine.specs.Small.{IsSmall};
ghost use Rattle.checkout_paths.specs.Workers.{starts_of};

use crate::end::CheckoutRun;
use crate::report::{lacks_memory, status_of};
use crate::steps::{PacedPlan, write_paths};
use checkout_core::{FailCause, Verdict};
use checkout_paths::{Means, drivers_are_in_use};
use checkout_plan::closed_paths_have_causes;
use checkout_report::{failed_count, unfiltered_count, written_count};
use checkout_sources::{Planned, Stop, read_plan};
use core_laws::laws;
use edge_kit::{
    DriverSeen, Gate, MemoryRepo, MemorySpawner, MemoryTree, Repo, Sink, Spawner, StartOutcome,
    StartSeen, TreeFile, Worktree,
};
use exit_status::{ExitStatus, say};
use git_index::{index_has_no_fault, one_reading, paths_are_ordered};
use rehearsal::{Rehearsed, attributes_are_right, files_have_an_index, rehearse};
use std::alloc::{AllocError, Global};
use std::sync::Wait;
use std::thread::Threads;

/// The sum of all files' bytes.
fn bytes_of(files: &[TreeFile]) -> u128
    ensures { result ≡ bytes_of files.now }
{
    let mut sum = 0u128;
    for file in files {
        sum += file.bytes.as_slice().len() as u128;
    }
    sum
}

/// The first half of the line of a rehearsal, of these numbers.
fn first_words(alloc: Global, paths: u32, status: u8, written: usize) -> Result<String, AllocError>
    ensures { IfOk result (λ s. string_bytes s ≡ first_words paths status written) }
{
    format!(in alloc; "rehearse {paths} status {status} written {written}")
}

/// The second half, with the line's end.
fn last_words(
    alloc: Global,
    unfiltered: usize,
    failed: usize,
    bytes: u128,
) -> Result<String, AllocError>
    ensures { IfOk result (λ s. string_bytes s ≡ last_words unfiltered failed bytes) }
{
    format!(in alloc; " unfiltered {unfiltered} failed {failed} bytes {bytes}\n")
}

/// The summary of a rehearsal of so many paths with these verdicts and files.
#[tactic(auto, unfolding(crate::specs::Rehearsed::summary))]
fn summary(
    alloc: Global,
    paths: u32,
    verdicts: &[Verdict],
    files: &[TreeFile],
) -> Result<String, AllocError>
    ensures { IfOk result (λ s. string_bytes s ≡ summary paths verdicts.now files.now) }
{
    let status = status_of(verdicts).number();
    let written = written_count(verdicts);
    let unfiltered = unfiltered_count(verdicts);
    let failed = failed_count(verdicts);
    let bytes = bytes_of(files);
    let first = first_words(alloc, paths, status, written)?;
    let last = last_words(alloc, unfiltered, failed, bytes)?;
    format!(in alloc; "{first}{last}")
}

/// Whether memory ran out.
fn is_memory(stop: &Stop) -> bool
    ensures { result ≡ is_memory stop.now }
{
    matches!(stop, Stop::NoMemory)
}

/// The plan of a valid repository.
fn valid_plan<R: Repo>(alloc: Global, repo: &mut R) -> Result<Planned, AllocError>
    requires { IsValid (R.told repo.old) }
    ensures told { R.told repo.new ≡ R.told repo.old }
    ensures read { IfOk result (λ p. IsRead (R.told repo.old) p (R.seen repo.old) (R.seen repo.new)) }
{
    one_reading();
    index_has_no_fault();
    match read_plan(alloc, repo) {
        Ok(planned) => Ok(planned),
        Err(stop) => {
            let ran_out = is_memory(&stop);
            prove!(ran_out);
            Err(AllocError)
        }
    }
}

/// Whether the file of a path could not be written.
fn is_write_failed(verdict: &Verdict) -> bool
    ensures { result ≡ is_write_failed verdict.now }
{
    matches!(verdict, Verdict::Failed(FailCause::WriteFailed))
}

fn has_write_failed(verdicts: &[Verdict]) -> bool
    ensures { result ≡ list_any is_write_failed verdicts.now }
{
    verdicts.iter().any(|verdict| is_write_failed(verdict))
}

/// Whether a start gave a session whose link failed.
fn is_link_failed(start: &StartSeen) -> bool
    ensures { result ≡ is_link_failed start.now.outcome }
{
    match &start.outcome {
        StartOutcome::Session(session) => session.faults != 0,
        StartOutcome::Failed => false,
    }
}

fn is_driver_failed(driver: &DriverSeen) -> bool
    ensures { result ≡ is_driver_failed driver.now }
{
    let starts = driver.starts.as_slice();
    starts.iter().any(|start| is_link_failed(start))
}

fn has_link_failed(drivers: &[DriverSeen]) -> bool
    ensures { result ≡ list_any is_driver_failed drivers.now }
{
    drivers.iter().any(|driver| is_driver_failed(driver))
}

/// Whether anything disturbed a checkout with these verdicts and drivers: memory ran out for a path, or a leaf or a
/// link failed.
fn is_disturbed(verdicts: &[Verdict], drivers: &[DriverSeen]) -> bool
    ensures { result ≡ is_disturbed verdicts.now drivers.now }
{
    lacks_memory(verdicts) || has_write_failed(verdicts) || has_link_failed(drivers)
}

/// Checks out a valid repository, of which nothing was called, into a new and empty worktree: its run.
fn tried<R: Repo, T: Worktree, P: Spawner, G: Gate, H: Threads + Wait + Sync>(
    means: &Means<'_, G, H>,
    repo: &mut R,
    tree: &mut T,
    spawner: &mut P,
) -> Result<CheckoutRun, AllocError>
    requires valid { IsValid (R.told repo.old) }
    requires repo { R.seen repo.old ≡ new_memory.repo }
    requires tree { T.seen tree.old ≡ new_memory.tree }
    requires spawner { P.seen spawner.old ≡ new_memory.spawner }
    ensures { IfOk result (λ r. IsTried (R.told repo.old) (P.told spawner.old) r
        (T.seen tree.new) (P.seen spawner.new)) }
{
    paths_are_ordered();
    let planned = valid_plan(means.alloc, repo)?;
    let paced = PacedPlan {
        planned,
        asked: None,
    };
    let run = write_paths(means, repo, tree, spawner, paced)?;
    Ok(run)
}

/// Checks out what a rehearsal is made of into an empty worktree in memory: its run, and that worktree. What disturbed
/// the checkout is taken for want of memory: nothing is told to fail.
fn checked_out<G: Gate, H: Threads + Wait + Sync>(
    means: &Means<'_, G, H>,
    mut made: Rehearsed,
) -> Result<(CheckoutRun, MemoryTree), AllocError>
    requires valid { IsValid (⟦<MemoryRepo as Repo>⟧.told made.repo) }
    requires repo { ⟦<MemoryRepo as Repo>⟧.seen made.repo ≡ new_memory.repo }
    requires spawner { ⟦<MemorySpawner as Spawner>⟧.seen made.spawner ≡ new_memory.spawner }
    ensures { IfOk result (λ r. IsTriedWell (⟦<MemoryRepo as Repo>⟧.told made.repo)
        (⟦<MemorySpawner as Spawner>⟧.told made.spawner) r.0 (⟦<MemoryTree as Worktree>⟧.seen r.1)) }
{
    let alloc = means.alloc;
    let mut tree = MemoryTree::new(alloc, true, Vec::new(alloc), false);
    let run = tried(means, &mut made.repo, &mut tree, &mut made.spawner)?;
    if is_disturbed(&run.verdicts, made.spawner.drivers()) {
        return Err(AllocError);
    }
    Ok((run, tree))
}

/// Rehearses so many paths: the run, and the worktree in memory.
fn rehearsed<G: Gate, H: Threads + Wait + Sync>(
    means: &Means<'_, G, H>,
    seed: u64,
    paths: u32,
) -> Result<(CheckoutRun, MemoryTree), AllocError>
    requires { paths ≤ 99999 }
    ensures { IfOk result (λ r. IsRehearsed seed paths r.0 (⟦<MemoryTree as Worktree>⟧.seen r.1)) }
{
    files_have_an_index();
    attributes_are_right();
    let made = rehearse(means.alloc, seed, paths)?;
    let left = checked_out(means, made)?;
    Ok(left)
}

/// The summary of the rehearsal of so many paths.
fn rehearsal_summary<G: Gate, H: Threads + Wait + Sync>(
    means: &Means<'_, G, H>,
    seed: u64,
    paths: u32,
) -> Result<String, AllocError>
    requires { paths ≤ 99999 }
    ensures { IfOk result (λ s. IsSummed seed paths (string_bytes s)) }
{
    let (run, tree) = rehearsed(means, seed, paths)?;
    let text = summary(means.alloc, paths, &run.verdicts, tree.files())?;
    Ok(text)
}

/// Rehearses so many paths, as the command `rehearse` does, and hands on the run.
pub fn rehearsed_run<G: Gate, H: Threads + Wait + Sync>(
    means: &Means<'_, G, H>,
    seed: u64,
    paths: u32,
) -> Result<CheckoutRun, AllocError>
    requires { paths ≤ 99999 }
    // It is that of a checkout in memory that nothing disturbed.
    ensures rehearsed { IfOk result (λ run. IsRehearsedRun seed paths
        (starts_of run.plan.paths) run.workers (length run.plan.drivers) run.history.items) }
    // It is small enough for a journal.
    ensures small { IfOk result IsSmall }
{
    closed_paths_have_causes();
    drivers_are_in_use();
    laws::a_history_is_short();
    let (run, _) = rehearsed(means, seed, paths)?;
    Ok(run)
}

/// The command `rehearse`: rehearses so many paths, and writes the summary.
pub fn show_rehearsal<G: Gate, O: Sink, H: Threads + Wait + Sync>(
    means: &Means<'_, G, H>,
    seed: u64,
    paths: u32,
    out: &mut O,
) -> ExitStatus
    requires { paths ≤ 99999 }
    ensures { Rehearses seed paths (O.seen out.old) (O.seen out.new) result }
{
    let Ok(text) = rehearsal_summary(means, seed, paths) else {
        return ExitStatus::OutOfMemory;
    };
    say(out, text.as_bytes(), ExitStatus::Done)
}
