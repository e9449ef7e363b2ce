//! A worktree back into blobs and an index.
ghost use Rattle.std.specs.Prelude.{◌≡◌, true, false};
ghost use Rattle.checkin_engine.specs.Words.{is_checkin};
ghost use Rattle.checkout_sources.specs.RefusalText.{refusal_line};
ghost use Rattle.exit_status.specs.declared.status.ExitStatus.{ExitStatus};
ghost use Rattle.exit_status.specs.Status.{number_of};
ghost use Rattle.checkin_engine.specs.Ends.{seen, all_told, status_of, EndsCheckin};
ghost use Rattle.checkin_engine.specs.Ending.{WritesLine, EndsStopped, WritesReport};

use crate::kept_index::keep_all;
use crate::report::{has_failed, report_text};
use crate::words::is_checkin;
use checkin_paths::{CheckinPath, Fate, Files, Keep, read_paths};
use checkout_sources::{Refusal, Stop, refusal_line};
use clean_drivers::turns_are_talks;
use edge_kit::{Repo, SendFault, Sink, Spawner};
use exit_status::ExitStatus;
use one_shot::Once;
use std::alloc::Global;

/// Writes the line of a refusal.
fn refuse<S: Sink>(alloc: Global, out: &mut S, refusal: &Refusal) -> ExitStatus
    ensures { WritesLine (refusal_line refusal.now) (S.seen out.old) (S.seen out.new) result }
{
    let Ok(line) = refusal_line(alloc, refusal) else {
        return ExitStatus::OutOfMemory;
    };
    match out.write(&line) {
        Ok(()) => ExitStatus::Refused,
        Err(SendFault::Failed) => ExitStatus::OutputNotWritten,
        Err(SendFault::NoMemory) => ExitStatus::OutOfMemory,
    }
}

/// How a check-in ends for which nothing could be read.
fn stopped<S: Sink>(alloc: Global, out: &mut S, stop: Stop) -> ExitStatus
    ensures { EndsStopped stop (S.seen out.old) (S.seen out.new) result }
{
    match stop {
        Stop::Refused(refusal) => refuse(alloc, out, &refusal),
        Stop::ReadFault => ExitStatus::ReadFault,
        Stop::NoMemory => ExitStatus::OutOfMemory,
    }
}

/// 1 if some path failed, and 0 if none did.
fn status_of(fates: &[Fate]) -> ExitStatus
    ensures { result ≡ status_of fates.now }
{
    if has_failed(fates) {
        ExitStatus::DoneWithFailures
    } else {
        ExitStatus::Done
    }
}

/// Writes the report of the paths.
fn write_report<S: Sink>(
    alloc: Global,
    out: &mut S,
    paths: &[CheckinPath],
    fates: &[Fate],
) -> ExitStatus
    ensures { WritesReport paths.now fates.now (S.seen out.old) (S.seen out.new) result }
{
    let Ok(text) = report_text(alloc, paths, fates) else {
        return ExitStatus::OutOfMemory;
    };
    match out.write(&text) {
        Ok(()) => status_of(fates),
        Err(SendFault::Failed) => ExitStatus::OutputNotWritten,
        Err(SendFault::NoMemory) => ExitStatus::OutOfMemory,
    }
}

/// A check-in.
fn check_in<R: Repo, F: Files, P: Spawner, O: Once, K: Keep, S: Sink>(
    alloc: Global,
    repo: &mut R,
    files: &mut F,
    spawner: &mut P,
    once: &mut O,
    keep: &mut K,
    out: &mut S,
) -> ExitStatus
    ensures told { R.told repo.new ≡ R.told repo.old }
    ensures files { F.told files.new ≡ F.told files.old }
    ensures starts { P.told spawner.new ≡ P.told spawner.old }
    ensures runs { O.told once.new ≡ O.told once.old }
    ensures starters { (P.seen spawner.new).out ≡ (P.seen spawner.old).out }
    ensures ends { EndsCheckin
        (all_told (R.told repo.old) (F.told files.old) (P.told spawner.old) (O.told once.old))
        (seen (R.seen repo.old) (F.seen files.old) (P.seen spawner.old) (O.faults once.old) (K.seen keep.old)
        (S.seen out.old))
        (seen (R.seen repo.new) (F.seen files.new) (P.seen spawner.new) (O.faults once.new) (K.seen keep.new)
        (S.seen out.new)) result }
{
    let read = match read_paths(alloc, repo) {
        Ok(read) => read,
        Err(stop) => return stopped(alloc, out, stop),
    };
    turns_are_talks();
    match keep_all(alloc, repo, files, spawner, once, keep, &read) {
        Ok(fates) => write_report(alloc, out, &read.paths, &fates),
        Err(SendFault::Failed) => ExitStatus::OutputNotWritten,
        Err(SendFault::NoMemory) => ExitStatus::OutOfMemory,
    }
}

/// The command `checkin`: turns the files of a worktree back into blobs and an index.
///
/// The words are the repository's folder, the worktree's folder and `checkin`. Each path of the index is looked at, in
/// order. The file of one that has a filter driver is cleaned by it first: by the driver's `process`, or else by its
/// `clean`, which runs once for each content. The object of a changed path is kept, then the index, and then the report
/// is written. Each blob is taken back right after it was read, before the next path is looked at, and each starter
/// of a driver before the index is kept.
///
/// It returns 0, or 1 if some path failed. 2 if the words are no check-in, 3 if the repository is refused, 4 if the
/// keeper or the sink failed, 5 if out of memory, and 6 if a read of the repository failed.
pub fn checkin<R: Repo, F: Files, P: Spawner, O: Once, K: Keep, S: Sink>(
    alloc: Global,
    words: &[String],
    repo: &mut R,
    files: &mut F,
    spawner: &mut P,
    once: &mut O,
    keep: &mut K,
    out: &mut S,
) -> u8
    // How it ends, and what holds then. It is never 2.
    ensures ends { is_checkin words.now ≡ true → (s : ExitStatus) × (result ≡ number_of s) × EndsCheckin
        (all_told (R.told repo.old) (F.told files.old) (P.told spawner.old) (O.told once.old))
        (seen (R.seen repo.old) (F.seen files.old) (P.seen spawner.old) (O.faults once.old) (K.seen keep.old)
        (S.seen out.old))
        (seen (R.seen repo.new) (F.seen files.new) (P.seen spawner.new) (O.faults once.new) (K.seen keep.new)
        (S.seen out.new)) s }
    // Words that are no check-in end with 2.
    ensures usage { is_checkin words.now ≡ false → result ≡ 2 }
    // Nothing at all is done for them.
    ensures unasked { is_checkin words.now ≡ false
        → seen (R.seen repo.new) (F.seen files.new) (P.seen spawner.new) (O.faults once.new) (K.seen keep.new)
        (S.seen out.new)
        ≡ seen (R.seen repo.old) (F.seen files.old) (P.seen spawner.old) (O.faults once.old) (K.seen keep.old)
        (S.seen out.old) }
    // Each blob that was made is given back, and each starter.
    ensures back { (R.seen repo.new).out ≡ (R.seen repo.old).out }
    ensures starters { (P.seen spawner.new).out ≡ (P.seen spawner.old).out }
    // What the repository, the files, the drivers and the single runs tell stays.
    ensures told { R.told repo.new ≡ R.told repo.old }
    ensures files { F.told files.new ≡ F.told files.old }
    ensures starts { P.told spawner.new ≡ P.told spawner.old }
    ensures runs { O.told once.new ≡ O.told once.old }
{
    if !is_checkin(words) {
        return ExitStatus::Usage.number();
    }
    check_in(alloc, repo, files, spawner, once, keep, out).number()
}
