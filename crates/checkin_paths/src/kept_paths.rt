//! The paths are looked at, one after another, and the objects of the changed ones kept.
ghost use Rattle.std.specs.Prelude.{◌≡◌, ◌≤◌, ◌<◌, ◌+◌, ◌^◌, length};
ghost use Rattle.std.specs.List.{AllByRecursion};
ghost use Rattle.clean_drivers.specs.Drivers.{drivers_seen, lines_out};
ghost use Rattle.checkin_paths.specs.Outside.{work_seen};
ghost use Rattle.checkin_paths.specs.CleanedFiles.{cleaning};
ghost use Rattle.checkin_paths.specs.Looks.{IsOpen};
ghost use Rattle.checkin_paths.specs.KeptPaths.{ChecksPath, ChecksPaths, ChecksAndLeaves, KeepsStored};

use crate::cleaned_file::Visit;
use crate::fate::Fate;
use crate::files::Files;
use crate::keep::Keep;
use crate::look::{Looked, look_at};
use crate::path::CheckinPath;
use crate::paths_read::PathsRead;
use clean_drivers::{CleanDrivers, give_back};
use edge_kit::{Repo, SendFault, Spawner};
use object_dir::spell_blob;
use one_shot::Once;
use settings_view::Driver;
use std::alloc::{AllocError, Global};

/// Keeps the object of a path that has changed.
fn keep_changed<K: Keep>(
    alloc: Global,
    keep: &mut K,
    fate: Fate,
    content: &[u8],
) -> Result<(), SendFault>
    ensures { KeepsStored fate content.now (K.seen keep.old) (K.seen keep.new) result }
{
    let Fate::Changed(name) = fate else {
        return Ok(());
    };
    let Ok(raw) = spell_blob(alloc, content) else {
        return Err(SendFault::NoMemory);
    };
    keep.object(&name, &raw)
}

/// Looks at a path, and keeps its object if it is another than its entry's.
fn check_in_path<R: Repo, F: Files, P: Spawner, O: Once, K: Keep>(
    alloc: Global,
    repo: &mut R,
    files: &mut F,
    lines: &mut CleanDrivers<P::Starter>,
    spawner: &mut P,
    once: &mut O,
    keep: &mut K,
    visit: &Visit<'_>,
) -> Result<Fate, SendFault>
    requires open { IsOpen (length lines.old.lines) visit.now.path.now }
    requires few { lines.old.asked + 1 < 2 ^ 32 }
    ensures told { R.told repo.new ≡ R.told repo.old }
    ensures files { F.told files.new ≡ F.told files.old }
    ensures starts { P.told spawner.new ≡ P.told spawner.old }
    ensures runs { O.told once.new ≡ O.told once.old }
    ensures checks { ChecksPath (R.told repo.old).object (F.told files.old)
        (cleaning visit.now.drivers.now (P.told spawner.old) (O.told once.old)) visit.now.path.now
        (R.seen repo.old) (R.seen repo.new)
        (work_seen (F.seen files.old) (drivers_seen lines.old.lines (P.seen spawner.old) (O.faults once.old)))
        (work_seen (F.seen files.new) (drivers_seen lines.new.lines (P.seen spawner.new) (O.faults once.new)))
        (K.seen keep.old) (K.seen keep.new) result }
    ensures asked { lines.new.asked ≤ lines.old.asked + 1 }
    ensures places { length lines.new.lines ≡ length lines.old.lines }
    ensures out { (P.seen spawner.new).out + lines_out lines.old.lines
        ≡ (P.seen spawner.old).out + lines_out lines.new.lines }
{
    let looked = match look_at(alloc, repo, files, lines, spawner, once, visit) {
        Ok(looked) => looked,
        Err(AllocError) => return Err(SendFault::NoMemory),
    };
    let Looked { fate, content } = looked;
    match keep_changed(alloc, keep, fate, &content) {
        Ok(()) => Ok(fate),
        Err(fault) => Err(fault),
    }
}

/// Looks at all paths, in order, and keeps the objects of the changed ones.
fn check_in_paths<R: Repo, F: Files, P: Spawner, O: Once, K: Keep>(
    alloc: Global,
    repo: &mut R,
    files: &mut F,
    lines: &mut CleanDrivers<P::Starter>,
    spawner: &mut P,
    once: &mut O,
    keep: &mut K,
    drivers: &[Driver],
    paths: &[CheckinPath],
) -> Result<Vec<Fate>, SendFault>
    requires are_open { AllByRecursion (IsOpen (length lines.old.lines)) paths.now }
    requires few { length paths.now < 2 ^ 32 }
    requires fresh { lines.old.asked ≡ 0 }
    ensures told { R.told repo.new ≡ R.told repo.old }
    ensures files { F.told files.new ≡ F.told files.old }
    ensures starts { P.told spawner.new ≡ P.told spawner.old }
    ensures runs { O.told once.new ≡ O.told once.old }
    ensures checks { ChecksPaths (R.told repo.old).object (F.told files.old)
        (cleaning drivers.now (P.told spawner.old) (O.told once.old)) paths.now
        (R.seen repo.old) (R.seen repo.new)
        (work_seen (F.seen files.old) (drivers_seen lines.old.lines (P.seen spawner.old) (O.faults once.old)))
        (work_seen (F.seen files.new) (drivers_seen lines.new.lines (P.seen spawner.new) (O.faults once.new)))
        (K.seen keep.old) (K.seen keep.new) result }
    ensures out { (P.seen spawner.new).out + lines_out lines.old.lines
        ≡ (P.seen spawner.old).out + lines_out lines.new.lines }
{
    let Ok(mut fates) = Vec::with_capacity(alloc, paths.len()) else {
        return Err(SendFault::NoMemory);
    };
    for path in paths {
        let visit = Visit { drivers, path };
        let fate = match check_in_path(alloc, repo, files, lines, spawner, once, keep, &visit) {
            Ok(fate) => fate,
            Err(fault) => return Err(fault),
        };
        let Ok(()) = fates.push(fate) else {
            return Err(SendFault::NoMemory);
        };
    }
    Ok(fates)
}

/// Looks at all paths that were read, and keeps the objects of the changed ones. Each starter of a driver is given back
/// then.
pub fn check_and_leave<R: Repo, F: Files, P: Spawner, O: Once, K: Keep>(
    alloc: Global,
    repo: &mut R,
    files: &mut F,
    spawner: &mut P,
    once: &mut O,
    keep: &mut K,
    read: &PathsRead,
) -> Result<Vec<Fate>, SendFault>
    requires are_open { AllByRecursion (IsOpen (length read.now.drivers)) read.now.paths.items }
    requires few { length read.now.paths.items < 2 ^ 32 }
    ensures told { R.told repo.new ≡ R.told repo.old }
    ensures files { F.told files.new ≡ F.told files.old }
    ensures starts { P.told spawner.new ≡ P.told spawner.old }
    ensures runs { O.told once.new ≡ O.told once.old }
    ensures checks { ChecksAndLeaves (R.told repo.old).object (F.told files.old)
        (cleaning read.now.drivers (P.told spawner.old) (O.told once.old)) read.now.paths.items
        (R.seen repo.old) (R.seen repo.new) (F.seen files.old) (F.seen files.new)
        (P.seen spawner.old) (P.seen spawner.new) (O.faults once.old) (O.faults once.new)
        (K.seen keep.old) (K.seen keep.new) result }
    ensures out { (P.seen spawner.new).out ≡ (P.seen spawner.old).out }
{
    let drivers = read.drivers.as_slice();
    let Ok(mut lines) = CleanDrivers::new(alloc, drivers.len()) else {
        return Err(SendFault::NoMemory);
    };
    let checked = check_in_paths(
        alloc,
        repo,
        files,
        &mut lines,
        spawner,
        once,
        keep,
        drivers,
        &read.paths,
    );
    give_back(lines, spawner);
    checked
}
