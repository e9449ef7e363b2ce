//! The objects of the changed paths are kept, and then the index.
ghost use Rattle.std.specs.Prelude.{◌≡◌, ◌<◌, ◌^◌, length};
ghost use Rattle.std.specs.List.{AllByRecursion};
ghost use Rattle.git_index.specs.Spelling.{CanStand, plain_text};
ghost use Rattle.checkin_paths.specs.Outside.{KeepsIndex};
ghost use Rattle.checkin_paths.specs.CleanedFiles.{cleaning};
ghost use Rattle.checkin_paths.specs.Looks.{IsOpen};
ghost use Rattle.checkin_paths.specs.KeptPaths.{ChecksAndLeaves};
ghost use Rattle.checkin_engine.specs.InTurn.{entries_in_turn};
ghost use Rattle.checkin_engine.specs.KeptIndex.{KeepsAfter, HaveNames};

use crate::kept_entries::entries_in_turn;
use checkin_paths::{Fate, Files, Keep, PathsRead, check_and_leave};
use edge_kit::{Repo, SendFault, Spawner};
use git_index::{Entry, spell_entries};
use one_shot::Once;
use std::alloc::Global;

/// Keeps the index of what was checked in.
fn keep_index<K: Keep>(
    alloc: Global,
    keep: &mut K,
    entries: &[Entry],
    fates: &[Fate],
) -> Result<(), SendFault>
    requires entries { CanStand entries.now }
    requires names { HaveNames fates.now }
    ensures { KeepsIndex (plain_text (entries_in_turn entries.now fates.now))
        (K.seen keep.old) (K.seen keep.new) result }
{
    let Ok(kept) = entries_in_turn(alloc, entries, fates) else {
        return Err(SendFault::NoMemory);
    };
    let Ok(text) = spell_entries(alloc, &kept) else {
        return Err(SendFault::NoMemory);
    };
    keep.index(&text)
}

/// Looks at all paths that were read, and keeps the objects of the changed ones. Each starter of a driver is given back
/// then, and after that the index is kept.
pub fn keep_all<R: Repo, F: Files, P: Spawner, O: Once, K: Keep>(
    alloc: Global,
    repo: &mut R,
    files: &mut F,
    spawner: &mut P,
    once: &mut O,
    keep: &mut K,
    read: &PathsRead,
) -> Result<Vec<Fate>, SendFault>
    requires are_open { AllByRecursion (IsOpen (length read.now.drivers)) read.now.paths.items }
    requires few { length read.now.paths.items < 2 ^ 32 }
    requires stand { CanStand read.now.index }
    ensures told { R.told repo.new ≡ R.told repo.old }
    ensures files { F.told files.new ≡ F.told files.old }
    ensures starts { P.told spawner.new ≡ P.told spawner.old }
    ensures runs { O.told once.new ≡ O.told once.old }
    ensures keeps { KeepsAfter (ChecksAndLeaves (R.told repo.old).object (F.told files.old)
        (cleaning read.now.drivers (P.told spawner.old) (O.told once.old)) read.now.paths.items
        (R.seen repo.old) (R.seen repo.new) (F.seen files.old) (F.seen files.new)
        (P.seen spawner.old) (P.seen spawner.new) (O.faults once.old) (O.faults once.new) (K.seen keep.old))
        read.now.index (K.seen keep.new) result }
    ensures out { (P.seen spawner.new).out ≡ (P.seen spawner.old).out }
{
    let fates = match check_and_leave(alloc, repo, files, spawner, once, keep, read) {
        Ok(fates) => fates,
        Err(fault) => return Err(fault),
    };
    match keep_index(alloc, keep, read.index.entries(), &fates) {
        Ok(()) => Ok(fates),
        Err(fault) => Err(fault),
    }
}
