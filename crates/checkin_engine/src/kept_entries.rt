//! The index of what was checked in.
ghost use Rattle.std.specs.Prelude.{◌≡◌, ◌++◌, IfOk, OnOk};
ghost use Rattle.checkin_engine.specs.Indexes.{entry_after, with_name};
ghost use Rattle.checkin_engine.specs.InTurn.{next_fate, fates_behind, entries_in_turn};

use byte_path::{Bytes, ObjectId};
use checkin_paths::Fate;
use git_index::Entry;
use std::alloc::{AllocError, Global};

/// A copy of an entry with this name.
fn with_name(alloc: Global, entry: &Entry, name: ObjectId) -> Result<Entry, AllocError>
    ensures { IfOk result (λ e. e ≡ with_name name entry.now) }
{
    Ok(Entry {
        path: Bytes::copy_of(alloc, entry.path.as_slice())?,
        stage: entry.stage,
        mode: entry.mode,
        name,
        sparse: entry.sparse,
        intent: entry.intent,
    })
}

/// Appends an entry as its path's fate has it.
fn push_after(
    alloc: Global,
    kept: &mut Vec<Entry>,
    entry: &Entry,
    fate: Fate,
) -> Result<(), AllocError>
    ensures { OnOk result (kept.new.items ≡ kept.old.items ++ entry_after fate entry.now) }
{
    let name = match fate {
        Fate::Gone => return Ok(()),
        Fate::Changed(name) => name,
        Fate::Same | Fate::Kept | Fate::Failed(_) => entry.name,
    };
    kept.push(with_name(alloc, entry, name)?)?;
    Ok(())
}

/// The next fate, and what follows it. Without one an entry stays.
fn next_fate(fates: &[Fate]) -> (Fate, &[Fate])
    ensures fate { result.0 ≡ next_fate fates.now }
    ensures behind { result.1.now ≡ fates_behind fates.now }
{
    match fates.split_first() {
        Some((fate, behind)) => (*fate, behind),
        None => (Fate::Kept, fates),
    }
}

/// The entries after a check-in with these fates of its paths, which stand in the order of the entries.
pub fn entries_in_turn(
    alloc: Global,
    entries: &[Entry],
    fates: &[Fate],
) -> Result<Vec<Entry>, AllocError>
    ensures { IfOk result (λ kept. kept.items ≡ entries_in_turn entries.now fates.now) }
{
    let mut kept = Vec::with_capacity(alloc, entries.len())?;
    let mut before: &[u8] = &[];
    let mut fate = Fate::Kept;
    let mut rest = fates;
    for entry in entries {
        let path = entry.path.as_slice();
        if path == before {
            push_after(alloc, &mut kept, entry, fate)?;
        } else {
            let (next, behind) = next_fate(rest);
            push_after(alloc, &mut kept, entry, next)?;
            fate = next;
            rest = behind;
            before = path;
        }
    }
    Ok(kept)
}
