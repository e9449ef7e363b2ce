//! An entry in its place after the earlier ones.
ghost use Rattle.std.specs.Prelude.{◌≡◌, ◌++◌, ◌∷◌, [], true, length, IfOk, OnOk, IfErr};
ghost use Rattle.git_index.specs.Spelling.{is_below, is_alone};
ghost use Rattle.git_index.specs.Reading.{is_none_or, last_of, placed_at};
ghost use Rattle.git_index.specs.Folders.{paths, are_numbers, AreOpen};

use crate::entry::Entry;
use crate::fault::{EntryKind, IndexFault};
use crate::folders::open_path;
use std::cmp::Ordering;

fn is_below(before: &Entry, found: &Entry) -> bool
    ensures { result ≡ is_below before.now found.now }
{
    match before.path.as_slice().cmp(found.path.as_slice()) {
        Ordering::Less => true,
        Ordering::Equal => before.stage < found.stage,
        Ordering::Greater => false,
    }
}

fn is_alone(before: &Entry, found: &Entry) -> bool
    ensures { result ≡ is_alone before.now found.now }
{
    before.path.as_slice() != found.path.as_slice() || before.stage != 0
}

fn rises(earlier: &[Entry], found: &Entry) -> bool
    ensures { result ≡ is_none_or (λ b. is_below b found.now) (last_of earlier.now) }
{
    match earlier.last() {
        Some(before) => is_below(before, found),
        None => true,
    }
}

fn is_unmixed(earlier: &[Entry], found: &Entry) -> bool
    ensures { result ≡ is_none_or (λ b. is_alone b found.now) (last_of earlier.now) }
{
    match earlier.last() {
        Some(before) => is_alone(before, found),
        None => true,
    }
}

/// Puts an entry after the earlier ones, of which there are k.
#[tactic(auto, using(crate::proofs::Placed::placing))]
pub fn place(
    k: u32,
    found: Entry,
    entries: &mut Vec<Entry>,
    stack: &mut Vec<usize>,
) -> Result<(), IndexFault>
    requires count { length entries.old.items ≡ k }
    requires known { AreOpen entries.old.items (paths entries.old.items stack.old.items) }
    requires numbers { are_numbers entries.old.items stack.old.items ≡ true }
    ensures placed { OnOk result (placed_at entries.old.items found ≡ Ok found) }
    ensures grown { OnOk result (entries.new.items ≡ entries.old.items ++ found ∷ []) }
    ensures still { OnOk result (AreOpen entries.new.items (paths entries.new.items stack.new.items)) }
    ensures numbered { OnOk result (are_numbers entries.new.items stack.new.items ≡ true) }
    // Which fault it is.
    ensures refused { IfErr result (λ f. (f ≡ IndexFault.NoMemory → ⊥)
        → placed_at entries.old.items found ≡ Err f) }
{
    if !rises(entries, &found) {
        return Err(IndexFault::Order(k));
    }
    if !is_unmixed(entries, &found) {
        return Err(IndexFault::Entry(k, EntryKind::MixedStage));
    }
    if open_path(entries, stack, &found)? {
        return Err(IndexFault::FolderClash(k));
    }
    entries.push(found)?;
    Ok(())
}
