//! An entry in its place after the earlier ones.
ghost use Rattle.std.specs.Prelude.{◌≡◌, ◌++◌, ◌∷◌, [], ◌||◌, true, length, slice_get, IfErr, OnOk, Ok, Err};
ghost use Rattle.std.specs.List.{list_any, prefix_len};
ghost use Rattle.git_trees.specs.Format.{key_of, key, is_before, is_below, is_same, pairwise};
ghost use Rattle.git_trees.specs.Seen.{has_name};
ghost use Rattle.git_trees.specs.Reading.{is_none_or, last_of, placed_at};

use crate::compare::{is_below, is_below_name, is_same};
use crate::entry::TreeEntry;
use crate::fault::TreeFault;

/// Whether the entry doesn't belong before the last one.
fn is_behind(earlier: &[TreeEntry], found: &TreeEntry) -> bool
    ensures { result ≡ is_none_or (λ b. is_below b found.now || is_same b found.now) (last_of earlier.now) }
{
    match earlier.last() {
        Some(before) => is_below(before, found) || is_same(before, found),
        None => true,
    }
}

/// How many entries belong before one of this name. They are found by halving.
fn place_of(earlier: &[TreeEntry], name: &[u8], folder: bool) -> usize
    requires { pairwise is_below earlier.now ≡ true }
    ensures { result ≡ prefix_len (λ b. is_before (key b) (key_of folder name.now)) earlier.now }
{
    earlier.partition_point(|b| is_below_name(b, name, folder))
}

/// Whether the entry at this place, if there is one, has the same name.
fn has_name(earlier: &[TreeEntry], place: usize, found: &TreeEntry) -> bool
    ensures { result ≡ has_name found.now (slice_get earlier.now place) }
{
    match earlier.get(place) {
        Some(before) => is_same(before, found),
        None => false,
    }
}

/// Whether an earlier entry has the same name. It can stand in two places: that of a file and that of a folder.
fn has_twin(earlier: &[TreeEntry], found: &TreeEntry) -> bool
    requires { pairwise is_below earlier.now ≡ true }
    ensures { result ≡ list_any (λ b. is_same b found.now) earlier.now }
{
    let name = found.name.as_slice();
    let as_file = has_name(earlier, place_of(earlier, name, false), found);
    let as_folder = has_name(earlier, place_of(earlier, name, true), found);
    as_file || as_folder
}

/// Puts an entry after the earlier ones, of which there are k.
#[tactic(auto, unfolding(crate::specs::Reading::placed_at))]
pub fn place(k: u32, found: TreeEntry, entries: &mut Vec<TreeEntry>) -> Result<(), TreeFault>
    requires count { length entries.old.items ≡ k }
    requires rising { pairwise is_below entries.old.items ≡ true }
    ensures placed { OnOk result (placed_at entries.old.items found ≡ Ok found) }
    ensures grown { OnOk result (entries.new.items ≡ entries.old.items ++ found ∷ []) }
    // Which fault it is.
    ensures refused { IfErr result (λ f. (f ≡ TreeFault.NoMemory → ⊥)
        → placed_at entries.old.items found ≡ Err f) }
{
    if !is_behind(entries, &found) {
        return Err(TreeFault::Order(k));
    }
    if has_twin(entries, &found) {
        return Err(TreeFault::Twice(k));
    }
    entries.push(found)?;
    Ok(())
}
