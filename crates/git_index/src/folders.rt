//! The paths of stage 0 that a later path may lie in.
ghost use Rattle.std.specs.Prelude.{◌≡◌, ◌++◌, ◌∷◌, [], true, IfOk, OnOk};
ghost use Rattle.git_index.specs.Spelling.{is_in_folder};
ghost use Rattle.git_index.specs.Folders.{path_at, paths, are_numbers, Closes, Opens};

use crate::entry::Entry;
use std::alloc::AllocError;

fn is_in_folder(folder: &[u8], path: &[u8]) -> bool
    ensures { result ≡ is_in_folder folder.now path.now }
{
    path.starts_with(folder) && folder.len() < path.len() && path[folder.len()] == b'/'
}

/// The path of the entry with this number.
fn path_of(entries: &[Entry], number: usize) -> &[u8]
    ensures { result.now ≡ path_at entries.now number }
{
    match entries.get(number) {
        Some(entry) => entry.path.as_slice(),
        None => &[],
    }
}

/// Closes what this path does not begin with, and returns whether what is then on top is a folder of it.
///
/// Each path is opened and closed once, so all entries together cost no more than the bytes of their paths.
fn close_before(entries: &[Entry], stack: &mut Vec<usize>, path: &[u8]) -> bool
    ensures closed { Closes path.now (paths entries.now stack.old.items) (paths entries.now stack.new.items) result }
    ensures known { are_numbers entries.now stack.old.items ≡ true → are_numbers entries.now stack.new.items ≡ true }
{
    while let Some(last) = stack.last() {
        let open = path_of(entries, *last);
        if path.starts_with(open) {
            return is_in_folder(open, path);
        }
        stack.pop();
    }
    false
}

/// Opens the path of an entry of stage 0, which comes after these entries, unless an open path is a folder of it.
/// Returns whether one is.
pub fn open_path(
    entries: &[Entry],
    stack: &mut Vec<usize>,
    found: &Entry,
) -> Result<bool, AllocError>
    requires { are_numbers entries.now stack.old.items ≡ true }
    ensures opens { IfOk result (Opens found.now (paths entries.now stack.old.items)
        (paths (entries.now ++ found.now ∷ []) stack.new.items)) }
    ensures known { OnOk result (are_numbers (entries.now ++ found.now ∷ []) stack.new.items ≡ true) }
{
    if found.stage != 0 {
        return Ok(false);
    }
    if close_before(entries, stack, found.path.as_slice()) {
        return Ok(true);
    }
    stack.push(entries.len())?;
    Ok(false)
}
