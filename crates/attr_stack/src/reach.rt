//! The pairs that reach a path.
ghost use Rattle.std.specs.Prelude.{◌≡◌, ◌<◌, ◌++◌, OnOk, length, reverse};
ghost use Rattle.attr_stack.specs.Pairs.{row_pairs, file_pairs, folder_pairs, pairs_ending, pairs_of};
ghost use Rattle.attr_stack.specs.Seen.{from_end};

use crate::files::AttrFiles;
use crate::open_file::{OpenFile, open_file_of};
use attr_line::{AttrFile, AttrRow, Pair};
use std::alloc::AllocError;
use wild_match::matches;

/// Pairs to be read before those that wait, the last first.
fn push_pairs<'a>(pending: &mut Vec<&'a Pair>, pairs: &'a [Pair]) -> Result<(), AllocError>
    ensures { OnOk result (from_end pending.new.items ≡ reverse pairs.now ++ from_end pending.old.items) }
{
    for pair in pairs {
        pending.push(pair)?;
    }
    Ok(())
}

/// The pairs of a row whose pattern matches.
fn push_row<'a>(
    pending: &mut Vec<&'a Pair>,
    row: &'a AttrRow,
    path: &[u8],
) -> Result<(), AllocError>
    ensures { OnOk result (from_end pending.new.items ≡ row_pairs path.now row.now ++ from_end pending.old.items) }
{
    match row {
        AttrRow::Rule { pattern, pairs } if matches(pattern.as_slice(), path) => {
            push_pairs(pending, pairs.as_slice())
        }
        _ => Ok(()),
    }
}

/// The pairs of a file, for a path in its folder.
fn push_file<'a>(
    pending: &mut Vec<&'a Pair>,
    file: &'a AttrFile,
    path: &[u8],
) -> Result<(), AllocError>
    ensures { OnOk result (from_end pending.new.items ≡ file_pairs path.now file.now ++ from_end pending.old.items) }
{
    let rows = file.rows.as_slice();
    for row in rows {
        push_row(pending, row, path)?;
    }
    Ok(())
}

/// The pairs that the file of a folder gives to a path, which the folder holds under the name `inner`.
fn push_folder<'a>(
    pending: &mut Vec<&'a Pair>,
    files: &'a [OpenFile],
    folder: &[u8],
    inner: &[u8],
) -> Result<(), AllocError>
    ensures { OnOk result (from_end pending.new.items ≡ folder_pairs files.now folder.now inner.now
        ++ from_end pending.old.items) }
{
    match open_file_of(files, folder) {
        Some(file) => push_file(pending, file, inner),
        None => Ok(()),
    }
}

/// The pairs of the folder whose name ends at a place of a path, if one does.
fn push_ending<'a>(
    pending: &mut Vec<&'a Pair>,
    files: &'a [OpenFile],
    path: &[u8],
    place: usize,
) -> Result<(), AllocError>
    requires { place < length path.now }
    ensures { OnOk result (from_end pending.new.items ≡ pairs_ending files.now path.now place
        ++ from_end pending.old.items) }
{
    if place == 0 || path[place] != b'/' {
        return Ok(());
    }
    let (folder, _) = path.split_at(place);
    let (_, inner) = path.split_at(place + 1);
    push_folder(pending, files, folder, inner)
}

/// All pairs of a path, whose folders' files were opened. The last is read first.
pub fn push_all<'a>(
    pending: &mut Vec<&'a Pair>,
    files: &'a AttrFiles,
    folders: &'a [OpenFile],
    path: &[u8],
) -> Result<(), AllocError>
    requires { folders.now ≡ files.now.files }
    ensures { OnOk result (from_end pending.new.items ≡ pairs_of files.now path.now ++ from_end pending.old.items) }
{
    push_file(pending, &files.base, path)?;
    push_folder(pending, folders, b"", path)?;
    for place in 0..path.len() {
        push_ending(pending, folders, path, place)?;
    }
    push_file(pending, &files.info, path)?;
    Ok(())
}
