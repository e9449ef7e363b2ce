//! The bytes of an entry's path.
ghost use Rattle.std.specs.Prelude.{◌≡◌, ◌++◌, ◌∷◌, ◌<◌, ◌≤◌, [], length, drop, OnOk};
ghost use Rattle.git_index.specs.Spelling.{is_flagged, head_length, padding, path_part, written, no_stat};
ghost use Rattle.git_index.specs.Spelling.{common, count_bytes, cut_off};

use crate::entry::Entry;
use crate::path_part::Before;
use crate::version::Version;
use std::alloc::AllocError;

/// Whether the entry needs the 16 more bits.
pub fn is_flagged(entry: &Entry) -> bool
    ensures { result ≡ is_flagged entry.now }
{
    entry.sparse || entry.intent
}

/// The length of the fixed part.
fn head_length_of(entry: &Entry) -> usize
    ensures { result ≡ head_length (is_flagged entry.now) }
{
    if is_flagged(entry) { 64 } else { 62 }
}

/// How many bytes two paths have in common at their front.
fn common_length(last: &[u8], path: &[u8]) -> usize
    ensures value { result ≡ common last.now path.now }
    ensures in_last { result ≤ length last.now }
    ensures in_path { result ≤ length path.now }
{
    let mut same = 0usize;
    while same < last.len() && same < path.len() && last[same] == path[same] {
        same += 1;
    }
    same
}

/// A number by seven bits.
fn push_count(text: &mut Vec<u8>, number: usize) -> Result<(), AllocError>
    requires { number < 16512 }
    ensures { OnOk result (text.new.items ≡ text.old.items ++ count_bytes number) }
{
    if number < 128 {
        return text.extend_from_slice(&[number as u8]);
    }
    text.extend_from_slice(&[(127 + number / 128) as u8, (number % 128) as u8])
}

/// The path whole, and NULs up to a multiple of eight.
fn push_whole(text: &mut Vec<u8>, entry: &Entry) -> Result<(), AllocError>
    ensures { OnOk result (text.new.items ≡ text.old.items
        ++ path_part Version.Three [] (written [] no_stat entry.now)) }
{
    let path = entry.path.as_slice();
    text.extend_from_slice(path)?;
    text.extend_from_slice(&[0; 8][..8 - (head_length_of(entry) + path.len()) % 8])?;
    Ok(())
}

/// The path as what it changes in the one before, and a NUL.
fn push_changed(text: &mut Vec<u8>, last: &[u8], entry: &Entry) -> Result<(), AllocError>
    requires { length last.now ≤ 4096 }
    ensures { OnOk result (text.new.items ≡ text.old.items
        ++ path_part Version.Four last.now (written last.now no_stat entry.now)) }
{
    let path = entry.path.as_slice();
    let same = common_length(last, path);
    push_count(text, last.len() - same)?;
    let (_, added) = path.split_at(same);
    text.extend_from_slice(added)?;
    text.extend_from_slice(&[0])?;
    Ok(())
}

/// The path's part of an entry after one with this path.
pub fn push_path(text: &mut Vec<u8>, before: &Before, entry: &Entry) -> Result<(), AllocError>
    requires { length before.now.path.now ≤ 4096 }
    ensures { OnOk result (text.new.items ≡ text.old.items
        ++ path_part before.now.version before.now.path.now (written before.now.path.now no_stat entry.now)) }
{
    match before.version {
        Version::Two => push_whole(text, entry),
        Version::Three => push_whole(text, entry),
        Version::Four => push_changed(text, before.path, entry),
    }
}
