//! The order of a tree's entries.
ghost use Rattle.std.specs.Prelude.{◌≡◌, ◌≤◌, ◌⊎◌, ◌||◌, length, slice_get};
ghost use Rattle.std.specs.Ordering.{nat_cmp};
ghost use Rattle.std.specs.Cmp.Lexicographic.{slice_cmp};
ghost use Rattle.git_trees.specs.Format.{is_folder, key_of, key, is_before, is_below, is_same};
ghost use Rattle.git_trees.specs.Seen.{by_front};

use crate::entry::{TreeEntry, TreeMode};
use std::cmp::Ordering;

/// Whether an entry of this mode is another tree.
pub fn is_folder(mode: TreeMode) -> bool
    ensures { result ≡ is_folder mode }
{
    match mode {
        TreeMode::Folder => true,
        TreeMode::Plain | TreeMode::Executable | TreeMode::Link | TreeMode::Gitlink => false,
    }
}

/// The first byte of the key of a name.
fn front_of(name: &[u8], folder: bool) -> Option<u8>
    ensures { result ≡ slice_get (key_of folder name.now) 0 }
{
    match name.first() {
        Some(b) => Some(*b),
        None if folder => Some(b'/'),
        None => None,
    }
}

/// How many bytes the key of a name has. It is no number beyond `usize`, since a name leaves room for a slash.
fn key_len(name: &[u8], folder: bool) -> usize
    ensures { result ≡ length (key_of folder name.now) }
{
    if folder { name.len() + 1 } else { name.len() }
}

/// The order of texts, of which one has a byte at most, by their first bytes and their lengths.
fn by_front(front: Option<u8>, len: usize, other: Option<u8>, other_len: usize) -> Ordering
    ensures { result ≡ by_front front len other other_len }
{
    let lens = len.cmp(&other_len);
    match (front, other) {
        (Some(b), Some(c)) => match b.cmp(&c) {
            Ordering::Equal => lens,
            Ordering::Less => Ordering::Less,
            Ordering::Greater => Ordering::Greater,
        },
        _ => lens,
    }
}

/// The order of the keys of names, of which one is empty.
fn rest_cmp(name: &[u8], folder: bool, other: &[u8], other_folder: bool) -> Ordering
    requires { (length name.now ≡ 0) ⊎ (length other.now ≡ 0) }
    ensures { result ≡ slice_cmp nat_cmp (key_of folder name.now) (key_of other_folder other.now) }
{
    let front = front_of(name, folder);
    let other_front = front_of(other, other_folder);
    by_front(
        front,
        key_len(name, folder),
        other_front,
        key_len(other, other_folder),
    )
}

/// The order of the keys of two names.
fn key_cmp(name: &[u8], folder: bool, other: &[u8], other_folder: bool) -> Ordering
    ensures { result ≡ slice_cmp nat_cmp (key_of folder name.now) (key_of other_folder other.now) }
{
    let shared = name.len().min(other.len());
    let (front, rest) = name.split_at(shared);
    let (other_front, other_rest) = other.split_at(shared);
    match front.cmp(other_front) {
        Ordering::Equal => rest_cmp(rest, folder, other_rest, other_folder),
        Ordering::Less => Ordering::Less,
        Ordering::Greater => Ordering::Greater,
    }
}

/// Whether an entry belongs before one of this name.
pub fn is_below_name(entry: &TreeEntry, name: &[u8], folder: bool) -> bool
    ensures { result ≡ is_before (key entry.now) (key_of folder name.now) }
{
    match key_cmp(entry.name.as_slice(), is_folder(entry.mode), name, folder) {
        Ordering::Less => true,
        Ordering::Equal | Ordering::Greater => false,
    }
}

/// Whether an entry belongs before another.
pub fn is_below(entry: &TreeEntry, other: &TreeEntry) -> bool
    ensures { result ≡ is_below entry.now other.now }
{
    is_below_name(entry, other.name.as_slice(), is_folder(other.mode))
}

/// Whether two entries have one name.
pub fn is_same(entry: &TreeEntry, other: &TreeEntry) -> bool
    ensures { result ≡ is_same entry.now other.now }
{
    entry.name.as_slice() == other.name.as_slice()
}
