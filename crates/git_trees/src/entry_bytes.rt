//! One entry, as its bytes are in the tree.
ghost use Rattle.std.specs.Prelude.{◌≡◌, ◌<◌, ◌≤◌, length};
ghost use Rattle.git_trees.specs.Reading.{Gives, entry_at, spaced_at, moded_at, named_at, mode_fault};
ghost use Rattle.git_trees.specs.Seen.{found_of};

use crate::entry::{TreeEntry, TreeMode};
use crate::fault::{NameKind, TreeFault};
use crate::field::{begins_mode, first_space, mode_of, name_end, object_of};
use byte_path::{Bytes, check_path};
use std::alloc::Global;

/// An entry, and the bytes after it.
#[derive(Drop)]
pub struct FoundEntry<'a> {
    pub entry: TreeEntry,
    pub rest: &'a [u8],
}

/// The entry of this mode and this name, before what ends the name.
#[tactic(auto, unfolding(crate::specs::Reading::named_at))]
fn named_of<'a>(
    alloc: Global,
    k: u32,
    mode: TreeMode,
    name: &[u8],
    tail: &'a [u8],
) -> Result<FoundEntry<'a>, TreeFault>
    requires { 0 < length tail.now }
    ensures { Gives found_of result (named_at k mode name.now tail.now) }
{
    if tail[0] == b'/' {
        return Err(TreeFault::Name(k, NameKind::Slash));
    }
    if let Err(fault) = check_path(name) {
        return Err(TreeFault::Name(k, NameKind::Part(fault)));
    }
    if tail.len() < 21 {
        return Err(TreeFault::Short(k));
    }
    let (_, rest) = tail.split_at(21);
    let name = Bytes::copy_of(alloc, name)?;
    let object = object_of(tail);
    Ok(FoundEntry {
        entry: TreeEntry { mode, name, object },
        rest,
    })
}

/// The entry of this mode, before its name.
#[tactic(auto, unfolding(crate::specs::Reading::moded_at))]
fn moded_of<'a>(
    alloc: Global,
    k: u32,
    mode: TreeMode,
    text: &'a [u8],
) -> Result<FoundEntry<'a>, TreeFault>
    ensures { Gives found_of result (moded_at k mode text.now) }
{
    let Some(n) = name_end(text) else {
        return Err(TreeFault::Short(k));
    };
    let (name, tail) = text.split_at(n);
    named_of(alloc, k, mode, name, tail)
}

/// The entry whose mode is spelled so, before the space.
#[tactic(auto, unfolding(crate::specs::Reading::spaced_at))]
fn spaced_of<'a>(
    alloc: Global,
    k: u32,
    digits: &[u8],
    tail: &'a [u8],
) -> Result<FoundEntry<'a>, TreeFault>
    requires { 0 < length tail.now }
    ensures { Gives found_of result (spaced_at k digits.now tail.now) }
{
    let Some(mode) = mode_of(digits) else {
        return Err(TreeFault::Mode(k));
    };
    let (_, text) = tail.split_at(1);
    moded_of(alloc, k, mode, text)
}

/// What is wrong with bytes without a space.
fn mode_fault(k: u32, bytes: &[u8]) -> TreeFault
    ensures { result ≡ mode_fault k bytes.now }
{
    if begins_mode(bytes) {
        return TreeFault::Short(k);
    }
    TreeFault::Mode(k)
}

/// The entry of this number at the front of the bytes.
#[tactic(auto, unfolding(crate::specs::Reading::entry_at))]
pub fn entry_of<'a>(alloc: Global, k: u32, bytes: &'a [u8]) -> Result<FoundEntry<'a>, TreeFault>
    ensures { Gives found_of result (entry_at k bytes.now) }
{
    let Some(n) = first_space(bytes) else {
        return Err(mode_fault(k, bytes));
    };
    let (digits, tail) = bytes.split_at(n);
    spaced_of(alloc, k, digits, tail)
}
