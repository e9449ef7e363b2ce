//! The last part of an entry, which has its path.
ghost use Rattle.std.specs.Prelude.{◌≡◌, ◌≤◌, ◌^◌, ◌-◌, ℕ, length, min, IfOk, MatchOption, None, Some};
ghost use Rattle.git_index.specs.Reading.{seen_by, count_at, sized_at, path_at, changed_at, prefixed_at, part_at};
ghost use Rattle.git_index.specs.Seen.{path_and_rest, joined_path};

use crate::fault::{EntryKind, IndexFault};
use crate::field::{first_nul, has_no_nul, is_zero, length_of};
use crate::version::Version;
use byte_path::Bytes;
use std::alloc::{AllocError, Global};

/// What is known before an entry is read.
#[derive(Clone, Copy)]
pub struct Before<'a> {
    pub version: Version,
    /// The path of the entry before, or nothing before the first one.
    pub path: &'a [u8],
}

/// A path as its entry spells it: so many bytes of the path before, and what is added to them. Then come other bytes.
#[derive(Clone, Copy)]
pub struct PathPart<'a> {
    pub kept: usize,
    pub added: &'a [u8],
    pub rest: &'a [u8],
}

#[tactic(auto, unfolding(crate::specs::Reading::sized_at))]
fn sized_of<'a>(
    k: u32,
    head: usize,
    told: usize,
    len: usize,
    tail: &'a [u8],
) -> Result<(&'a [u8], &'a [u8]), IndexFault>
    requires { head ≤ 64 }
    ensures { seen_by (λ x. (x.0.now, x.1.now)) result ≡ sized_at k head told len tail.now }
{
    if tail.len() < len {
        return Err(IndexFault::Short);
    }
    let (path, after) = tail.split_at(len);
    let pad = 8 - (head + len) % 8;
    if after.len() < pad {
        return Err(IndexFault::Short);
    }
    let (padding, rest) = after.split_at(pad);
    if len < told {
        return Err(IndexFault::Entry(k, EntryKind::Name));
    }
    if !has_no_nul(path) {
        return Err(IndexFault::Entry(k, EntryKind::Name));
    }
    if !is_zero(padding) {
        return Err(IndexFault::Entry(k, EntryKind::Padding));
    }
    Ok((path, rest))
}

/// In versions 2 and 3 the path stands whole, with NULs up to a multiple of eight.
#[tactic(auto, unfolding(crate::specs::Reading::path_at))]
fn path_of<'a>(
    k: u32,
    head: usize,
    told: usize,
    tail: &'a [u8],
) -> Result<(&'a [u8], &'a [u8]), IndexFault>
    requires { head ≤ 64 }
    ensures { seen_by (λ x. (x.0.now, x.1.now)) result ≡ path_at k head told tail.now }
{
    match length_of(told, tail) {
        Some(len) => sized_of(k, head, told, len, tail),
        None => Err(IndexFault::Short),
    }
}

/// The number at the front in bytes of seven bits, or 2^64 - 1 where it is larger, and the bytes after it. `None` where
/// it doesn't end.
fn count_of(bytes: &[u8]) -> Option<(u64, &[u8])>
    ensures { MatchOption result (count_at 0 bytes.now ≡ None)
        (λ x. (n : ℕ) × (count_at 0 bytes.now ≡ Some (n, x.1.now)) × (x.0 ≡ min n (2 ^ 64 - 1))) }
{
    let mut carry = 0u64;
    let mut rest = bytes;
    while let Some((byte, after)) = rest.split_first() {
        let shifted = carry.saturating_mul(128);
        if *byte < 128 {
            return Some((shifted.saturating_add(*byte as u64), after));
        }
        carry = shifted.saturating_add((*byte - 127) as u64);
        rest = after;
    }
    None
}

/// What follows the number in version 4, where so many bytes are kept of the path before.
#[tactic(auto, unfolding(crate::specs::Reading::changed_at))]
fn changed_of<'a>(
    k: u32,
    told: usize,
    last: &[u8],
    cut: u64,
    tail: &'a [u8],
) -> Result<PathPart<'a>, IndexFault>
    ensures value { (n : ℕ) → cut ≡ min n (2 ^ 64 - 1)
        → seen_by (path_and_rest last.now) result ≡ changed_at k told last.now (n, tail.now) }
    ensures within { IfOk result (λ p. p.kept ≤ length last.now) }
{
    if cut > last.len() as u64 {
        return Err(IndexFault::Entry(k, EntryKind::Prefix));
    }
    let kept = last.len() - cut as usize;
    let Some(len) = first_nul(tail) else {
        return Err(IndexFault::Short);
    };
    let (added, after) = tail.split_at(len);
    if told != (kept + len).min(4095) {
        return Err(IndexFault::Entry(k, EntryKind::Name));
    }
    let (_, rest) = after.split_at(1);
    Ok(PathPart { kept, added, rest })
}

/// In version 4 the path is the one before without so many bytes at its end, and with what is added up to a NUL.
#[tactic(auto, unfolding(crate::specs::Reading::prefixed_at))]
fn prefixed_of<'a>(
    k: u32,
    told: usize,
    last: &[u8],
    tail: &'a [u8],
) -> Result<PathPart<'a>, IndexFault>
    ensures value { seen_by (path_and_rest last.now) result ≡ prefixed_at k told last.now tail.now }
    ensures within { IfOk result (λ p. p.kept ≤ length last.now) }
{
    match count_of(tail) {
        Some((cut, after)) => changed_of(k, told, last, cut, after),
        None => Err(IndexFault::Short),
    }
}

fn whole_of<'a>(
    k: u32,
    head: usize,
    told: usize,
    last: &[u8],
    tail: &'a [u8],
) -> Result<PathPart<'a>, IndexFault>
    requires { head ≤ 64 }
    ensures value { seen_by (path_and_rest last.now) result ≡ path_at k head told tail.now }
    ensures within { IfOk result (λ p. p.kept ≤ length last.now) }
{
    match path_of(k, head, told, tail) {
        Ok((added, rest)) => Ok(PathPart {
            kept: 0,
            added,
            rest,
        }),
        Err(fault) => Err(fault),
    }
}

/// The path at the front of what follows the fixed part of an entry, which has this length.
pub fn part_of<'a>(
    before: &Before,
    k: u32,
    head: usize,
    told: usize,
    tail: &'a [u8],
) -> Result<PathPart<'a>, IndexFault>
    requires { head ≤ 64 }
    ensures value { seen_by (path_and_rest before.now.path.now) result
        ≡ part_at before.now.version k head before.now.path.now told tail.now }
    ensures within { IfOk result (λ p. p.kept ≤ length before.now.path.now) }
{
    match before.version {
        Version::Two => whole_of(k, head, told, before.path, tail),
        Version::Three => whole_of(k, head, told, before.path, tail),
        Version::Four => prefixed_of(k, told, before.path, tail),
    }
}

/// The path in bytes of its own. Each byte is copied once.
pub fn joined_path(alloc: Global, last: &[u8], part: &PathPart) -> Result<Bytes, AllocError>
    requires { part.now.kept ≤ length last.now }
    ensures { IfOk result (λ path. path ≡ joined_path last.now part.now) }
{
    let mut path = Vec::with_capacity(alloc, part.kept + part.added.len())?;
    path.extend_from_slice(&last[..part.kept])?;
    path.extend_from_slice(part.added)?;
    Ok(Bytes::from_vec(path))
}
