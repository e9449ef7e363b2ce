//! A name's place among the sorted names.
// A name is found by halving, and a place by skipping others.
ghost use Rattle.std.specs.Prelude.{◌≡◌, ◌≢◌, ◌≤◌, ◌<◌, ℕ, true, false, length, slice_get};
ghost use Rattle.std.specs.Prelude.{Some, MatchBool, MatchOption};
ghost use Rattle.std.specs.List.Sorted.{IsPartitionPoint};
ghost use Rattle.delay_table.specs.Table.{IsRising, is_pending, stands_before};

use crate::place::Place;
use byte_path::Bytes;

/// Whether a name comes before this one.
fn is_before(other: &Bytes, name: &[u8]) -> bool
    ensures { result ≡ stands_before other.now name.now }
{
    other.as_slice().cmp(name).is_lt()
}

/// Whether the two names are equal.
fn is_same(other: &Bytes, name: &[u8]) -> bool
    ensures { MatchBool result (other.now ≡ name.now) (other.now ≢ name.now) }
{
    other.as_slice() == name
}

/// How many names come before this one.
fn before(names: &[Bytes], name: &[u8]) -> usize
    requires { IsRising names.now }
    ensures within { result ≤ length names.now }
    ensures point { IsPartitionPoint
        (λ n. stands_before n name.now ≡ true) (λ n. stands_before n name.now ≡ false)
        names.now result }
{
    names.partition_point(|other| is_before(other, name))
}

/// The place of the name, or `None` exactly if it has none.
pub(crate) fn place_of(names: &[Bytes], name: &[u8]) -> Option<usize>
    requires { IsRising names.now }
    ensures { MatchOption result
        ((p : ℕ) → ¬ (slice_get names.now p ≡ Some name.now))
        (λ p. slice_get names.now p ≡ Some name.now) }
{
    let at = before(names, name);
    if at == names.len() {
        return None;
    }
    if is_same(&names[at], name) {
        Some(at)
    } else {
        None
    }
}

/// The first place from `from` on that is delayed or listed, or the number of places if none is.
pub(crate) fn first_pending(places: &[Place], from: usize) -> usize
    requires { from ≤ length places.now }
    ensures within { result ≤ length places.now }
    ensures up { from ≤ result }
    ensures none { (q : ℕ) → from ≤ q → q < result → is_pending (slice_get places.now q) ≡ false }
    ensures there { result < length places.now → is_pending (slice_get places.now result) ≡ true }
{
    let mut at = from;
    while at < places.len() && !places[at].is_pending() {
        at += 1;
    }
    at
}
