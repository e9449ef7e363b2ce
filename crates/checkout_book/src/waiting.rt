// Which paths have a card that waits.
ghost use Rattle.std.specs.Prelude.{◌≡◌, ◌+◌, ◌<◌, ◌≤◌, ◌^◌, [], ℕ, true, false, Some, length, slice_get, slice_set};
ghost use Rattle.std.specs.Prelude.{IfSome, IfNone, IfOk, MatchOption};
ghost use Rattle.std.specs.BinaryHeap.{heap_items, heap_capacity};
ghost use Rattle.checkout_book.specs.Waitings.{IsLowest, NoneIs, IsKept};

use std::alloc::{AllocError, Global};
use std::collections::BinaryHeap;
use std::marker::Model;

/// A flag for each path, whether its card waits. It gives the lowest that does.
#[derive(Drop)]
pub struct Waiting {
    flags: Vec<bool>,
    /// The first path that was never looked at. It never goes back.
    next: u32,
    /// The paths below it that wait again, each taken from the highest `u32`, so that the lowest comes first.
    /// There is room for one of each path.
    returned: BinaryHeap<u32>,
}

impl Model for Waiting {
    ghost use Rattle.std.specs.Prelude.{◌≤◌, Bool, List, length};
    ghost use Rattle.std.specs.BinaryHeap.{heap_items, heap_capacity};
    ghost use Rattle.checkout_book.specs.Waitings.{IsKept};

    ghost Value = { List Bool };

    ghost view = { λ s. s.flags.items };

    ghost invariant = { λ s. IsKept s.flags.items s.next (heap_items s.returned)
        × (length s.flags.items ≤ heap_capacity s.returned) };
}

/// The first flag from this place on that is set, or the number of flags.
fn first_from(flags: &[bool], from: u32) -> u32
    requires few { length flags.now < 2 ^ 32 }
    requires within { from ≤ length flags.now }
    ensures range { (from ≤ result) × (result ≤ length flags.now) }
    ensures before { (p : ℕ) → from ≤ p → p < result → slice_get flags.now p ≡ Some false }
    ensures found { result < length flags.now → slice_get flags.now result ≡ Some true }
{
    let end = flags.len() as u32;
    for at in from..end {
        if flags[at as usize] {
            return at;
        }
    }
    end
}

/// The lowest of the paths that wait again.
fn pop_returned(flags: &[bool], next: u32, returned: &mut BinaryHeap<u32>) -> Option<u32>
    requires { IsKept flags.now next (heap_items returned.old) }
    ensures capacity { heap_capacity returned.new ≡ heap_capacity returned.old }
    ensures none { IfNone result (IsKept flags.now next (heap_items returned.new)
        × (heap_items returned.new ≡ [])) }
    ensures some { IfSome result (λ p. (p < next) × IsLowest flags.now p
        × IsKept (slice_set flags.now p false) next (heap_items returned.new)) }
{
    while let Some(key) = returned.pop() {
        let path = u32::MAX - key;
        if flags[path as usize] {
            return Some(path);
        }
    }
    None
}

impl Waiting {
    /// These flags, of fewer than 2^32 paths. It takes room for all of them to wait again.
    pub(crate) fn reserve(alloc: Global, flags: Vec<bool>) -> Result<Waiting, AllocError>
        requires { length flags.items < 2 ^ 32 }
        ensures { IfOk result (λ w. w ≡ flags.items) }
    {
        let returned = BinaryHeap::with_capacity(alloc, flags.len())?;
        Ok(Waiting {
            flags,
            next: 0,
            returned,
        })
    }

    /// Takes the lowest path that waits, or answers `None` where none does.
    pub(crate) fn take_lowest(&mut self) -> Option<u32>
        ensures none { IfNone result ((self.new ≡ self.old) × NoneIs self.old) }
        ensures some { IfSome result (λ p. IsLowest self.old p × (self.new ≡ slice_set self.old p false)) }
    {
        if let Some(path) = pop_returned(self.flags.as_slice(), self.next, &mut self.returned) {
            self.flags[path as usize] = false;
            return Some(path);
        }
        let found = first_from(self.flags.as_slice(), self.next);
        self.next = found;
        if found as usize == self.flags.len() {
            return None;
        }
        self.flags[found as usize] = false;
        Some(found)
    }

    /// Has a path that doesn't wait wait again. It takes no memory.
    pub(crate) fn put_back(&mut self, path: u32)
        requires { slice_get self.old path ≡ Some false }
        ensures { self.new ≡ slice_set self.old path true }
    {
        self.flags[path as usize] = true;
        if path >= self.next {
            return;
        }
        // Those that are returned are fewer than the paths below `next`, so there is room.
        let Ok(()) = self.returned.push(u32::MAX - path) else {
            unreachable!()
        };
    }
}
