//! Up to 32 values, first in, first out.
ghost use Rattle.std.specs.Prelude.{◌≡◌, ◌<◌, ◌+◌, [], ◌∷◌, ◌++◌, true, None, length, option_to_list, slice_index_or, slice_set};
ghost use Rattle.card_worker.specs.Fews.{HasRoom, items, items_from};

use std::alloc::Global;
use std::mem::replace;

/// How many values there are at most.
pub(crate) const ROOM: usize = 32;

/// Up to 32 values. None of its calls but the first takes memory.
#[derive(Drop)]
pub(crate) struct Few<T> {
    pub slots: Vec<Option<T>>,
}

impl<T: Drop> Few<T> {
    /// None, with room for 32. If memory ran out there is room for none.
    pub fn with_room(alloc: Global) -> Few<T>
        ensures { items result ≡ [] }
    {
        match Vec::with_capacity(alloc, ROOM) {
            Ok(slots) => Few { slots },
            Err(_) => Few::without_room(alloc),
        }
    }

    /// None, with room for none.
    pub fn without_room(alloc: Global) -> Few<T>
        ensures { items result ≡ [] }
    {
        Few {
            slots: Vec::new(alloc),
        }
    }

    /// How many there are, with those that were taken.
    pub fn len(&self) -> usize
        ensures { result ≡ length self.now.slots.items }
    {
        self.slots.len()
    }

    /// Whether there is none.
    pub fn is_empty(&self) -> bool
        ensures { result ≡ true → items self.now ≡ [] }
    {
        self.slots.is_empty()
    }

    /// Whether there is room behind the others for one more.
    pub fn has_room(&self) -> bool
        ensures { result ≡ true → HasRoom self.now }
    {
        self.slots.len() < self.slots.capacity().min(ROOM)
    }

    /// Puts one more behind the others.
    pub fn push(&mut self, value: T)
        requires { HasRoom self.old }
        ensures { items self.new ≡ items self.old ++ value ∷ [] }
    {
        let Ok(()) = self.slots.push(Some(value)) else {
            unreachable!()
        };
    }

    /// Takes what a slot holds.
    fn take_slot(&mut self, place: usize) -> Option<T>
        requires { place < length self.old.slots.items }
        ensures value { result ≡ slice_index_or self.old.slots.items place None }
        ensures slots { self.new.slots.items ≡ slice_set self.old.slots.items place None }
    {
        replace(&mut self.slots[place], None)
    }

    /// Takes the value at a place, if it is there.
    pub fn take(&mut self, place: usize) -> Option<T>
        ensures len { length self.new.slots.items ≡ length self.old.slots.items }
        ensures rest { items_from place self.old ≡ option_to_list result ++ items_from (place + 1) self.new }
    {
        if place < self.slots.len() {
            return self.take_slot(place);
        }
        None
    }

    /// Lets all go, and keeps the room.
    pub fn clear(&mut self)
        ensures { items self.new ≡ [] }
    {
        self.slots.clear();
    }
}
