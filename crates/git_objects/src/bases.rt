//! The objects that deltas were made of, kept for the next ones.
ghost use Rattle.std.specs.Prelude.{◌≡◌, ◌≤◌};
ghost use Rattle.git_objects.specs.Costs.{object_cost, whole_cost};

use crate::shared_object::SharedObject;
use lru::LruCache;
use std::alloc::{AllocError, Global};

/// Where an entry is: the number of its pack and where it begins there.
#[derive(Clone, Copy, PartialEq, Eq, Hash)]
pub struct Spot {
    pub pack: u64,
    pub offset: u64,
}

/// What an object costs beside its bytes.
const COST: u64 = 256;

/// The bases that were used last. What they cost comes to at most a limit.
#[derive(Drop)]
pub struct Bases {
    kept: LruCache<Spot, SharedObject>,
    limit: u64,
    // what they cost together
    cost: u64,
    ghost counted: { whole_cost kept.entries ≤ cost },
    ghost within: { cost ≤ limit },
}

/// What an object costs.
fn cost_of(object: &SharedObject) -> u64
    ensures { result ≡ object_cost object.now }
{
    object.get().content.len() as u64 + COST
}

impl Bases {
    /// None yet. They are to cost no more than this.
    pub fn new(alloc: Global, limit: u64) -> Result<Bases, AllocError> {
        Ok(Bases {
            kept: LruCache::unbounded(alloc)?,
            limit,
            cost: 0,
        })
    }

    /// Takes out the object at a spot, if it is kept.
    fn take(&mut self, spot: Spot) -> Option<SharedObject> {
        let object = self.kept.pop(&spot)?;
        self.cost -= cost_of(&object);
        Some(object)
    }

    /// The object at a spot, if it is kept. It is then the one that was used last.
    pub fn find(&mut self, spot: Spot) -> Option<SharedObject> {
        let object = self.take(spot)?;
        let found = object.share();
        self.keep(spot, object);
        found.ok()
    }

    /// Keeps an object as the one that was used last, and drops others if they come to too much. One that is too large,
    /// or for which there is no memory, isn't kept.
    pub fn keep(&mut self, spot: Spot, object: SharedObject) {
        let cost = cost_of(&object);
        if cost > self.limit || self.kept.contains(&spot) {
            return;
        }
        self.make_room(cost);
        let whole = match self.cost.checked_add(cost) {
            Some(whole) if whole <= self.limit => whole,
            _ => return,
        };
        match self.kept.put(spot, object) {
            Ok(_) => self.cost = whole,
            Err(_) => {}
        }
    }

    /// Drops the objects that weren't used for longest until there is room for one of this cost.
    fn make_room(&mut self, cost: u64) {
        for _ in 0..self.kept.len() {
            if self.cost.saturating_add(cost) <= self.limit {
                return;
            }
            self.drop_oldest();
        }
    }

    /// Drops the object that wasn't used for longest.
    fn drop_oldest(&mut self) {
        if let Some((_, object)) = self.kept.pop_lru() {
            self.cost -= cost_of(&object);
        }
    }
}
