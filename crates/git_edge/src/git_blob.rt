ghost use Rattle.std.specs.Prelude.{◌≡◌};
ghost use Rattle.edge_kit.specs.Told.{Untold};

use crate::object_pool::ObjectPool;
use byte_path::ObjectId;
use edge_kit::{Blob, TakeFault};
use std::alloc::Global;
use std::sync::Arc;

/// An object of a repository, which its files give, or a process of git.
#[derive(Drop)]
pub struct GitBlob {
    pool: Arc<ObjectPool, Global>,
    pub name: ObjectId,
    // its place among those that were lent, if it is known
    place: Option<usize>,
    pub faults: u64,
    /// Whether it was asked for and isn't there.
    pub is_absent: bool,
}

impl GitBlob {
    /// The object with this name, which was lent in this place, and of which nothing was read.
    pub fn new(pool: Arc<ObjectPool, Global>, name: ObjectId, place: Option<usize>) -> GitBlob
        ensures name { result.name ≡ name }
        ensures unfailed { result.faults ≡ 0 }
    {
        GitBlob {
            pool,
            name,
            place,
            faults: 0,
            is_absent: false,
        }
    }
}

impl Blob for GitBlob {
    ghost told = { λ _. Untold };

    ghost seen = { λ b. record { name = b.name; faults = b.faults } };

    fn take_all(&mut self, limit: u64) -> Result<Option<Vec<u8>>, TakeFault> {
        let taken = self.pool.take(&self.name, self.place, limit);
        match &taken {
            Err(TakeFault::Failed) => self.faults = self.faults.saturating_add(1),
            Ok(None) => self.is_absent = true,
            _ => {}
        }
        taken
    }
}
