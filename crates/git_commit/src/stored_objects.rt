//! What gives the stored objects of a repository.
ghost use Rattle.edge_kit.specs.Told.{Untold, Takes};

use byte_path::ObjectId;
use edge_kit::TakeFault;

/// Stored objects by their names.
pub trait StoredObjects {
    /// The stored form of the object with this name, or `None` if it isn't there. `TooLong` if it has more than `limit`
    /// bytes.
    fn stored(&self, name: &ObjectId, limit: u64) -> Result<Option<Vec<u8>>, TakeFault>
        ensures { Takes Untold limit result };
}
