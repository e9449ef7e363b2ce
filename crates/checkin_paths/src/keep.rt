//! What keeps the objects and the index of a check-in.
ghost use Rattle.checkin_paths.specs.Outside.{KeepSeen, KeepsObject, KeepsIndex};

use byte_path::ObjectId;
use edge_kit::SendFault;

/// Keeps objects and an index. What failed isn't kept.
pub trait Keep {
    /// The objects in order and the last index, each if it is told, and its count of faults.
    ghost seen: { Self → KeepSeen };

    /// Keeps the object with this name and these stored bytes.
    fn object(&mut self, name: &ObjectId, raw: &[u8]) -> Result<(), SendFault>
        ensures { KeepsObject name.now raw.now (seen self.old) (seen self.new) result };

    /// Keeps an index in place of the last one.
    fn index(&mut self, bytes: &[u8]) -> Result<(), SendFault>
        ensures { KeepsIndex bytes.now (seen self.old) (seen self.new) result };
}
