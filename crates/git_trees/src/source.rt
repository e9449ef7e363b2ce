ghost use Rattle.std.specs.Prelude.{◌≡◌, ℕ};
ghost use Rattle.edge_kit.specs.Told.{Takes};
ghost use Rattle.edge_kit.specs.Faults.{AfterTake};
ghost use Rattle.git_trees.specs.Walk.{TreesTold};

use byte_path::ObjectId;
use edge_kit::TakeFault;

/// What gives the contents of trees.
pub trait TreeSource {
    /// What it tells of the tree with each name. No call changes this.
    ghost told: { Self → TreesTold };

    /// Its count of faults.
    ghost faults: { Self → ℕ };

    /// The content of the tree with this name, or `None` exactly if there is none. `TooLong` exactly if it has more
    /// than `limit` bytes.
    fn tree(&mut self, name: &ObjectId, limit: u64) -> Result<Option<Vec<u8>>, TakeFault>
        ensures told { told self.new ≡ told self.old }
        ensures bytes { Takes (told self.old name.now) limit result }
        ensures faults { AfterTake (faults self.old) (faults self.new) result };
}
