//! The files of a worktree that are checked in.
ghost use Rattle.std.specs.Prelude.{◌≡◌, ℕ, List};
ghost use Rattle.edge_kit.specs.Told.{Told, Takes};
ghost use Rattle.checkin_paths.specs.Outside.{FilesSeen, LeavesFiles};

use edge_kit::TakeFault;

/// The files of a worktree. It keeps the paths at which it has failed.
pub trait Files {
    /// What it tells of each path. No call changes this.
    ghost told: { Self → List ℕ → Told };

    /// Its count of faults, and the paths at which it has failed, in order; and whether the last of these failed by the
    /// kind of its file, and all paths that did.
    ghost seen: { Self → FilesSeen };

    /// The whole file at a path, or the text of a link there, or `None` exactly if there is no file. `TooLong` exactly
    /// if it has more than `limit` bytes. It takes the room for one more path before it does anything else.
    fn take(&mut self, path: &str, limit: u64) -> Result<Option<Vec<u8>>, TakeFault>
        ensures told { told self.new ≡ told self.old }
        ensures bytes { Takes (told self.old path.now) limit result }
        ensures faults { LeavesFiles path.now (seen self.old) (seen self.new) result };

    /// Whether it failed the last time since a file of another kind than the index has stands there: one in a link's
    /// place, or a link in a file's.
    fn failed_by_kind(&self) -> bool
        ensures { result ≡ (seen self.now).by_kind };
}
