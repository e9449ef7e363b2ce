ghost use Rattle.std.specs.Prelude.{◌≡◌};
ghost use Rattle.git_trees.specs.declared.walk_fault.WalkFault.TheVariants.{NoMemory};

use crate::fault::TreeFault;
use byte_path::{Bytes, PathFault};
use std::alloc::{AllocError, AllocFailed};

/// What bounds a walk.
#[derive(Clone, Copy)]
pub struct WalkBounds {
    /// The most entries of a tree, and the most leaves.
    pub limit: u32,
    /// The most trees that stand in one another below the root.
    pub depth: u32,
    /// The most bytes of the content of a tree below the root.
    pub bytes: u64,
}

/// Why a walk gave no leaves. A folder is its path with a slash after it, and the root's is empty.
#[derive(Drop)]
pub enum WalkFault {
    /// The tree of this folder isn't there.
    Absent(Bytes),
    /// Taking the tree of this folder failed.
    Failed(Bytes),
    /// The tree of this folder has too many bytes.
    TooLong(Bytes),
    /// The tree of this folder is broken.
    Tree(Bytes, TreeFault),
    /// This folder stands in too many others.
    Deep(Bytes),
    /// This path of a leaf may not be written.
    Path(Bytes, PathFault),
    /// More leaves than the limit.
    Count,
    /// Out of memory.
    NoMemory,
}

impl From<AllocError> for WalkFault {
    ghost from_gives = { λ _ e. e ≡ NoMemory };

    fn from(_: AllocError) -> Self {
        WalkFault::NoMemory
    }
}

impl<T: Drop> From<AllocFailed<T>> for WalkFault {
    ghost from_gives = { λ _ e. e ≡ NoMemory };

    fn from(_: AllocFailed<T>) -> Self {
        WalkFault::NoMemory
    }
}
