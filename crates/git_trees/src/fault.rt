ghost use Rattle.std.specs.Prelude.{◌≡◌};
ghost use Rattle.git_trees.specs.declared.fault.TreeFault.TheVariants.{NoMemory};
ghost use Rattle.git_trees.specs.Words.{fault_word};

use byte_path::PathFault;
use std::alloc::{AllocError, AllocFailed};
use thiserror::Error;

/// What is wrong with a name.
#[derive(Error, Clone, Copy, Debug, PartialEq, Eq)]
pub enum NameKind {
    /// It holds a slash.
    #[error("a name holds a slash")]
    Slash,
    /// As the only part of a path it may not be written.
    #[error("{0}")]
    Part(PathFault),
}

/// Why a tree was not read: the first fault from the left. The number is that of the entry, from 0.
#[derive(Error, Clone, Copy, Debug, PartialEq, Eq)]
pub enum TreeFault {
    /// The bytes end within the entry.
    #[error("the tree ends within entry {0}")]
    Short(u32),
    /// The mode isn't one of those of `TreeMode`, as git spells it.
    #[error("entry {0} has an unknown mode")]
    Mode(u32),
    /// A name that no file may have.
    #[error("entry {0}: {1}")]
    Name(u32, NameKind),
    /// The entry belongs before the one before it.
    #[error("entry {0} is out of order")]
    Order(u32),
    /// An earlier entry has the same name.
    #[error("entry {0} has the name of an earlier entry")]
    Twice(u32),
    /// More entries than the limit, which is this number.
    #[error("the tree has more than {0} entries")]
    Count(u32),
    /// Out of memory.
    #[error("out of memory")]
    NoMemory,
}

impl TreeFault {
    /// The fault in one word, without its number.
    pub fn word(self) -> &'static str
        ensures { result.now ≡ fault_word self }
    {
        match self {
            TreeFault::Short(_) => "short",
            TreeFault::Mode(_) => "mode",
            TreeFault::Name(..) => "name",
            TreeFault::Order(_) => "order",
            TreeFault::Twice(_) => "twice",
            TreeFault::Count(_) => "count",
            TreeFault::NoMemory => "no-memory",
        }
    }
}

impl From<AllocError> for TreeFault {
    ghost from_gives = { λ _ e. e ≡ NoMemory };

    fn from(_: AllocError) -> Self {
        TreeFault::NoMemory
    }
}

impl<T: Drop> From<AllocFailed<T>> for TreeFault {
    ghost from_gives = { λ _ e. e ≡ NoMemory };

    fn from(_: AllocFailed<T>) -> Self {
        TreeFault::NoMemory
    }
}
