ghost use Rattle.std.specs.Prelude.{◌≡◌};
ghost use Rattle.git_config.specs.declared.fault.ConfigFault.TheVariants.{NoMemory};
ghost use Rattle.git_config.specs.Words.{line_word};

use std::alloc::{AllocError, AllocFailed};
use thiserror::Error;

/// What is wrong with a line.
#[derive(Error, Clone, Copy, Debug, PartialEq, Eq)]
pub enum LineKind {
    /// A section's header that can't be read.
    #[error("a section's header can't be read")]
    Section,
    /// A line that begins with no letter, or a key with something other than `=` after it.
    #[error("a key can't be read")]
    Key,
    /// An unknown escape, or a quote that is open at the end of the line.
    #[error("a value can't be read")]
    Value,
    /// A key before the first section.
    #[error("a key stands before the first section")]
    NoSection,
}

/// Why a configuration was not read.
#[derive(Error, Clone, Copy, Debug, PartialEq, Eq)]
pub enum ConfigFault {
    /// More than 1,048,576 bytes.
    #[error("the configuration is too large")]
    TooLarge,
    /// The first faulty line, from 1: the one on which its header or key begins.
    #[error("line {0}: {1}")]
    Line(u32, LineKind),
    /// Out of memory.
    #[error("out of memory")]
    NoMemory,
}

impl LineKind {
    /// What is wrong, in one word.
    pub fn word(self) -> &'static str
        ensures { result.now ≡ line_word self }
    {
        match self {
            LineKind::Section => "section",
            LineKind::Key => "key",
            LineKind::Value => "value",
            LineKind::NoSection => "no-section",
        }
    }
}

impl From<AllocError> for ConfigFault {
    ghost from_gives = { λ _ e. e ≡ NoMemory };

    fn from(_: AllocError) -> Self {
        ConfigFault::NoMemory
    }
}

impl<T: Drop> From<AllocFailed<T>> for ConfigFault {
    ghost from_gives = { λ _ e. e ≡ NoMemory };

    fn from(_: AllocFailed<T>) -> Self {
        ConfigFault::NoMemory
    }
}
