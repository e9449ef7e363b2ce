//! Why a run stops before it touches a file.
ghost use Rattle.std.specs.Prelude.{◌≡◌};
ghost use Rattle.checkout_sources.specs.declared.stop.Stop.TheVariants.{NoMemory};

use byte_path::Bytes;
use checkout_core::ObjectKind;
use git_config::ConfigFault;
use git_index::IndexFault;
use settings_view::SettingFault;
use std::alloc::{AllocError, AllocFailed};

/// Why a repository is refused before a file is touched. Out of memory isn't a refusal.
#[derive(Drop)]
pub enum Refusal {
    IndexAbsent,
    /// The index can't be read.
    Index(IndexFault),
    /// The configuration can't be read.
    Config(ConfigFault),
    /// A setting has a value of the wrong kind.
    Setting(SettingFault),
    /// `info/attributes` is too large.
    InfoTooLarge,
    /// The system's and the user's attribute files are too large together.
    BaseTooLarge,
    /// The object of an attribute file isn't right: its path, and what is wrong.
    Attribute(Bytes, ObjectKind),
    /// An attribute file is too large: its path.
    AttributeTooLarge(Bytes),
    /// Too many drivers are in use: their number.
    TooManyDrivers(u32),
}

/// Why a run stops before it touches a file.
#[derive(Drop)]
pub enum Stop {
    /// A read failed, and a count of faults rose.
    ReadFault,
    Refused(Refusal),
    NoMemory,
}

impl From<AllocError> for Stop {
    ghost from_gives = { λ _ e. e ≡ NoMemory };

    fn from(_: AllocError) -> Self {
        Stop::NoMemory
    }
}

impl<T: Drop> From<AllocFailed<T>> for Stop {
    ghost from_gives = { λ _ e. e ≡ NoMemory };

    fn from(_: AllocFailed<T>) -> Self {
        Stop::NoMemory
    }
}
