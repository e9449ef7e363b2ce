ghost use Rattle.std.specs.Prelude.{◌≡◌};
ghost use Rattle.settings_view.specs.declared.fault.SettingFault.TheVariants.{NoMemory};
ghost use Rattle.settings_view.specs.Words.{key_word, setting_word};

use std::alloc::{AllocError, AllocFailed};
use thiserror::Error;

/// A key, in the order in which the keys are checked.
#[derive(Error, Clone, Copy, Debug, PartialEq, Eq)]
pub enum KeyId {
    /// `core.autocrlf`
    #[error("core.autocrlf")]
    AutoCrlf,
    /// `core.eol`
    #[error("core.eol")]
    Eol,
    /// `checkout.workers`
    #[error("checkout.workers")]
    Workers,
    /// `checkout.thresholdForParallelism`
    #[error("checkout.thresholdForParallelism")]
    Threshold,
    /// `extensions.objectFormat`
    #[error("extensions.objectFormat")]
    ObjectFormat,
    /// `filter.<driver>.required`
    #[error("filter.<driver>.required")]
    Required,
}

/// Why a configuration has no settings: the first key whose last value is bad.
#[derive(Error, Clone, Copy, Debug, PartialEq, Eq)]
pub enum SettingFault {
    /// The value isn't a truth value.
    #[error("{0} is neither true nor false")]
    BadBool(KeyId),
    /// The value isn't a number, or there is none.
    #[error("{0} isn't a number in its range")]
    BadNumber(KeyId),
    /// The value is none of the key's words, or there is none.
    #[error("{0} isn't one of its words")]
    BadChoice(KeyId),
    /// Out of memory.
    #[error("out of memory")]
    NoMemory,
}

impl KeyId {
    /// The key as one word.
    pub fn word(self) -> &'static str
        ensures { result.now ≡ key_word self }
    {
        match self {
            KeyId::AutoCrlf => "autocrlf",
            KeyId::Eol => "eol",
            KeyId::Workers => "workers",
            KeyId::Threshold => "threshold",
            KeyId::ObjectFormat => "objectformat",
            KeyId::Required => "required",
        }
    }
}

impl SettingFault {
    /// The word of the key whose value is bad.
    pub fn word(self) -> &'static str
        ensures { result.now ≡ setting_word self }
    {
        match self {
            SettingFault::BadBool(key)
            | SettingFault::BadNumber(key)
            | SettingFault::BadChoice(key) => key.word(),
            SettingFault::NoMemory => "no-memory",
        }
    }
}

impl From<AllocError> for SettingFault {
    ghost from_gives = { λ _ e. e ≡ NoMemory };

    fn from(_: AllocError) -> Self {
        SettingFault::NoMemory
    }
}

impl<T: Drop> From<AllocFailed<T>> for SettingFault {
    ghost from_gives = { λ _ e. e ≡ NoMemory };

    fn from(_: AllocFailed<T>) -> Self {
        SettingFault::NoMemory
    }
}
