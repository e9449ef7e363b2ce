//! Why words ask for no command.
ghost use Rattle.std.specs.Prelude.{◌≡◌};
ghost use Rattle.siuwbren_words.specs.declared.fault.UsageFault.TheVariants.{NoMemory};

use std::alloc::AllocError;

/// Why words ask for no command.
#[derive(Drop)]
pub enum UsageFault {
    /// They ask for help or for the version, which this text is.
    Wish(String),
    /// They are wrong, as this text says.
    Wrong(String),
    NoMemory,
}

impl From<AllocError> for UsageFault {
    ghost from_gives = { λ _ fault. fault ≡ NoMemory };

    fn from(_error: AllocError) -> UsageFault {
        UsageFault::NoMemory
    }
}
