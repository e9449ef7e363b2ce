//! Why a checkout stops before it touches a file, and how it ends then.
ghost use Rattle.std.specs.Prelude.{◌≡◌};
ghost use Rattle.checkout_engine.specs.Ending.{halted};

use crate::end::Checkout;
use checkout_sources::Stop;

/// Why a checkout stops before it touches a file.
#[derive(Drop)]
pub(crate) enum Halt {
    /// The worktree isn't empty.
    NotEmpty,
    /// A read failed, the repository is refused, or memory ran out.
    Stop(Stop),
}

/// How a checkout ends that stopped before it touched a file.
pub(crate) fn halted(halt: Halt) -> Checkout
    ensures { result ≡ halted halt }
{
    match halt {
        Halt::NotEmpty => Checkout::NotEmpty,
        Halt::Stop(Stop::Refused(refusal)) => Checkout::Refused(refusal),
        Halt::Stop(Stop::ReadFault) => Checkout::ReadFault,
        Halt::Stop(Stop::NoMemory) => Checkout::NoMemory,
    }
}
