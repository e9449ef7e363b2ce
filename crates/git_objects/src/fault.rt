ghost use Rattle.std.specs.Prelude.{◌≡◌};
ghost use Rattle.git_objects.specs.declared.fault.ObjectsFault.TheVariants.{NoMemory};

use edge_kit::TakeFault;
use inflate::InflateFault;
use std::alloc::{AllocError, AllocFailed};
use std::io;
use std::io::ErrorKind;
use thiserror::Error;

/// Why an object was not taken.
#[derive(Error, Clone, Copy, Debug, PartialEq, Eq)]
pub enum ObjectsFault {
    /// Its stored form is longer than the limit.
    #[error("the object is too long")]
    TooLong,
    /// It is there, and what is stored of it can't be read as an object.
    #[error("the object is broken")]
    Broken,
    /// A file or a folder in which it may be can't be read.
    #[error("the object can't be read")]
    Unread,
    /// Only git can say whether it is there, or give it: a pack has another version, an alternate has a quoted path,
    /// a partial clone may fetch it, or something that it is made from is longer than the limit.
    #[error("only git can give the object")]
    Elsewhere,
    /// Out of memory.
    #[error("out of memory")]
    NoMemory,
}

impl From<AllocError> for ObjectsFault {
    ghost from_gives = { λ _ e. e ≡ NoMemory };

    fn from(_error: AllocError) -> ObjectsFault {
        ObjectsFault::NoMemory
    }
}

impl<T: Drop> From<AllocFailed<T>> for ObjectsFault {
    ghost from_gives = { λ _ e. e ≡ NoMemory };

    fn from(_error: AllocFailed<T>) -> ObjectsFault {
        ObjectsFault::NoMemory
    }
}

impl From<io::Error> for ObjectsFault {
    fn from(error: io::Error) -> ObjectsFault {
        match error.kind() {
            ErrorKind::OutOfMemory => ObjectsFault::NoMemory,
            // the file ends before what its own numbers say
            ErrorKind::UnexpectedEof => ObjectsFault::Broken,
            _ => ObjectsFault::Unread,
        }
    }
}

impl From<TakeFault> for ObjectsFault {
    fn from(fault: TakeFault) -> ObjectsFault {
        match fault {
            TakeFault::TooLong => ObjectsFault::Elsewhere,
            TakeFault::Failed => ObjectsFault::Unread,
            TakeFault::NoMemory => ObjectsFault::NoMemory,
        }
    }
}

impl From<InflateFault> for ObjectsFault {
    fn from(fault: InflateFault) -> ObjectsFault {
        match fault {
            InflateFault::TooLong => ObjectsFault::TooLong,
            InflateFault::NoMemory => ObjectsFault::NoMemory,
            _ => ObjectsFault::Broken,
        }
    }
}
