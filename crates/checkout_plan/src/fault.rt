ghost use Rattle.std.specs.Prelude.{◌≡◌};
ghost use Rattle.checkout_plan.specs.declared.fault.PlanFault.TheVariants.{NoMemory};
ghost use Rattle.checkout_plan.specs.Making.{object_kind};
ghost use Rattle.checkout_plan.specs.Seen.{unread_fault};

use checkout_core::ObjectKind;
use object_dir::ObjectFault;
use std::alloc::{AllocError, AllocFailed};
use thiserror::Error;

/// Why there is no plan. An entry is named by its place in the index, from 0.
#[derive(Error, Clone, Copy, Debug)]
pub enum PlanFault {
    /// The blob of an attribute file could not be read, and its count of faults rose.
    #[error("the attribute file of entry {0} can't be read")]
    AttributeRead(u32),
    /// The object of an attribute file isn't right.
    #[error("the object of the attribute file of entry {0} is absent or wrong")]
    Attribute(u32, ObjectKind),
    /// An attribute file of more than 1,048,576 bytes.
    #[error("the attribute file of entry {0} is too large")]
    AttributeTooLarge(u32),
    /// More than 16 drivers are in use: their number, or 2^32 - 1 if there are more.
    #[error("{0} drivers are in use")]
    TooManyDrivers(u32),
    /// Out of memory.
    #[error("out of memory")]
    NoMemory,
}

impl From<AllocError> for PlanFault {
    ghost from_gives = { λ _ e. e ≡ NoMemory };

    fn from(_: AllocError) -> Self {
        PlanFault::NoMemory
    }
}

impl<T: Drop> From<AllocFailed<T>> for PlanFault {
    ghost from_gives = { λ _ e. e ≡ NoMemory };

    fn from(_: AllocFailed<T>) -> Self {
        PlanFault::NoMemory
    }
}

/// What is wrong with an object that was read, or `None` if reading it failed or memory ran out.
pub fn object_kind(fault: ObjectFault) -> Option<ObjectKind>
    ensures { result ≡ object_kind fault }
{
    match fault {
        ObjectFault::Absent => Some(ObjectKind::Absent),
        ObjectFault::TooLarge => Some(ObjectKind::TooLarge),
        ObjectFault::Header => Some(ObjectKind::Header),
        ObjectFault::Size => Some(ObjectKind::Size),
        ObjectFault::WrongName(_) => Some(ObjectKind::WrongName),
        ObjectFault::ReadFailed | ObjectFault::NoMemory => None,
    }
}

/// The fault of an attribute file at that place of the index whose object gave no content.
pub(crate) fn unread_fault(place: u32, fault: ObjectFault) -> PlanFault
    ensures { result ≡ unread_fault place fault }
{
    match (object_kind(fault), fault) {
        (Some(kind), _) => PlanFault::Attribute(place, kind),
        (None, ObjectFault::ReadFailed) => PlanFault::AttributeRead(place),
        (None, _) => PlanFault::NoMemory,
    }
}
