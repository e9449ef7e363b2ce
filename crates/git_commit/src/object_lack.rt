use std::alloc::AllocError;

/// Why an object was not taken.
#[derive(Clone, Copy, Debug, PartialEq, Eq)]
pub enum ObjectLack {
    /// It isn't there.
    Absent,
    /// Neither its files nor git give it.
    Unread,
    /// It doesn't begin with the kind that is wanted and a size.
    Header,
    /// Its size isn't the one that it says.
    Size,
    /// Its SHA-1 isn't its name.
    Name,
    TooLarge,
    /// More trees than any files have.
    TooMany,
    /// Out of memory.
    NoMemory,
}

impl ObjectLack {
    /// The cause as a report has it.
    pub fn word(self) -> &'static str {
        match self {
            ObjectLack::Absent => "object-absent",
            ObjectLack::Unread => "read",
            ObjectLack::Header => "object-header",
            ObjectLack::Size => "object-size",
            ObjectLack::Name => "object-name",
            ObjectLack::TooLarge => "object-too-large",
            ObjectLack::TooMany => "too-many",
            ObjectLack::NoMemory => "no-memory",
        }
    }
}

impl From<AllocError> for ObjectLack {
    fn from(_: AllocError) -> Self {
        ObjectLack::NoMemory
    }
}
