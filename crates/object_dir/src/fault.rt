use byte_path::ObjectId;
use thiserror::Error;

/// Why an object gave no content: the first fault that applies.
#[derive(Error, Clone, Copy, Debug, PartialEq, Eq)]
pub enum ObjectFault {
    #[error("the object can't be read")]
    ReadFailed,
    #[error("the object is absent")]
    Absent,
    /// Its stored bytes are more than 268,435,471, the most that a content of 268,435,456 bytes takes.
    #[error("the object is too large")]
    TooLarge,
    /// The stored bytes don't begin with `blob `, a decimal without a leading zero and a NUL. A compressed object has
    /// this fault.
    #[error("the object has no header of an uncompressed blob")]
    Header,
    /// The decimal isn't the length of what follows the NUL.
    #[error("the object's size isn't the one in its header")]
    Size,
    /// The SHA-1 of the stored bytes, which isn't the object's name.
    #[error("the object's SHA-1 isn't its name")]
    WrongName(ObjectId),
    #[error("out of memory")]
    NoMemory,
}
