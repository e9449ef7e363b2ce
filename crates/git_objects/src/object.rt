//! Objects and their stored form.
ghost use Rattle.std.specs.Prelude.{◌≡◌, IfOk, ◌≤◌, ◌++◌, ◌∷◌, length};

use crate::fault::ObjectsFault;
use itoa::Buffer;
use std::alloc::{AllocError, Global};

/// What an object is.
#[derive(Clone, Copy)]
pub enum StoredKind {
    Commit,
    Tree,
    Blob,
    Tag,
}

impl StoredKind {
    /// The word for it at the front of an object, and a space.
    fn word(self) -> &'static [u8] {
        match self {
            StoredKind::Commit => b"commit ",
            StoredKind::Tree => b"tree ",
            StoredKind::Blob => b"blob ",
            StoredKind::Tag => b"tag ",
        }
    }
}

/// An object without its header.
#[derive(Drop)]
pub struct Object {
    pub kind: StoredKind,
    pub content: Vec<u8>,
}

/// The most bytes of a header: a word, a space, twenty digits and a NUL.
const MAX_HEADER: usize = 28;

/// The header of an object of this kind and of so many bytes, with so much room behind it.
pub fn header_of(
    alloc: Global,
    kind: StoredKind,
    size: u64,
    room: usize,
) -> Result<Vec<u8>, AllocError> {
    let mut digits = Buffer::new();
    let mut header = Vec::with_capacity(alloc, room.saturating_add(MAX_HEADER))?;
    header.extend_from_slice(kind.word())?;
    header.extend_from_slice(digits.format(size).as_bytes())?;
    header.push(0)?;
    Ok(header)
}

impl Object {
    /// Its stored form, if that is within the limit.
    pub fn stored(&self, alloc: Global, limit: u64) -> Result<Vec<u8>, ObjectsFault>
        ensures { IfOk result (λ stored. length stored.items ≤ limit) }
    {
        let size = self.content.len();
        let mut stored = header_of(alloc, self.kind, size as u64, size)?;
        stored.extend_from_slice(self.content.as_slice())?;
        if stored.len() as u64 > limit {
            return Err(ObjectsFault::TooLong);
        }
        Ok(stored)
    }
}
