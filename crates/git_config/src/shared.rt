//! Bytes that many settings own together.
ghost use Rattle.std.specs.Prelude.{◌≡◌, IfOk};

use byte_path::Bytes;
use std::alloc::{AllocError, Global};
use std::marker::Model;
use std::rc::Rc;

/// Bytes that many settings own together, which contracts see as their list.
///
/// A file of 1 MiB may have a header of half of it and a quarter of a million keys, so a section's name is kept once.
#[derive(Drop)]
pub struct Shared {
    bytes: Rc<Bytes>,
}

impl Model for Shared {
    ghost use Rattle.std.specs.Prelude.{List, ℕ};

    ghost Value = { List ℕ };

    ghost view = { λ s. s.bytes.value };
}

impl Shared {
    /// The bytes with one owner.
    pub fn from_bytes(alloc: Global, bytes: Bytes) -> Result<Shared, AllocError>
        ensures { IfOk result (λ s. s ≡ bytes) }
    {
        let bytes = Rc::new(alloc, bytes)?;
        Ok(Shared { bytes })
    }

    /// The bytes, borrowed.
    pub fn as_slice(&self) -> &[u8]
        ensures { result.now ≡ self.now }
    {
        self.bytes.as_ref().as_slice()
    }

    /// One more owner of the same bytes. It takes no memory for them.
    pub fn share(&self) -> Result<Shared, AllocError>
        ensures { IfOk result (λ s. s ≡ self.now) }
    {
        let bytes = self.bytes.clone()?;
        Ok(Shared { bytes })
    }
}
