//! What the driver makes of contents.
ghost use Rattle.std.specs.Prelude.{◌≡◌, map, IfOk};
ghost use Rattle.std.specs.Char.{to_ascii_uppercase};
ghost use Rattle.sample_host.specs.Capitals.{capitals_told};

use byte_path::Bytes;
use driver_host::{Choice, LateChoice, LateWork, Work};
use std::alloc::{AllocError, Global};

/// A work that gives each content with `A` to `Z` in place of `a` to `z`. A path that may wait is
/// given at the second request.
#[derive(Drop)]
pub struct Capitals {
    alloc: Global,
    late: LateWork,
}

impl Capitals {
    /// A work that has kept nothing.
    pub fn make(alloc: Global) -> Result<Capitals, AllocError> {
        Ok(Capitals {
            alloc,
            late: LateWork::make(alloc)?,
        })
    }
}

/// The content in capitals.
fn in_capitals(alloc: Global, content: &Bytes) -> Result<Bytes, AllocError>
    ensures { IfOk result (λ b. b ≡ map to_ascii_uppercase content.now) }
{
    let bytes = content.as_slice();
    let capitals = bytes.iter().map(u8::to_ascii_uppercase).collect(alloc)?;
    Ok(Bytes::from_vec(capitals))
}

impl Work for Capitals {
    ghost told = { λ w. capitals_told };

    ghost latest = { λ w path. ⟦<LateWork as Work>⟧.latest w.late path };

    fn first(
        &mut self,
        path: &[u8],
        content: &[u8],
        can_delay: bool,
    ) -> Result<Choice, AllocError> {
        match self.late.first(path, content, can_delay)? {
            Choice::Give(content) => Ok(Choice::Give(in_capitals(self.alloc, &content)?)),
            choice => Ok(choice),
        }
    }

    fn second(&mut self, path: &[u8]) -> Result<LateChoice, AllocError> {
        match self.late.second(path)? {
            LateChoice::Give(content) => Ok(LateChoice::Give(in_capitals(self.alloc, &content)?)),
            choice => Ok(choice),
        }
    }
}
