//! A sample work.
ghost use Rattle.std.specs.Prelude.{◌≡◌, ℕ, List, Some, None, IfOk, OnOk, cond};
ghost use Rattle.std.specs.Str.{bytes_eq};
ghost use Rattle.driver_host.specs.LateWorks.{kept_at, late_told};

use crate::work::{Choice, LateChoice, Work};
use byte_path::Bytes;
use std::alloc::{AllocError, Global};
use std::collections::BTreeMap;

/// A work that changes nothing. It keeps the content of each path that may wait, and gives it at the second request.
#[derive(Drop)]
pub struct LateWork {
    alloc: Global,
    kept: BTreeMap<Vec<u8>, Bytes>,
}

impl LateWork {
    /// A work that has kept nothing.
    pub fn make(alloc: Global) -> Result<LateWork, AllocError>
        ensures { IfOk result
            (λ w. (path : List ℕ) → ⟦<LateWork as Work>⟧.latest w path ≡ None) }
    {
        Ok(LateWork {
            alloc,
            kept: BTreeMap::new(alloc),
        })
    }

    /// Keeps the content of a path.
    fn keep(&mut self, path: &[u8], content: Bytes) -> Result<(), AllocError>
        ensures { let latest = ⟦<LateWork as Work>⟧.latest in OnOk result ((q : List ℕ)
            → latest self.new q ≡ cond (bytes_eq path.now q) (Some content) (latest self.old q)) }
    {
        let path = Vec::from_slice(self.alloc, path)?;
        self.kept.insert(path, content)?;
        Ok(())
    }
}

impl Work for LateWork {
    ghost told = { λ w. late_told };

    ghost latest = { λ w path. kept_at w.kept path };

    #[tactic(auto, using(crate::proofs::Late::remembers_later, crate::proofs::Late::retains_later))]
    fn first(
        &mut self,
        path: &[u8],
        content: &[u8],
        can_delay: bool,
    ) -> Result<Choice, AllocError> {
        let content = Bytes::copy_of(self.alloc, content)?;
        if can_delay {
            self.keep(path, content)?;
            Ok(Choice::Later)
        } else {
            Ok(Choice::Give(content))
        }
    }

    fn second(&mut self, path: &[u8]) -> Result<LateChoice, AllocError> {
        match self.kept.remove(path) {
            Some(content) => Ok(LateChoice::Give(content)),
            None => Ok(LateChoice::Refuse),
        }
    }
}
