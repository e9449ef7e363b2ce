//! A leaf in memory that never fails.
ghost use Rattle.std.specs.Prelude.{◌≡◌, MatchBool, ◌≢◌, None, []};
ghost use Rattle.edge_kit.specs.declared.leaf_state.LeafState.TheVariants as leaf_state;

use edge_kit::{Failed, Leaf, LeafState, Mark, SendFault};
use std::alloc::{AllocError, Global};

/// A leaf that keeps its content, but doesn't tell it.
#[derive(Drop)]
pub struct Page {
    pub content: Vec<u8>,
    state: LeafState,
}

impl Page {
    /// A fresh page with room for this many bytes.
    pub fn with_room(alloc: Global, bytes: usize) -> Result<Page, AllocError> {
        Ok(Page {
            content: Vec::with_capacity(alloc, bytes)?,
            state: LeafState::Fresh,
        })
    }

    pub fn is_fresh(&self) -> bool
        ensures { MatchBool result (self.now.state ≡ leaf_state.Fresh) (self.now.state ≢ leaf_state.Fresh) }
    {
        matches!(self.state, LeafState::Fresh)
    }
}

impl Leaf for Page {
    ghost seen = { λ p. record { path = []; content = None; state = p.state; faults = 0 } };

    ghost fresh_content = { λ _ _. tt };

    fn put(&mut self, piece: &[u8]) -> Result<(), SendFault> {
        if self.content.extend_from_slice(piece).is_err() {
            return Err(SendFault::NoMemory);
        }
        self.state = LeafState::Partly;
        Ok(())
    }

    fn restart(&mut self) -> Result<(), Failed> {
        self.content.clear();
        self.state = LeafState::Fresh;
        Ok(())
    }

    fn seal(&mut self, mark: Mark) -> Result<(), Failed> {
        self.state = LeafState::Sealed(mark);
        Ok(())
    }

    fn discard(&mut self) -> Result<(), Failed> {
        self.content.clear();
        self.state = LeafState::Gone;
        Ok(())
    }
}
