//! The content of a reply, kept in memory.
ghost use Rattle.std.specs.Prelude.{◌≡◌, Some, []};
ghost use Rattle.std.proofs.Common.{rules};
ghost use Rattle.edge_kit.specs.declared.leaf_state.LeafState.TheVariants.{Fresh};

use byte_path::Bytes;
use edge_kit::{Failed, Leaf, LeafState, Mark, SendFault};
use std::alloc::Global;

/// A leaf that keeps its content in memory. It fails for want of memory alone.
#[derive(Drop)]
pub(crate) struct Content {
    bytes: Vec<u8>,
    state: LeafState,
    ghost fresh: { state ≡ Fresh → bytes.items ≡ [] },
}

impl Content {
    /// A fresh one.
    pub fn new(alloc: Global) -> Content
        ensures fresh { result.state ≡ LeafState.Fresh }
        ensures empty { result.bytes.items ≡ [] }
    {
        Content {
            bytes: Vec::new(alloc),
            state: LeafState::Fresh,
        }
    }

    /// What was put.
    pub fn into_bytes(self) -> Bytes
        ensures { result ≡ self.bytes.items }
    {
        Bytes::from_vec(self.bytes)
    }
}

impl Leaf for Content {
    ghost seen = { λ c. record { path = []; content = Some c.bytes.items; state = c.state; faults = 0 } };

    ghost fresh_content = { Prim.search rules };

    fn put(&mut self, piece: &[u8]) -> Result<(), SendFault> {
        self.bytes.extend_from_slice(piece)?;
        self.state = LeafState::Partly;
        Ok(())
    }

    fn restart(&mut self) -> Result<(), Failed> {
        self.bytes.clear();
        self.state = LeafState::Fresh;
        Ok(())
    }

    fn seal(&mut self, mark: Mark) -> Result<(), Failed> {
        self.state = LeafState::Sealed(mark);
        Ok(())
    }

    fn discard(&mut self) -> Result<(), Failed> {
        self.bytes.clear();
        self.state = LeafState::Gone;
        Ok(())
    }
}
