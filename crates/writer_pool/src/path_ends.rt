//! How the paths of a checkout ended, and the room for it.
ghost use Rattle.std.specs.Prelude.{IfOk};
ghost use Rattle.writer_pool.specs.Rooms.{HasRoom};

use checkout_core::Verdict;
use edge_kit::{Blob, Leaf};
use std::alloc::{AllocError, Global};

/// How the paths of a checkout ended.
#[derive(Drop)]
pub(crate) struct PathEnds<B: Blob, L: Leaf> {
    /// The verdict of each path.
    pub verdicts: Vec<Verdict>,
    /// The leaves of all cards, in path order.
    pub leaves: Vec<L>,
    /// Their blobs, in the same order.
    pub blobs: Vec<B>,
}

/// An empty one, with room for so many paths.
pub(crate) fn room_for<B: Blob, L: Leaf>(
    alloc: Global,
    paths: usize,
) -> Result<PathEnds<B, L>, AllocError>
    ensures { IfOk result (λ r. HasRoom paths r) }
{
    Ok(PathEnds {
        verdicts: Vec::with_capacity(alloc, paths)?,
        leaves: Vec::with_capacity(alloc, paths)?,
        blobs: Vec::with_capacity(alloc, paths)?,
    })
}
