//! A prepared content as a leaf's file.
ghost use Rattle.std.specs.Prelude.{◌≡◌, []};
ghost use Rattle.edge_kit.specs.Told.{Tells};
ghost use Rattle.edge_kit.specs.declared.leaf_state.LeafState.TheVariants.{Fresh};
ghost use Rattle.card_worker.specs.Writing.{PutsWhole, WritesContent};

use checkout_core::Own;
use edge_kit::{Failed, Leaf, Mark, SendFault};
use tree_encoding::Prepared;

/// Puts the content and seals the leaf.
fn put_and_seal<L: Leaf>(leaf: &mut L, content: &[u8], mark: Mark) -> Result<(), SendFault>
    requires { (L.seen leaf.old).state ≡ Fresh }
    ensures { PutsWhole mark content.now (L.seen leaf.old) (L.seen leaf.new) result }
{
    match leaf.put(content) {
        Ok(()) => {}
        Err(fault) => return Err(fault),
    }
    match leaf.seal(mark) {
        Ok(()) => Ok(()),
        Err(Failed) => Err(SendFault::Failed),
    }
}

/// Writes a prepared content as the leaf's file. If that fails, the leaf is discarded.
pub(crate) fn write_leaf<L: Leaf>(leaf: &mut L, content: &Prepared, mark: Mark) -> Own
    requires fresh { (L.seen leaf.old).state ≡ Fresh }
    requires empty { Tells (L.seen leaf.old).content [] }
    ensures { WritesContent mark content.now (L.seen leaf.old) result (L.seen leaf.new) }
{
    match put_and_seal(leaf, content.bytes.as_slice(), mark) {
        Ok(()) => Own::Fine {
            unencoded: content.unencoded,
        },
        Err(SendFault::Failed) => {
            let _ = leaf.discard();
            Own::WriteFailed
        }
        // Nothing was put, so there is nothing to discard.
        Err(SendFault::NoMemory) => Own::NoMemory,
    }
}
