//! A whole tree.
ghost use Rattle.std.specs.Prelude.{◌≡◌, ◌≢◌, [], IfOk, IfErr, List, Some};
ghost use Rattle.git_trees.specs.Format.{IsTree, IsNoTree, OneTree};
ghost use Rattle.git_trees.specs.Reading.{Gives, tree_at, tree_fault, Yields, TreeHasNoFault};
ghost use Rattle.git_trees.specs.Walk.{OneWalk};
ghost use Rattle.git_trees.specs.declared.entry.TreeEntry.{TreeEntry};

use crate::entry::TreeEntry;
use crate::entry_bytes::{FoundEntry, entry_of};
use crate::fault::TreeFault;
use crate::place::place;
use std::alloc::Global;
use std::marker::Model;

/// A tree, which contracts see as the list of its entries.
#[derive(Drop)]
pub struct Tree {
    entries: Vec<TreeEntry>,
}

impl Model for Tree {
    ghost use Rattle.std.specs.Prelude.{List};
    ghost use Rattle.git_trees.specs.declared.entry.TreeEntry.{TreeEntry};

    ghost Value = { List TreeEntry };

    ghost view = { λ x. x.entries.items };
}

impl Tree {
    /// The entries in order.
    pub fn entries(&self) -> &[TreeEntry]
        ensures { result.now ≡ self.now }
    {
        &self.entries
    }
}

/// The entries of a tree, or the first fault from the left.
fn tree_of(alloc: Global, content: &[u8], limit: u32) -> Result<Vec<TreeEntry>, TreeFault>
    ensures { Gives (λ v. v.items) result (tree_at limit content.now) }
{
    let mut entries = Vec::new(alloc);
    let mut rest = content;
    for k in 0..limit {
        if rest.is_empty() {
            return Ok(entries);
        }
        let found = entry_of(alloc, k, rest)?;
        let FoundEntry { entry, rest: after } = found;
        place(k, entry, &mut entries)?;
        rest = after;
    }
    if !rest.is_empty() {
        return Err(TreeFault::Count(limit));
    }
    Ok(entries)
}

/// The entries of a tree object, of which there may be `limit`.
pub fn read_tree(alloc: Global, content: &[u8], limit: u32) -> Result<Tree, TreeFault>
    ensures found { IfOk result (IsTree limit content.now) }
    // A tree is read, unless memory runs out.
    ensures complete { (entries : List TreeEntry) → IsTree limit content.now entries → Yields result entries }
    ensures none { IfErr result (λ fault. fault ≢ TreeFault.NoMemory → IsNoTree limit content.now) }
    // It is the first fault from the left.
    ensures first { IfErr result (λ fault. fault ≢ TreeFault.NoMemory → tree_fault limit content.now ≡ Some fault) }
{
    match tree_of(alloc, content, limit) {
        Ok(entries) => Ok(Tree { entries }),
        Err(fault) => Err(fault),
    }
}

/// The law that bytes are the tree of one list of entries at most.
pub fn one_tree()
    ensures { OneTree }
{}

/// The law that a tree has no fault.
pub fn tree_has_no_fault()
    ensures { TreeHasNoFault }
{}

/// The law that a root tree reaches one list of leaves at most.
pub fn one_walk()
    ensures { OneWalk }
{}
