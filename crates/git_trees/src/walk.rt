//! The walk from a root tree to its leaves.
ghost use Rattle.std.specs.Prelude.{◌≡◌, ◌≢◌, ◌≤◌, length, IfOk, IfErr, OnOk, List};
ghost use Rattle.git_trees.specs.Walk.{EntriesOf, IsNoWalk, IsAllTold, LeavesCanStand};
ghost use Rattle.git_trees.specs.Stops.{IsStop, IsStopBelow, IsOver, IsReached, StopsEndWalks, YieldsLeaves, AfterWalk};
ghost use Rattle.git_index.specs.declared.entry.Entry.{Entry};

use crate::compare::is_folder;
use crate::folder::{WalkStep, open_folder, take_leaf, tree_in};
use crate::source::TreeSource;
use crate::walk_fault::{WalkBounds, WalkFault};
use byte_path::Items;
use git_index::Entry;
use std::alloc::Global;

/// Takes the leaves of a folder with this content after the earlier ones.
fn take_folder<S: TreeSource>(
    source: &mut S,
    step: WalkStep,
    folder: &[u8],
    content: &[u8],
    leaves: &mut Vec<Entry>,
) -> Result<(), WalkFault>
    requires { length leaves.old.items ≤ step.bounds.limit }
    ensures told { S.told source.new ≡ S.told source.old }
    ensures reach { OnOk result (IsReached (S.told source.old) step folder.now content.now
        leaves.old.items leaves.new.items) }
    // Where it stops, but for the number of leaves.
    ensures stop { IfErr result (λ f. f ≢ WalkFault.Count
        → IsStopBelow (S.told source.old) step folder.now content.now f) }
    ensures count { IfErr result (λ f. f ≡ WalkFault.Count → IsAllTold (S.told source.old)
        → IsOver (S.told source.old) step folder.now content.now (length leaves.old.items)) }
    ensures faults { AfterWalk (S.faults source.old) (S.faults source.new) result }
{
    let tree = tree_in(step, folder, content)?;
    for entry in tree.entries() {
        if !is_folder(entry.mode) {
            take_leaf(step, folder, entry, leaves)?;
            continue;
        }
        let opened = open_folder(source, step, folder, entry)?;
        let below = WalkStep {
            alloc: step.alloc,
            bounds: step.bounds,
            left: step.left - 1,
        };
        take_folder(source, below, &opened.path, &opened.content, leaves)?;
    }
    Ok(())
}

/// The leaves of the root tree with this content, as entries of an index.
pub fn read_leaves<S: TreeSource>(
    source: &mut S,
    alloc: Global,
    bounds: WalkBounds,
    root: &[u8],
) -> Result<Items<Entry>, WalkFault>
    ensures told { S.told source.new ≡ S.told source.old }
    ensures found { IfOk result (EntriesOf (S.told source.old) bounds.limit bounds.depth root.now) }
    // The leaves are given, unless memory runs out or a tree has too many bytes.
    ensures complete { (leaves : List Entry) → IsAllTold (S.told source.old)
        → EntriesOf (S.told source.old) bounds.limit bounds.depth root.now leaves
        → YieldsLeaves result leaves }
    // A fault is where it says.
    ensures stop { IfErr result (IsStop (S.told source.old) bounds root.now) }
    ensures faults { AfterWalk (S.faults source.old) (S.faults source.new) result }
{
    let step = WalkStep {
        alloc,
        bounds,
        left: bounds.depth,
    };
    let mut leaves = Vec::new(alloc);
    take_folder(source, step, &[], root, &mut leaves)?;
    Ok(Items::from_vec(leaves))
}

/// The law that the leaves of a root tree can stand in an index.
pub fn leaves_can_stand()
    ensures { LeavesCanStand }
{}

/// The law that a walk stops only where there is no list of leaves, unless a tree is too long or memory runs out.
pub fn stops_end_walks()
    ensures { StopsEndWalks }
{}
