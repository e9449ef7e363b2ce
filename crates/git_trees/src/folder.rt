//! What a walk does in one folder.
ghost use Rattle.std.specs.Prelude.{◌≡◌, ◌<◌, ◌≤◌, ◌++◌, ◌∷◌, [], true, false, length, IfOk, IfErr, OnOk};
ghost use Rattle.edge_kit.specs.Told.{TellsBytes};
ghost use Rattle.git_trees.specs.Format.{key_of, key, is_folder, IsTree};
ghost use Rattle.git_trees.specs.Walk.{IsLeaf, leaf_of, leaf_mode};
ghost use Rattle.git_trees.specs.Stops.{IsTreeStop, IsLeafStop, IsAskStop, IsOpenStop, AfterWalk};

use crate::entry::{TreeEntry, TreeMode};
use crate::fault::TreeFault;
use crate::source::TreeSource;
use crate::tree::{Tree, read_tree};
use crate::walk_fault::{WalkBounds, WalkFault};
use byte_path::{Bytes, ObjectId, check_path};
use edge_kit::TakeFault;
use git_index::{Entry, Mode};
use std::alloc::Global;

/// What a walk may still do.
#[derive(Clone, Copy)]
pub struct WalkStep {
    pub alloc: Global,
    pub bounds: WalkBounds,
    /// How many more trees may stand in one another.
    pub left: u32,
}

/// The path of a name in a folder, with a slash after it if it is a folder.
pub fn path_in(
    alloc: Global,
    folder: &[u8],
    name: &[u8],
    is_folder: bool,
) -> Result<Vec<u8>, WalkFault>
    ensures path { IfOk result (λ v. v.items ≡ folder.now ++ key_of is_folder name.now) }
    ensures memory { IfErr result (λ f. f ≡ WalkFault.NoMemory) }
{
    let mut path = Vec::from_slice(alloc, folder)?;
    path.extend_from_slice(name)?;
    if is_folder {
        path.push(b'/')?;
    }
    Ok(path)
}

/// The tree of a folder.
pub fn tree_in(step: WalkStep, folder: &[u8], content: &[u8]) -> Result<Tree, WalkFault>
    ensures tree { IfOk result (IsTree step.bounds.limit content.now) }
    ensures stop { IfErr result (IsTreeStop step.bounds.limit folder.now content.now) }
{
    match read_tree(step.alloc, content, step.bounds.limit) {
        Ok(tree) => Ok(tree),
        Err(TreeFault::NoMemory) => Err(WalkFault::NoMemory),
        Err(fault) => Err(WalkFault::Tree(Bytes::copy_of(step.alloc, folder)?, fault)),
    }
}

/// The mode that an index has for an entry of a tree.
fn mode_of(mode: TreeMode) -> Mode
    requires { is_folder mode ≡ false }
    ensures { result ≡ leaf_mode mode }
{
    match mode {
        TreeMode::Plain => Mode::Plain,
        TreeMode::Executable => Mode::Executable,
        TreeMode::Link => Mode::Link,
        TreeMode::Gitlink => Mode::Gitlink,
        TreeMode::Folder => unreachable!(),
    }
}

/// Puts the leaf of an entry that is no folder after the earlier ones.
pub fn take_leaf(
    step: WalkStep,
    folder: &[u8],
    entry: &TreeEntry,
    leaves: &mut Vec<Entry>,
) -> Result<(), WalkFault>
    requires { is_folder entry.now.mode ≡ false }
    ensures leaf { OnOk result (IsLeaf folder.now entry.now (leaf_of folder.now entry.now ∷ [])) }
    ensures grown { OnOk result
        (leaves.new.items ≡ leaves.old.items ++ leaf_of folder.now entry.now ∷ []) }
    ensures few { OnOk result (length leaves.new.items ≤ step.bounds.limit) }
    ensures stop { IfErr result
        (IsLeafStop step.bounds.limit (length leaves.old.items) folder.now entry.now) }
{
    let path = path_in(step.alloc, folder, entry.name.as_slice(), false)?;
    if let Err(fault) = check_path(path.as_slice()) {
        return Err(WalkFault::Path(Bytes::from_vec(path), fault));
    }
    if leaves.len() >= step.bounds.limit as usize {
        return Err(WalkFault::Count);
    }
    leaves.push(Entry {
        path: Bytes::from_vec(path),
        stage: 0,
        mode: mode_of(entry.mode),
        name: entry.object,
        sparse: false,
        intent: false,
    })?;
    Ok(())
}

/// The content of the tree of a folder with this path.
pub fn content_of<S: TreeSource>(
    source: &mut S,
    step: WalkStep,
    path: Bytes,
    object: &ObjectId,
) -> Result<Vec<u8>, WalkFault>
    ensures told { S.told source.new ≡ S.told source.old }
    ensures bytes { IfOk result (λ v. TellsBytes (S.told source.old object.now) v.items) }
    ensures stop { IfErr result (IsAskStop (S.told source.old object.now) step.bounds.bytes path) }
    ensures faults { AfterWalk (S.faults source.old) (S.faults source.new) result }
{
    match source.tree(object, step.bounds.bytes) {
        Ok(Some(content)) => Ok(content),
        Ok(None) => Err(WalkFault::Absent(path)),
        Err(TakeFault::TooLong) => Err(WalkFault::TooLong(path)),
        Err(TakeFault::Failed) => Err(WalkFault::Failed(path)),
        Err(TakeFault::NoMemory) => Err(WalkFault::NoMemory),
    }
}

/// A folder's path, with a slash after it, and the content of its tree.
#[derive(Drop)]
pub struct Opened {
    pub path: Vec<u8>,
    pub content: Vec<u8>,
}

/// Asks for the tree of an entry that is a folder.
pub fn open_folder<S: TreeSource>(
    source: &mut S,
    step: WalkStep,
    folder: &[u8],
    entry: &TreeEntry,
) -> Result<Opened, WalkFault>
    requires { is_folder entry.now.mode ≡ true }
    ensures told { S.told source.new ≡ S.told source.old }
    ensures path { IfOk result (λ o. o.path.items ≡ folder.now ++ key entry.now) }
    ensures bytes { IfOk result
        (λ o. (0 < step.left) × TellsBytes (S.told source.old entry.now.object) o.content.items) }
    ensures stop { IfErr result (IsOpenStop (S.told source.old) step folder.now entry.now) }
    ensures faults { AfterWalk (S.faults source.old) (S.faults source.new) result }
{
    let path = path_in(step.alloc, folder, entry.name.as_slice(), true)?;
    if step.left == 0 {
        return Err(WalkFault::Deep(Bytes::from_vec(path)));
    }
    let held = Bytes::copy_of(step.alloc, path.as_slice())?;
    let content = content_of(source, step, held, &entry.object)?;
    Ok(Opened { path, content })
}
