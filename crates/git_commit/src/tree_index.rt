//! The index of a tree, which is read here.
use crate::object_lack::ObjectLack;
use crate::stored_objects::StoredObjects;
use crate::tree_objects::TreeObjects;
use byte_path::{Bytes, ObjectId, PathFault, quote_path};
use edge_kit::TakeFault;
use git_index::spell_entries;
use git_trees::{
    NameKind, TreeFault, TreeSource, WalkBounds, WalkFault, leaves_can_stand, read_leaves,
};
use std::alloc::{AllocError, Global};

/// An index has no more entries, and no path of one stands in more folders.
const BOUNDS: WalkBounds = WalkBounds {
    limit: 100_000,
    depth: 2048,
    bytes: 67_108_864,
};

/// The tree at which a walk stopped, and why it did.
#[derive(Clone, Copy)]
struct StoppedTree<'a> {
    name: ObjectId,
    fault: &'a WalkFault,
    lack: ObjectLack,
}

/// The number of an entry and what is wrong with it.
fn entry_cause(fault: TreeFault) -> (u32, &'static str) {
    match fault {
        TreeFault::Name(number, NameKind::Slash) => (number, "slash"),
        TreeFault::Name(number, NameKind::Part(part)) => (number, part.word()),
        TreeFault::Short(number)
        | TreeFault::Mode(number)
        | TreeFault::Order(number)
        | TreeFault::Twice(number)
        | TreeFault::Count(number) => (number, fault.word()),
        TreeFault::NoMemory => (0, fault.word()),
    }
}

/// A folder's path as the report has it. That of the root tree is `.`.
fn folder_text(alloc: Global, folder: &[u8]) -> Result<String, AllocError> {
    let path = match folder.strip_suffix(b"/") {
        Some(path) => path,
        None => b".".as_slice(),
    };
    match String::from_utf8(quote_path(alloc, path)?) {
        Ok(text) => Ok(text),
        Err(_) => Ok(String::new(alloc)),
    }
}

impl StoppedTree<'_> {
    /// The path of its folder, with a slash after it. That of the root tree is empty.
    fn folder(&self) -> &[u8] {
        match self.fault {
            WalkFault::Absent(folder) | WalkFault::Failed(folder) | WalkFault::Tree(folder, _) => {
                folder.as_slice()
            }
            _ => b"".as_slice(),
        }
    }

    /// What is wrong with it: one of its entries by its number, or the tree as a whole.
    fn cause(&self, alloc: Global) -> Result<String, AllocError> {
        match self.fault {
            WalkFault::Tree(_, fault) => {
                let (number, word) = entry_cause(*fault);
                format!(in alloc; "entry {number} {word}")
            }
            WalkFault::Absent(_) => String::from_str(alloc, ObjectLack::Absent.word()),
            _ => String::from_str(alloc, self.lack.word()),
        }
    }

    /// Why it is refused, as words: its name, its folder and the cause.
    fn refusal(&self, alloc: Global) -> Result<String, AllocError> {
        let name = hex::encode(alloc, self.name.as_slice())?;
        let folder = folder_text(alloc, self.folder())?;
        let cause = self.cause(alloc)?;
        format!(in alloc; "tree {name} {folder} {cause}")
    }
}

/// The content of the root tree.
fn root_content<S: StoredObjects>(
    trees: &mut TreeObjects<'_, S>,
    alloc: Global,
    root: &ObjectId,
) -> Result<Vec<u8>, WalkFault> {
    match trees.tree(root, BOUNDS.bytes) {
        Ok(Some(content)) => Ok(content),
        Ok(None) => Err(WalkFault::Absent(Bytes::from_vec(Vec::new(alloc)))),
        Err(TakeFault::NoMemory) => Err(WalkFault::NoMemory),
        Err(_) => Err(WalkFault::Failed(Bytes::from_vec(Vec::new(alloc)))),
    }
}

/// The index of what this tree reaches.
fn walk<S: StoredObjects>(
    trees: &mut TreeObjects<'_, S>,
    alloc: Global,
    root: &ObjectId,
) -> Result<Vec<u8>, WalkFault> {
    let content = root_content(trees, alloc, root)?;
    let leaves = read_leaves(trees, alloc, BOUNDS, content.as_slice())?;
    leaves_can_stand();
    Ok(spell_entries(alloc, leaves.as_slice())?)
}

/// Whether git may make an index where the walk makes none: of more entries or longer paths than are read, which the
/// checkout refuses by their numbers, and of trees whose modes are spelled in an old way.
fn is_for_git(fault: &WalkFault) -> bool {
    match fault {
        WalkFault::TooLong(_) | WalkFault::Deep(_) | WalkFault::Path(..) | WalkFault::Count => true,
        WalkFault::Tree(_, fault) => matches!(
            fault,
            TreeFault::Mode(_)
                | TreeFault::Count(_)
                | TreeFault::Name(_, NameKind::Part(PathFault::TooLong))
        ),
        WalkFault::Absent(_) | WalkFault::Failed(_) | WalkFault::NoMemory => false,
    }
}

/// What comes of a tree.
#[derive(Drop)]
pub enum TreeIndex {
    /// The bytes of its index.
    Made(Vec<u8>),
    /// Git may make it.
    ForGit,
    /// It, or one below it, is lacking or broken: the line of a report that refuses that.
    Bad(String),
}

/// What comes of a tree whose walk stopped.
fn without_index(alloc: Global, stopped: StoppedTree<'_>) -> Result<TreeIndex, AllocError> {
    match stopped.fault {
        WalkFault::NoMemory => Err(AllocError),
        fault if is_for_git(fault) => Ok(TreeIndex::ForGit),
        _ => Ok(TreeIndex::Bad(stopped.refusal(alloc)?)),
    }
}

/// The index of the tree with this name.
pub fn index_of<S: StoredObjects>(
    objects: &S,
    alloc: Global,
    root: &ObjectId,
) -> Result<TreeIndex, AllocError> {
    let mut trees = TreeObjects::new(objects, alloc);
    match walk(&mut trees, alloc, root) {
        Ok(index) => Ok(TreeIndex::Made(index)),
        Err(fault) => {
            let stopped = StoppedTree {
                name: trees.last,
                fault: &fault,
                lack: trees.lack,
            };
            without_index(alloc, stopped)
        }
    }
}
