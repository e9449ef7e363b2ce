use byte_path::{Bytes, ObjectId};

/// What an entry stands for.
#[derive(Clone, Copy, PartialEq, Eq)]
pub enum TreeMode {
    /// 100644, and 100664 of old trees.
    Plain,
    /// 100755.
    Executable,
    /// 120000, a symbolic link.
    Link,
    /// 160000, a commit of another repository.
    Gitlink,
    /// 40000, another tree.
    Folder,
}

/// One entry of a tree.
#[derive(Drop)]
pub struct TreeEntry {
    pub mode: TreeMode,
    /// One part of a path.
    pub name: Bytes,
    /// The SHA-1 name of the object.
    pub object: ObjectId,
}
