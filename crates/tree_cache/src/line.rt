//! The lines of a tree object and of a tree cache.
ghost use Rattle.std.specs.Prelude.{◌≡◌, ◌++◌, length, OnOk};
ghost use Rattle.sha1.specs.Sha1.{sha1};
ghost use Rattle.tree_cache.specs.Folders.{mode_text, tree_line, spelled_tree, node_line};

use byte_path::ObjectId;
use git_index::Mode;
use itoa::Buffer;
use sha1::Sha1;
use std::alloc::AllocError;

/// The mode of a file as a tree spells it.
pub fn mode_text(mode: Mode) -> &'static [u8]
    ensures { result.now ≡ mode_text mode }
{
    match mode {
        Mode::Plain => b"100644".as_slice(),
        Mode::Executable => b"100755".as_slice(),
        Mode::Link => b"120000".as_slice(),
        Mode::Gitlink => b"160000".as_slice(),
    }
}

/// Puts an entry of a tree behind those before it.
pub fn push_tree_line(
    content: &mut Vec<u8>,
    mode: &[u8],
    name: &[u8],
    object: &ObjectId,
) -> Result<(), AllocError>
    ensures { OnOk result
        (content.new.items ≡ content.old.items ++ tree_line mode.now name.now object.now) }
{
    content.extend_from_slice(mode)?;
    content.push(b' ')?;
    content.extend_from_slice(name)?;
    content.push(0)?;
    content.extend_from_slice(object)
}

/// The name of the tree with this content.
pub fn tree_name(content: &[u8]) -> ObjectId
    ensures { result ≡ sha1 (spelled_tree content.now) }
{
    let mut size = Buffer::new();
    let mut hasher = Sha1::new();
    hasher.update(b"tree ");
    hasher.update(size.format(content.len()).as_bytes());
    hasher.update(b"\0");
    hasher.update(content);
    hasher.finalize()
}

/// Puts what a tree cache tells of one folder behind what it tells already.
pub fn push_node_line(
    text: &mut Vec<u8>,
    name: &[u8],
    entries: usize,
    subfolders: usize,
    tree: &ObjectId,
) -> Result<(), AllocError>
    ensures { OnOk result
        (text.new.items ≡ text.old.items ++ node_line name.now entries subfolders tree.now) }
{
    let mut digits = Buffer::new();
    text.extend_from_slice(name)?;
    text.push(0)?;
    text.extend_from_slice(digits.format(entries).as_bytes())?;
    text.push(b' ')?;
    text.extend_from_slice(digits.format(subfolders).as_bytes())?;
    text.push(b'\n')?;
    text.extend_from_slice(tree)
}
