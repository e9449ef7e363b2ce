//! A folder's tree, and what a tree cache tells of the folders below it.
ghost use Rattle.std.specs.Prelude.{◌≡◌, ◌<◌, ◌≤◌, ◌+◌, true, IfOk};
ghost use Rattle.std.specs.List.{list_all};
ghost use Rattle.tree_cache.specs.Folders.{IsFolder, IsCached, is_cached_entry, node, nodes_text};

use crate::line::{mode_text, push_node_line, push_tree_line, tree_name};
use crate::run::{rest_of, run_len, slash_in};
use byte_path::ObjectId;
use git_index::Entry;
use std::alloc::{AllocError, Global};

/// What is told of a folder.
#[derive(Drop)]
pub struct Folder {
    /// The name of its tree.
    pub tree: ObjectId,
    /// How many folders stand in it.
    pub subfolders: usize,
    /// What is told of these, and of the folders below them.
    pub below: Vec<u8>,
}

/// What is told of a folder with this name and so many entries, and of all folders below it.
pub fn node_of(
    alloc: Global,
    name: &[u8],
    entries: usize,
    folder: &Folder,
) -> Result<Vec<u8>, AllocError>
    ensures { IfOk result (λ text. text.items ≡ node name.now entries folder.now) }
{
    let mut text = Vec::new(alloc);
    push_node_line(&mut text, name, entries, folder.subfolders, &folder.tree)?;
    text.extend_from_slice(folder.below.as_slice())?;
    Ok(text)
}

/// What is told of folders, one after another.
fn joined(alloc: Global, nodes: &[(usize, Vec<u8>)]) -> Result<Vec<u8>, AllocError>
    ensures { IfOk result (λ text. text.items ≡ nodes_text nodes.now) }
{
    let mut text = Vec::new(alloc);
    for node in nodes {
        text.extend_from_slice(node.1.as_slice())?;
    }
    Ok(text)
}

/// A folder by the content of its tree, and by what is told of its subfolders beside the lengths of their names.
fn folder_with(
    alloc: Global,
    content: &[u8],
    mut nodes: Vec<(usize, Vec<u8>)>,
) -> Result<Folder, AllocError>
    ensures { IfOk result (λ folder. IsFolder content.now nodes.items folder) }
{
    nodes.sort()?;
    let below = joined(alloc, nodes.as_slice())?;
    Ok(Folder {
        tree: tree_name(content),
        subfolders: nodes.len(),
        below,
    })
}

/// What is told of the folder that has just these entries, whose path has this length. Fewer folders than `left` stand in
/// one another below it.
pub fn folder_of(
    alloc: Global,
    entries: &[Entry],
    at: usize,
    left: u32,
) -> Result<Folder, AllocError>
    requires cached { list_all is_cached_entry entries.now ≡ true }
    requires deep { 4096 < at + left }
    requires within { at ≤ 4096 }
    ensures { IfOk result (IsCached left at entries.now) }
{
    let mut content = Vec::new(alloc);
    let mut nodes = Vec::new(alloc);
    let mut rest = entries;
    while let Some((entry, others)) = rest.split_first() {
        let name = rest_of(entry, at);
        let Some(slash) = slash_in(name) else {
            push_tree_line(&mut content, mode_text(entry.mode), name, &entry.name)?;
            rest = others;
            continue;
        };
        let (front, _) = name.split_at(slash + 1);
        let (name, _) = name.split_at(slash);
        let (run, behind) = rest.split_at(1 + run_len(others, at, front));
        let folder = folder_of(alloc, run, at + slash + 1, left - 1)?;
        push_tree_line(&mut content, b"40000", name, &folder.tree)?;
        nodes.push((slash, node_of(alloc, name, run.len(), &folder)?))?;
        rest = behind;
    }
    folder_with(alloc, content.as_slice(), nodes)
}
