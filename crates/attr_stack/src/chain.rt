//! The attribute files that reach the paths of one folder.
ghost use Rattle.std.specs.Prelude.{◌≡◌, ◌<◌, ◌≤◌, ◌++◌, IfOk, OnOk, List, length, reverse, take};
ghost use Rattle.attr_stack.specs.declared.files.FileAt.{FileAt};
ghost use Rattle.attr_stack.specs.Levels.{levels_at, levels_ending, levels_before, levels_above, IsChain};
ghost use Rattle.attr_stack.specs.Pairs.{file_of};

use crate::compiled_file::CompiledFile;
use crate::folders::FileFolders;
use attr_line::AttrContent;
use std::alloc::{AllocError, Global};

/// A file that reaches a path.
#[derive(Drop)]
pub struct Level {
    /// Behind this many bytes the path stands within the folder of the file.
    pub start: usize,
    pub file: CompiledFile,
}

/// The files that reach the paths of one folder, info/attributes apart. Only these are open.
#[derive(Drop)]
pub struct Chain {
    /// The folder with the `/` at its end. The top folder is the empty text.
    pub folder: Vec<u8>,
    /// The deepest last.
    pub levels: Vec<Level>,
}

/// Opens a file.
fn level_of(alloc: Global, content: &AttrContent, start: usize) -> Result<Level, AllocError>
    ensures { IfOk result (λ level. level ≡ record { start = start; file = content.now }) }
{
    let file = CompiledFile::of(alloc, content.open(alloc)?)?;
    Ok(Level { start, file })
}

/// Opens the file of a folder, if it has one.
fn push_level(
    alloc: Global,
    levels: &mut Vec<Level>,
    folders: &FileFolders,
    folder: &[u8],
    start: usize,
) -> Result<(), AllocError>
    ensures { OnOk result (reverse levels.new.items ≡ levels_at start (file_of folders.now folder.now)
        ++ reverse levels.old.items) }
{
    match folders.find(folder) {
        Some(content) => {
            levels.push(level_of(alloc, content, start)?)?;
            Ok(())
        }
        None => Ok(()),
    }
}

/// Opens the file of the folder whose name ends at a place, if one does.
fn push_ending(
    alloc: Global,
    levels: &mut Vec<Level>,
    folders: &FileFolders,
    text: &[u8],
    place: usize,
) -> Result<(), AllocError>
    requires { place < length text.now }
    ensures { OnOk result (reverse levels.new.items ≡ levels_ending folders.now text.now place
        ++ reverse levels.old.items) }
{
    if place == 0 || text[place] != b'/' {
        return Ok(());
    }
    let (folder, _) = text.split_at(place);
    push_level(alloc, levels, folders, folder, place + 1)
}

/// The files of the folders whose names end at a place of a text or behind it, the deepest last.
fn levels_from(
    alloc: Global,
    folders: &FileFolders,
    text: &[u8],
    from: usize,
) -> Result<Vec<Level>, AllocError>
    requires { from ≤ length text.now }
    ensures { IfOk result (λ levels. reverse levels.items ++ levels_before folders.now text.now from
        ≡ levels_before folders.now text.now (length text.now)) }
{
    let mut levels = Vec::new(alloc);
    for place in from..text.len() {
        push_ending(alloc, &mut levels, folders, text, place)?;
    }
    Ok(levels)
}

/// How many of these files are those of folders whose names end within so many bytes.
fn count_above(levels: &[Level], len: usize) -> usize
    ensures { reverse (take result levels.now) ≡ levels_above len (reverse levels.now) }
{
    for place in (0..levels.len()).rev() {
        let level = &levels[place];
        if level.start <= len {
            return place + 1;
        }
    }
    0
}

/// How many bytes at the front two texts have in common.
fn common_len(left: &[u8], right: &[u8]) -> usize
    ensures left { result ≤ length left.now }
    ensures right { result ≤ length right.now }
    ensures same { take result left.now ≡ take result right.now }
{
    let most = left.len().min(right.len());
    for place in 0..most {
        if left[place] != right[place] {
            return place;
        }
    }
    most
}

impl Chain {
    /// The chain of the top folder.
    pub fn of_top(alloc: Global, folders: &FileFolders) -> Result<Chain, AllocError>
        ensures { IfOk result (IsChain folders.now) }
    {
        let mut levels = Vec::new(alloc);
        push_level(alloc, &mut levels, folders, b"", 0)?;
        let folder = Vec::new(alloc);
        Ok(Chain { folder, levels })
    }

    /// Goes up to what the first bytes of its folder name. The files of the folders that it leaves are let go.
    fn leave(&mut self, len: usize)
        requires { len ≤ length self.old.folder.items }
        ensures folder { self.new.folder.items ≡ take len self.old.folder.items }
        ensures chain { (files : List FileAt) → IsChain files self.old → IsChain files self.new }
    {
        let count = count_above(&self.levels, len);
        self.levels.truncate(count);
        self.folder.truncate(len);
    }

    /// Goes down to a folder, whose name begins with that of its own one.
    fn descend(
        &mut self,
        alloc: Global,
        folders: &FileFolders,
        folder: &[u8],
    ) -> Result<(), AllocError>
        requires within { length self.old.folder.items ≤ length folder.now }
        requires front { self.old.folder.items ≡ take (length self.old.folder.items) folder.now }
        ensures folder { OnOk result (self.new.folder.items ≡ folder.now) }
        ensures chain { IsChain folders.now self.old → IsChain folders.now self.new }
    {
        let mut levels = levels_from(alloc, folders, folder, self.folder.len())?;
        let folder = Vec::from_slice(alloc, folder)?;
        self.levels.append(&mut levels)?;
        self.folder = folder;
        Ok(())
    }

    /// Leaves its folder for another one. The files of the folders above both stay open.
    pub fn enter(
        &mut self,
        alloc: Global,
        folders: &FileFolders,
        folder: &[u8],
    ) -> Result<(), AllocError>
        ensures folder { OnOk result (self.new.folder.items ≡ folder.now) }
        ensures chain { IsChain folders.now self.old → IsChain folders.now self.new }
    {
        if self.folder.as_slice() == folder {
            return Ok(());
        }
        let len = common_len(&self.folder, folder);
        self.leave(len);
        self.descend(alloc, folders, folder)
    }
}
