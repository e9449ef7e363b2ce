use crate::spelling::push_spelled;
use crate::text::{parted, push_all};
use std::alloc::{AllocError, Global};
use std::test::Fail;

/// A cell of a block.
#[derive(Drop)]
pub struct Cell {
    pub key: Vec<u8>,
    pub value: Vec<u8>,
}

/// A case.
#[derive(Drop)]
pub struct Block {
    /// The kind, and the words of the cells, each after a space.
    pub form: Vec<u8>,
    pub name: Vec<u8>,
    pub cells: Vec<Cell>,
    pub wanted: Option<Vec<u8>>,
}

/// A block that begins with this line.
fn begun(alloc: Global, line: &[u8]) -> Result<Block, AllocError> {
    let (kind, name) = parted(line);
    Ok(Block {
        form: Vec::from_slice(alloc, kind)?,
        name: Vec::from_slice(alloc, name)?,
        cells: Vec::new(alloc),
        wanted: None,
    })
}

/// Takes a line `wanted`.
fn add_wanted(alloc: Global, block: &mut Block, value: &[u8]) -> Result<(), Fail> {
    match &mut block.wanted {
        Some(wanted) => {
            wanted.push(b'\n')?;
            push_spelled(wanted, value)
        }
        None => {
            let mut wanted = Vec::new(alloc);
            push_spelled(&mut wanted, value)?;
            block.wanted = Some(wanted);
            Ok(())
        }
    }
}

/// Takes any other line of a block.
fn add_cell(alloc: Global, block: &mut Block, key: &[u8], spelled: &[u8]) -> Result<(), Fail> {
    let mut value = Vec::new(alloc);
    push_spelled(&mut value, spelled)?;
    push_all(&mut block.form, &[b" ", key])?;
    let key = Vec::from_slice(alloc, key)?;
    block.cells.push(Cell { key, value })?;
    Ok(())
}

/// Takes a line of a block.
fn add_line(alloc: Global, block: &mut Block, line: &[u8]) -> Result<(), Fail> {
    let (key, spelled) = parted(line);
    match key {
        b"wanted" => add_wanted(alloc, block, spelled),
        _ => add_cell(alloc, block, key, spelled),
    }
}

/// Takes a line of a file behind these blocks and the one that has begun, if there is one.
fn take_line(
    alloc: Global,
    blocks: &mut Vec<Block>,
    open: Option<Block>,
    line: &[u8],
) -> Result<Option<Block>, Fail> {
    match (open, line) {
        (Some(block), []) => {
            blocks.push(block)?;
            Ok(None)
        }
        (open, [b'#', ..] | []) => Ok(open),
        (Some(mut block), _) => {
            add_line(alloc, &mut block, line)?;
            Ok(Some(block))
        }
        (None, _) => Ok(Some(begun(alloc, line)?)),
    }
}

/// The blocks of a file.
pub fn blocks_of(alloc: Global, file: &[u8]) -> Result<Vec<Block>, Fail> {
    let mut blocks = Vec::new(alloc);
    let mut open = None;
    for line in file.split(|byte| *byte == b'\n') {
        open = take_line(alloc, &mut blocks, open, line)?;
    }
    if let Some(block) = open {
        blocks.push(block)?;
    }
    Ok(blocks)
}
