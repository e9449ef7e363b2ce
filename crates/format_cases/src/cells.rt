//! Cells that grow.
//!
//! A cell `more TEXT` appends its text to the cell above it, and a cell `times COUNT TEXT` does so as often as it says.
//! The first such repetition in what comes of a block is shown as the count and the text in parentheses.
use case_kit::{Block, Cell, given, number_of, parted, push_all, unknown};
use memchr::memmem;
use std::alloc::{AllocError, Global};
use std::test::Fail;

/// The text that a cell repeats, or nothing if it isn't a repetition.
fn repeated(alloc: Global, cell: &Cell) -> Result<Vec<u8>, Fail> {
    if cell.key.as_slice() != b"times".as_slice() {
        return Ok(Vec::new(alloc));
    }
    let (count, text) = parted(&cell.value);
    let count = number_of(count)? as usize;
    Ok(text.repeat(alloc, count)?)
}

/// Appends a text to the last cell.
fn grow(cells: &mut Vec<Cell>, text: &[u8]) -> Result<(), Fail> {
    match cells.last_mut() {
        Some(cell) => {
            cell.value.extend_from_slice(text)?;
            Ok(())
        }
        None => Err(unknown(text)),
    }
}

/// Adds a cell as it stands.
fn add(alloc: Global, whole: &mut Block, cell: &Cell) -> Result<(), AllocError> {
    push_all(&mut whole.form, &[b" ", &cell.key])?;
    let key = Vec::from_slice(alloc, &cell.key)?;
    let value = Vec::from_slice(alloc, &cell.value)?;
    whole.cells.push(Cell { key, value })?;
    Ok(())
}

/// Takes a cell of a block.
fn take(alloc: Global, whole: &mut Block, cell: &Cell) -> Result<(), Fail> {
    let key = cell.key.as_slice();
    if key == b"more".as_slice() {
        grow(&mut whole.cells, &cell.value)
    } else if key == b"times".as_slice() {
        grow(&mut whole.cells, &repeated(alloc, cell)?)
    } else {
        given(add(alloc, whole, cell))
    }
}

/// Takes the cells of a block.
fn take_all(alloc: Global, whole: &mut Block, cells: &[Cell]) -> Result<(), Fail> {
    for cell in cells {
        take(alloc, whole, cell)?;
    }
    Ok(())
}

/// The block with whole cells.
pub fn whole(alloc: Global, block: &Block) -> Result<Block, Fail> {
    let (kind, _) = parted(&block.form);
    let mut whole = Block {
        form: Vec::from_slice(alloc, kind)?,
        name: Vec::new(alloc),
        cells: Vec::new(alloc),
        wanted: None,
    };
    take_all(alloc, &mut whole, block.cells.as_slice())?;
    Ok(whole)
}

/// The text with the other in parentheses where it first has the long one.
fn shortened(
    alloc: Global,
    text: Vec<u8>,
    long: &[u8],
    short: &[u8],
) -> Result<Vec<u8>, AllocError> {
    if long.is_empty() || long.len() > text.len() {
        return Ok(text);
    }
    let Some(at) = memmem::find(&text, long) else {
        return Ok(text);
    };
    let (front, behind) = text.split_at(at);
    let Some(end) = behind.strip_prefix(long) else {
        return Ok(text);
    };
    let mut list = Vec::new(alloc);
    push_all(&mut list, &[front, b"(", short, b")", end])?;
    Ok(list)
}

/// What came of a block, with its repetitions shown as they are spelled.
pub fn shown_short(alloc: Global, block: &Block, came: Vec<u8>) -> Result<Vec<u8>, Fail> {
    let mut came = came;
    for cell in block.cells.as_slice() {
        let long = repeated(alloc, cell)?;
        came = shortened(alloc, came, &long, &cell.value)?;
    }
    Ok(came)
}
