//! States of attributes, and what they name.
use attr_line::AttrState;
use byte_path::Bytes;
use case_kit::unknown;
use std::alloc::Global;
use std::test::Fail;
use tree_encoding::{Encoding, encoding_of};

/// The state of an attribute that a cell spells: `+`, `-`, `!`, or `=` and the value.
pub fn state_of(alloc: Global, cell: &[u8]) -> Result<AttrState, Fail> {
    if let Some(value) = cell.strip_prefix(b"=".as_slice()) {
        Ok(AttrState::Value(Bytes::copy_of(alloc, value)?))
    } else if cell == b"+".as_slice() {
        Ok(AttrState::Set)
    } else if cell == b"-".as_slice() {
        Ok(AttrState::Unset)
    } else if cell == b"!".as_slice() {
        Ok(AttrState::Unspecified)
    } else {
        Err(unknown(cell))
    }
}

/// The encoding that a cell's state names, if it names one.
pub fn named(alloc: Global, cell: &[u8]) -> Result<Option<Encoding>, Fail> {
    match encoding_of(&state_of(alloc, cell)?) {
        Ok(encoding) => Ok(encoding),
        Err(_) => Err(unknown(cell)),
    }
}

/// The encoding that a cell's state names.
pub fn encoding_named(alloc: Global, cell: &[u8]) -> Result<Encoding, Fail> {
    match named(alloc, cell)? {
        Some(encoding) => Ok(encoding),
        None => Err(unknown(cell)),
    }
}
