//! The cells of a block.
use crate::case::{Case, no_case, read_fail_of, words_of};
use byte_path::Bytes;
use case_kit::{Cell, number_of, parted, unknown};
use std::alloc::Global;
use std::test::Fail;

/// Takes what a cell says of the repository. Whether it is such a cell.
fn set_repo(alloc: Global, case: &mut Case, key: &[u8], value: &[u8]) -> Result<bool, Fail> {
    if key == b"entry".as_slice() {
        case.add_entry(value)?;
    } else if key == b"absent".as_slice() {
        case.has_index = false;
    } else if key == b"config".as_slice() {
        case.config = Vec::from_slice(alloc, value)?;
    } else if key == b"info".as_slice() {
        case.info = Vec::from_slice(alloc, value)?;
    } else if key == b"drivers".as_slice() {
        case.add_drivers(number_of(value)?)?;
    } else if key == b"read-fails".as_slice() {
        case.read_fails.push(read_fail_of(value)?)?;
    } else {
        return Ok(false);
    }
    Ok(true)
}

/// Takes what a cell says of the words, the files and what fails. Whether it is such a cell.
fn set_rest(alloc: Global, case: &mut Case, key: &[u8], value: &[u8]) -> Result<bool, Fail> {
    let (path, bytes) = parted(value);
    if key == b"file".as_slice() {
        case.add_file(alloc, path, bytes)?;
    } else if key == b"long".as_slice() {
        let size = number_of(bytes)?;
        case.long.push((Bytes::copy_of(alloc, path)?, size))?;
    } else if key == b"unread".as_slice() {
        case.unread.push(Bytes::copy_of(alloc, value)?)?;
    } else if key == b"keep".as_slice() {
        case.keep_fails = Some(number_of(value)?);
    } else if key == b"sink".as_slice() {
        case.sink_fails = Some(number_of(value)?);
    } else if key == b"word".as_slice() {
        case.words = words_of(alloc, value)?;
    } else {
        return Ok(false);
    }
    Ok(true)
}

/// Takes what a cell says of a driver and of a single run. Whether it is such a cell.
fn set_driver(alloc: Global, case: &mut Case, key: &[u8], value: &[u8]) -> Result<bool, Fail> {
    if key == b"process".as_slice() {
        case.process = Bytes::copy_of(alloc, value)?;
    } else if key == b"gives".as_slice() {
        case.add_start(alloc, true, value)?;
    } else if key == b"not-started".as_slice() {
        case.add_start(alloc, false, value)?;
    } else if key == b"once".as_slice() {
        case.once.command = Bytes::copy_of(alloc, value)?;
    } else if key == b"takes".as_slice() {
        case.once.input = Bytes::copy_of(alloc, value)?;
    } else if key == b"yields".as_slice() {
        case.once.output = Bytes::copy_of(alloc, value)?;
    } else if key == b"bad".as_slice() {
        case.once.zero = false;
    } else {
        return Ok(false);
    }
    Ok(true)
}

/// Takes what a cell says.
fn set(alloc: Global, case: &mut Case, key: &[u8], value: &[u8]) -> Result<(), Fail> {
    if set_repo(alloc, case, key, value)?
        || set_rest(alloc, case, key, value)?
        || set_driver(alloc, case, key, value)?
    {
        return Ok(());
    }
    Err(unknown(key))
}

/// Takes what the cells say.
fn set_all(alloc: Global, case: &mut Case, cells: &[Cell]) -> Result<(), Fail> {
    for cell in cells {
        set(alloc, case, &cell.key, &cell.value)?;
    }
    Ok(())
}

/// The case of these cells.
pub fn case_of(alloc: Global, cells: &[Cell]) -> Result<Case, Fail> {
    let mut case = no_case(alloc)?;
    set_all(alloc, &mut case, cells)?;
    Ok(case)
}
