//! Stored objects.
//!
//! - `object`: the cells `name`, `stored` and `nulls`. What a read of this name gives in a repository that has those
//!   bytes, and so many NULs behind them, under this name: `content` and it, or the fault. With the cells `name` and
//!   `has` the repository has the object, no or failing: `has` is `nothing` or `failure`.
//! - `content`: the cell `bytes`. The name of this content, its spelling and its path, parted by line feeds.
use byte_path::ObjectId;
use case_kit::{Cell, filled, number_of, shown, unknown};
use edge_kit::{MemoryRepo, Repo, RepoFail};
use object_dir::{ObjectFault, blob_name, object_path, read_blob, spell_blob};
use std::alloc::{AllocError, Global};
use std::test::Fail;

/// What a read gave: `content` and it, or the fault.
fn told(alloc: Global, answer: Result<Vec<u8>, ObjectFault>) -> Result<Vec<u8>, AllocError> {
    match answer {
        Ok(content) => [b"content ", content.as_slice()].concat(alloc),
        Err(fault) => shown(alloc, fault),
    }
}

/// What the object with this name gives in a repository.
fn object_in(alloc: Global, repo: &mut MemoryRepo, name: &ObjectId) -> Result<Vec<u8>, AllocError> {
    let mut blob = repo.blob(name)?;
    let answer = read_blob(alloc, &mut blob, name);
    repo.take_back(blob);
    told(alloc, answer)
}

/// What the object with this name gives in a repository with these objects and failures.
fn read_named(
    alloc: Global,
    name: &ObjectId,
    objects: Vec<(ObjectId, Vec<u8>)>,
    fails: Vec<RepoFail>,
) -> Result<Vec<u8>, AllocError> {
    let mut repo = MemoryRepo::new(alloc, None, None, None, objects, fails);
    object_in(alloc, &mut repo, name)
}

/// The name that a cell spells.
pub fn name_of(cell: &Cell) -> Result<ObjectId, Fail> {
    match <ObjectId>::try_from(cell.value.as_slice()) {
        Ok(name) => Ok(name),
        Err(_) => Err(unknown(&cell.value)),
    }
}

/// What the object with this name gives that is stored as these bytes and so many NULs.
fn read_stored(
    alloc: Global,
    name: &ObjectId,
    stored: &[u8],
    count: usize,
) -> Result<Vec<u8>, AllocError> {
    let stored = filled(alloc, stored, 0, count, b"")?;
    let objects = vec![in alloc; (*name, stored)]?;
    read_named(alloc, name, objects, Vec::new(alloc))
}

/// What an object with this name gives that isn't there or fails.
fn read_unstored(alloc: Global, name: &ObjectId, is_failing: bool) -> Result<Vec<u8>, AllocError> {
    let mut fails = Vec::new(alloc);
    if is_failing {
        fails.push(RepoFail::Object(*name))?;
    }
    read_named(alloc, name, Vec::new(alloc), fails)
}

/// What comes of a case of the kind `object`.
pub fn read(alloc: Global, cells: &[Cell]) -> Result<Vec<u8>, Fail> {
    match cells {
        [name, stored, nulls] => {
            let name = name_of(name)?;
            let count = number_of(&nulls.value)? as usize;
            Ok(read_stored(alloc, &name, &stored.value, count)?)
        }
        [name, has] => {
            let name = name_of(name)?;
            let is_failing = has.value.as_slice() == b"failure".as_slice();
            Ok(read_unstored(alloc, &name, is_failing)?)
        }
        _ => Err(unknown(b"object")),
    }
}

/// The name of a content, its spelling and its path.
fn names_of(alloc: Global, content: &[u8]) -> Result<Vec<u8>, AllocError> {
    let name = blob_name(content);
    let stored = spell_blob(alloc, content)?;
    let path = object_path(alloc, &name)?;
    [name.as_slice(), b"\n", &stored, b"\n", path.as_bytes()].concat(alloc)
}

/// What comes of a case of the kind `content`.
pub fn named(alloc: Global, cells: &[Cell]) -> Result<Vec<u8>, Fail> {
    let [bytes] = cells else {
        return Err(unknown(b"content"));
    };
    Ok(names_of(alloc, &bytes.value)?)
}
