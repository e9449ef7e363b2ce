//! A repository in memory.
//!
//! The kind `repository` has the cells `fails`, `reads` and `limit`. A part is `index`, `config`, `attributes`,
//! `base`, or a digit, which is the object whose name is this number twenty times; `fails` may be `-`. The repository
//! has an index, a configuration, attributes of the user, and three objects, of which two have one name.
use byte_path::ObjectId;
use case_kit::{Cell, number_of, shown, unknown};
use edge_kit::{Blob, MemoryRepo, Repo, RepoFail, TakeFault};
use std::alloc::{AllocError, Global};
use std::test::Fail;

/// Adds an object whose name is this byte twenty times.
fn push_object(
    alloc: Global,
    objects: &mut Vec<(ObjectId, Vec<u8>)>,
    byte: u8,
    stored: &[u8],
) -> Result<(), AllocError> {
    let stored = Vec::from_slice(alloc, stored)?;
    objects.push(([byte; 20], stored))?;
    Ok(())
}

/// Adds the three objects.
fn push_objects(alloc: Global, objects: &mut Vec<(ObjectId, Vec<u8>)>) -> Result<(), AllocError> {
    push_object(alloc, objects, 7, b"first")?;
    push_object(alloc, objects, 7, b"second")?;
    push_object(alloc, objects, 9, b"third")
}

/// A repository with these objects, in which this fails.
fn repo_of(
    alloc: Global,
    objects: Vec<(ObjectId, Vec<u8>)>,
    fail: Option<RepoFail>,
) -> Result<MemoryRepo, AllocError> {
    let mut fails = Vec::new(alloc);
    if let Some(fail) = fail {
        fails.push(fail)?;
    }
    let index = Vec::from_slice(alloc, &[1])?;
    let config = Vec::from_slice(alloc, &[2])?;
    let base = Vec::from_slice(alloc, &[3])?;
    let repo = MemoryRepo::new(alloc, Some(index), Some(config), None, objects, fails);
    Ok(repo.with_base(base))
}

/// A repository in which this fails.
fn repo_with(alloc: Global, fail: Option<RepoFail>) -> Result<MemoryRepo, AllocError> {
    let mut objects = Vec::new(alloc);
    push_objects(alloc, &mut objects)?;
    repo_of(alloc, objects, fail)
}

/// The part that a word names, or nothing for `-`.
fn part_of(word: &[u8]) -> Result<Option<RepoFail>, Fail> {
    if word == b"-".as_slice() {
        Ok(None)
    } else if word == b"index".as_slice() {
        Ok(Some(RepoFail::Index))
    } else if word == b"config".as_slice() {
        Ok(Some(RepoFail::Config))
    } else if word == b"attributes".as_slice() {
        Ok(Some(RepoFail::Info))
    } else if word == b"base".as_slice() {
        Ok(Some(RepoFail::Base))
    } else {
        let byte = number_of(word)?.to_be_bytes()[3];
        Ok(Some(RepoFail::Object([byte; 20])))
    }
}

/// Reads an object.
fn read_object<R: Repo>(
    repo: &mut R,
    name: &ObjectId,
    limit: u64,
) -> Result<Option<Vec<u8>>, TakeFault> {
    let mut blob = repo.blob(name)?;
    let taken = blob.take_all(limit);
    repo.take_back(blob);
    taken
}

/// Reads a part.
fn read_part<R: Repo>(
    repo: &mut R,
    part: RepoFail,
    limit: u64,
) -> Result<Option<Vec<u8>>, TakeFault> {
    match part {
        RepoFail::Index => repo.index_bytes(limit),
        RepoFail::Config => repo.config_bytes(limit),
        RepoFail::Info => repo.info_attributes(limit),
        RepoFail::Base => repo.base_attributes(limit),
        RepoFail::Object(name) => read_object(repo, &name, limit),
    }
}

/// What a read gave: `bytes` and these, `nothing`, or the fault.
fn told(alloc: Global, taken: Result<Option<Vec<u8>>, TakeFault>) -> Result<Vec<u8>, AllocError> {
    match taken {
        Ok(Some(bytes)) => [b"bytes ", bytes.as_slice()].concat(alloc),
        Ok(None) => Vec::from_slice(alloc, b"nothing"),
        Err(fault) => shown(alloc, fault),
    }
}

/// What a read of a part gives in a repository in which this fails.
fn part_read(
    alloc: Global,
    fail: Option<RepoFail>,
    part: RepoFail,
    limit: u64,
) -> Result<Vec<u8>, AllocError> {
    let mut repo = repo_with(alloc, fail)?;
    told(alloc, read_part(&mut repo, part, limit))
}

/// What comes of a case of the kind `repository`: `bytes` and these, `nothing`, or the fault.
pub fn read(alloc: Global, cells: &[Cell]) -> Result<Vec<u8>, Fail> {
    let [fails, reads, limit] = cells else {
        return Err(unknown(b"repository"));
    };
    let fail = part_of(&fails.value)?;
    let Some(part) = part_of(&reads.value)? else {
        return Err(unknown(&reads.value));
    };
    let limit = u64::from(number_of(&limit.value)?);
    Ok(part_read(alloc, fail, part, limit)?)
}
