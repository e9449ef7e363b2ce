//! A rehearsal: its files in order, and what its drivers write.
//!
//! The kind `rehearsal` has the cells `seed`, `paths`, which is a number, and `tells`: `paths` lists the paths of the
//! index, `contents` each path and behind a line feed its content, `drivers` each driver's command, how many bytes a
//! read gives, and what its session writes.
use byte_path::ObjectId;
use case_kit::{Cell, number_of, push_all, shown, unknown};
use edge_kit::{DriverScript, MemoryRepo, Repo, SessionScript};
use git_index::{Entry, read_index};
use object_dir::read_blob;
use rehearsal::{Rehearsed, rehearse};
use std::alloc::{AllocError, Global};
use std::test::Fail;

/// The content that the repository has under this name, or the fault.
fn content_of(
    alloc: Global,
    repo: &mut MemoryRepo,
    name: &ObjectId,
) -> Result<Vec<u8>, AllocError> {
    let mut blob = repo.blob(name)?;
    let content = read_blob(alloc, &mut blob, name);
    repo.take_back(blob);
    match content {
        Ok(content) => Ok(content),
        Err(fault) => shown(alloc, fault),
    }
}

/// Appends an entry's path, and its content if it is asked for.
fn push_file(
    alloc: Global,
    came: &mut Vec<u8>,
    repo: &mut MemoryRepo,
    entry: &Entry,
    contents: bool,
) -> Result<(), AllocError> {
    push_all(came, &[entry.path.as_slice(), b"\n"])?;
    if !contents {
        return Ok(());
    }
    let content = content_of(alloc, repo, &entry.name)?;
    came.extend_from_slice(&content)
}

/// The paths of the entries, each with its content if they are asked for.
fn listed(
    alloc: Global,
    repo: &mut MemoryRepo,
    entries: &[Entry],
    contents: bool,
) -> Result<Vec<u8>, Fail> {
    let mut came = Vec::new(alloc);
    for entry in entries {
        push_file(alloc, &mut came, repo, entry, contents)?;
    }
    Ok(came)
}

/// The paths of an index, each with its content if they are asked for.
fn files_by(
    alloc: Global,
    repo: &mut MemoryRepo,
    bytes: &[u8],
    contents: bool,
) -> Result<Vec<u8>, Fail> {
    let index = read_index(alloc, bytes)?;
    listed(alloc, repo, index.entries(), contents)
}

/// The paths of the repository's index, each with its content if they are asked for.
fn files_of(alloc: Global, repo: &mut MemoryRepo, contents: bool) -> Result<Vec<u8>, Fail> {
    match repo.index_bytes(10_000)? {
        Some(bytes) => files_by(alloc, repo, &bytes, contents),
        None => files_by(alloc, repo, b"", contents),
    }
}

/// Appends how many bytes a read of a session gives, and what it writes.
fn push_session(
    alloc: Global,
    came: &mut Vec<u8>,
    session: &SessionScript,
) -> Result<(), AllocError> {
    let starts = shown(alloc, session.starts)?;
    let piece = shown(alloc, session.piece)?;
    let output = session.output.as_slice();
    push_all(came, &[b" ", &starts, b" ", &piece, b"\n", output, b"\n"])
}

/// Appends a driver's command, and for each session how many bytes a read gives, and what it writes.
fn push_driver(alloc: Global, came: &mut Vec<u8>, script: &DriverScript) -> Result<(), AllocError> {
    came.extend_from_slice(script.command.as_slice())?;
    for session in script.sessions.as_slice() {
        push_session(alloc, came, session)?;
    }
    Ok(())
}

/// What the drivers write.
fn drivers_of(alloc: Global, scripts: &[DriverScript]) -> Result<Vec<u8>, AllocError> {
    let mut came = Vec::new(alloc);
    for script in scripts {
        push_driver(alloc, &mut came, script)?;
    }
    Ok(came)
}

/// What a rehearsal tells.
fn told(alloc: Global, rehearsed: &mut Rehearsed, tells: &[u8]) -> Result<Vec<u8>, Fail> {
    if tells == b"paths".as_slice() {
        files_of(alloc, &mut rehearsed.repo, false)
    } else if tells == b"contents".as_slice() {
        files_of(alloc, &mut rehearsed.repo, true)
    } else if tells == b"drivers".as_slice() {
        Ok(drivers_of(alloc, &rehearsed.spawner.scripts)?)
    } else {
        Err(unknown(tells))
    }
}

/// What comes of a case of the kind `rehearsal`.
pub fn rehearsed(alloc: Global, cells: &[Cell]) -> Result<Vec<u8>, Fail> {
    let [seed, paths, tells] = cells else {
        return Err(unknown(b"rehearsal"));
    };
    let seed = u64::from(number_of(&seed.value)?);
    let paths = number_of(&paths.value)?;
    if paths > 99_999 {
        return Err(unknown(b"paths"));
    }
    let mut rehearsed = rehearse(alloc, seed, paths)?;
    told(alloc, &mut rehearsed, &tells.value)
}
