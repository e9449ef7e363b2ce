//! A check-in, and what it leaves.
use crate::case::{Case, no_once, repo_of};
use crate::long_files::LongFiles;
use byte_path::{Bytes, Items, ObjectId};
use case_kit::push_all;
use checkin_engine::checkin;
use checkin_paths::{MemoryFiles, MemoryKeep};
use edge_kit::{
    DriverScript, DriverSeen, MemoryRepo, MemorySink, MemorySpawner, SessionScript, StartOutcome,
};
use object_dir::blob_name;
use one_shot::{MemoryOnce, OnceScript};
use std::alloc::{AllocError, Global};

/// What a check-in is made over.
#[derive(Drop)]
struct World {
    repo: MemoryRepo,
    files: LongFiles,
    spawner: MemorySpawner,
    once: MemoryOnce,
    keep: MemoryKeep,
    out: MemorySink,
}

/// All that a list has, which has nothing then.
fn taken<T: Drop>(alloc: Global, list: &mut Vec<T>) -> Vec<T> {
    std::mem::replace(list, Vec::new(alloc))
}

/// What starts the driver.
fn spawner_of(
    alloc: Global,
    process: &[u8],
    starts: &mut Vec<SessionScript>,
) -> Result<MemorySpawner, AllocError> {
    let command = Bytes::copy_of(alloc, process)?;
    let sessions = Items::from_vec(taken(alloc, starts));
    let scripts = vec![in alloc; DriverScript { command, sessions }]?;
    Ok(MemorySpawner::new(alloc, scripts))
}

/// What runs the command once.
fn once_of(alloc: Global, once: &mut OnceScript) -> Result<MemoryOnce, AllocError> {
    let none = no_once(alloc)?;
    let script = std::mem::replace(once, none);
    let scripts = vec![in alloc; script]?;
    Ok(MemoryOnce::new(alloc, scripts))
}

/// The files of a case.
fn files_of(alloc: Global, case: &mut Case) -> LongFiles {
    let files = taken(alloc, &mut case.files);
    let unread = taken(alloc, &mut case.unread);
    LongFiles {
        files: MemoryFiles::new(alloc, files, unread),
        long: taken(alloc, &mut case.long),
    }
}

/// What the check-in of a case is made over.
fn world_of(alloc: Global, case: &mut Case) -> Result<World, AllocError> {
    let once = once_of(alloc, &mut case.once)?;
    let spawner = spawner_of(alloc, case.process.as_slice(), &mut case.starts)?;
    let repo = repo_of(alloc, case)?;
    Ok(World {
        repo,
        files: files_of(alloc, case),
        spawner,
        once,
        keep: MemoryKeep::new(alloc, case.keep_fails),
        out: MemorySink::new(alloc, case.sink_fails),
    })
}

/// Runs a check-in. It gives the status.
fn play(alloc: Global, words: &[String], world: &mut World) -> u8 {
    checkin(
        alloc,
        words,
        &mut world.repo,
        &mut world.files,
        &mut world.spawner,
        &mut world.once,
        &mut world.keep,
        &mut world.out,
    )
}

/// Appends what came of a start: the bytes that were sent and whether it was shut, or that it failed.
fn push_start(seen: &mut Vec<u8>, start: &StartOutcome) -> Result<(), AllocError> {
    let StartOutcome::Session(session) = start else {
        return push_all(seen, &[b"not started\n"]);
    };
    push_all(seen, &[b"sent ", session.sent.as_slice(), b"\n"])?;
    if session.shut {
        push_all(seen, &[b"shut\n"])
    } else {
        push_all(seen, &[b"left\n"])
    }
}

/// Appends the starters that were given back, with what came of their starts.
fn push_drivers(seen: &mut Vec<u8>, drivers: &[DriverSeen]) -> Result<(), AllocError> {
    for driver in drivers {
        push_all(seen, &[b"driver ", driver.command.as_slice(), b"\n"])?;
        for start in driver.starts.as_slice() {
            push_start(seen, &start.outcome)?;
        }
    }
    Ok(())
}

/// Appends a kept object with its name.
fn push_object(
    alloc: Global,
    seen: &mut Vec<u8>,
    name: &ObjectId,
    stored: &[u8],
) -> Result<(), AllocError> {
    let name = hex::encode(alloc, *name)?;
    push_all(seen, &[name.as_bytes(), b" ", stored])
}

/// Appends the name of the index, if one is kept.
fn push_index(alloc: Global, seen: &mut Vec<u8>, index: Option<&[u8]>) -> Result<(), AllocError> {
    let Some(index) = index else {
        return Ok(());
    };
    let name = hex::encode(alloc, blob_name(index))?;
    push_all(seen, &[b"index ", name.as_bytes(), b"\n"])
}

/// Appends the kept objects with their names, and the name of the index.
fn push_kept(alloc: Global, seen: &mut Vec<u8>, keep: &MemoryKeep) -> Result<(), AllocError> {
    for (name, stored) in keep.objects() {
        push_object(alloc, seen, name, stored.as_slice())?;
    }
    push_index(alloc, seen, keep.index_text())
}

/// Appends the status.
fn push_status(alloc: Global, seen: &mut Vec<u8>, status: u8) -> Result<(), AllocError> {
    let line = format!(in alloc; "status {status}\n")?;
    push_all(seen, &[line.as_bytes()])
}

/// Appends the report, the status, a line for each object, one for the index, and those of the drivers.
fn push_left(
    alloc: Global,
    seen: &mut Vec<u8>,
    status: u8,
    world: &World,
) -> Result<(), AllocError> {
    push_all(seen, &[world.out.bytes()])?;
    push_status(alloc, seen, status)?;
    push_kept(alloc, seen, &world.keep)?;
    push_drivers(seen, world.spawner.drivers())
}

/// The text of what a check-in left.
fn text_of(alloc: Global, status: u8, world: &World) -> Result<Vec<u8>, AllocError> {
    let mut seen = Vec::new(alloc);
    push_left(alloc, &mut seen, status, world)?;
    Ok(seen)
}

/// What the check-in of a case leaves: the report, the status, a line for each object, one for the index, and those of
/// the drivers.
pub fn left_by(alloc: Global, case: &mut Case) -> Result<Vec<u8>, AllocError> {
    let mut world = world_of(alloc, case)?;
    let status = play(alloc, &case.words, &mut world);
    text_of(alloc, status, &world)
}
