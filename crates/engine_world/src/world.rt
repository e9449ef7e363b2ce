//! What a run is made over.
use crate::cases::Case;
use crate::out_of_memory::OutOfMemoryRepo;
use byte_path::{Bytes, Items};
use case_kit::unknown;
use checkout_core::Event;
use edge_kit::{DriverScript, MemorySink, MemorySpawner, MemoryTree};
use one_shot::{MemoryOnceMaker, OnceSpawner};
use rehearsal::{Rehearsed, rehearse};
use std::alloc::Global;
use std::test::Fail;
use std::vec::Vec;

/// What a run is made over.
#[derive(Drop)]
pub struct World {
    pub repo: OutOfMemoryRepo,
    pub tree: MemoryTree,
    pub spawner: OnceSpawner<MemorySpawner, MemoryOnceMaker>,
    pub out: MemorySink,
    pub history: Vec<Event>,
}

/// The repository and the drivers of a rehearsal of so many paths.
fn rehearsed(alloc: Global, paths: u32) -> Result<Rehearsed, Fail> {
    if paths > 99_999 {
        return Err(unknown(b"rehearsed"));
    }
    Ok(rehearse(alloc, 0, paths)?)
}

/// The repository and the drivers of a case.
fn met_by(alloc: Global, case: &mut Case) -> Result<Rehearsed, Fail> {
    if let Some(paths) = case.rehearsed {
        return rehearsed(alloc, paths);
    }
    let repo = case.repo.with_index(alloc, case.index.bytes(alloc)?)?;
    let mut scripts = std::mem::replace(&mut case.drivers.drivers, Vec::new(alloc));
    let starts = std::mem::replace(&mut case.drivers.starts, Vec::new(alloc));
    scripts.push(DriverScript {
        command: Bytes::copy_of(alloc, b"lfs")?,
        sessions: Items::from_vec(starts),
    })?;
    let spawner = MemorySpawner::new(alloc, scripts);
    Ok(Rehearsed { repo, spawner })
}

/// What a case's run is made over. The history isn't empty.
pub fn world_of(alloc: Global, case: &mut Case) -> Result<World, Fail> {
    let history = Vec::from_slice(alloc, &[Event::Claim { path: 7, actor: 99 }])?;
    let met = met_by(alloc, case)?;
    let singles = std::mem::replace(&mut case.drivers.singles, Vec::new(alloc));
    let fails = std::mem::replace(&mut case.leaf_fails, Vec::new(alloc));
    let maker = MemoryOnceMaker::new(alloc, singles);
    Ok(World {
        repo: OutOfMemoryRepo {
            repo: met.repo,
            unmade: case.repo.unmade,
            unread: case.repo.unread,
            blobs: 0,
        },
        tree: MemoryTree::new(alloc, case.empty, fails, case.check_fails),
        spawner: OnceSpawner::new(alloc, met.spawner, maker, true),
        out: MemorySink::new(alloc, case.sink_fails),
        history,
    })
}
