//! What a rehearsal is made of.
ghost use Rattle.std.specs.Prelude.{◌≡◌, ◌≤◌, [], IfOk};
ghost use Rattle.rehearsal.specs.Paths.{in_order};
ghost use Rattle.rehearsal.specs.Repository.{files, IsRepository};
ghost use Rattle.rehearsal.specs.Repository.{FilesHaveAnIndex, AttributesAreRight};
ghost use Rattle.rehearsal.specs.Drivers.{scripts};
ghost use Rattle.rehearsal.specs.Blocks.{BlocksAreAlike};

use crate::files::{ATTRIBUTES, repository};
use crate::order::path_order;
use crate::scripts::scripts;
use edge_kit::{MemoryRepo, MemorySpawner, Repo, Spawner};
use git_index::entries_have_a_text;
use object_dir::spelling_gives_its_content;
use std::alloc::{AllocError, Global};

/// A repository in memory, and the drivers that its configuration names.
#[derive(Drop)]
pub struct Rehearsed {
    pub repo: MemoryRepo,
    pub spawner: MemorySpawner,
}

/// The law that the files of a rehearsal have an index. It does nothing.
pub fn files_have_an_index()
    ensures { FilesHaveAnIndex }
{
    entries_have_a_text();
}

/// The law that the object of a rehearsal's attribute file is there and right. It does nothing.
pub fn attributes_are_right()
    ensures { AttributesAreRight }
{
    spelling_gives_its_content(ATTRIBUTES);
}

/// The law that the same becomes of any 200 paths that follow one another by number. It does nothing.
pub fn blocks_are_alike()
    ensures { BlocksAreAlike }
{}

/// The rehearsal of so many paths, up to 99,999. Equal numbers give an equal rehearsal.
pub fn rehearse(alloc: Global, seed: u64, paths: u32) -> Result<Rehearsed, AllocError>
    requires { paths ≤ 99999 }
    ensures repo { IfOk result (λ r. IsRepository (files seed (in_order paths)) (⟦<MemoryRepo as Repo>⟧.told r.repo)) }
    ensures new_repo { IfOk result (λ r. ⟦<MemoryRepo as Repo>⟧.seen r.repo
        ≡ record { faults = 0; out = 0; returned = [] }) }
    ensures scripts { IfOk result (λ r. r.spawner.scripts.items ≡ scripts seed (in_order paths)) }
    ensures new_spawner { IfOk result (λ r. ⟦<MemorySpawner as Spawner>⟧.seen r.spawner
        ≡ record { returned = []; out = 0 }) }
{
    files_have_an_index();
    let numbers = path_order(alloc, paths)?;
    let repo = repository(alloc, seed, &numbers)?;
    let scripts = scripts(alloc, seed, &numbers)?;
    let spawner = MemorySpawner::new(alloc, scripts);
    Ok(Rehearsed { repo, spawner })
}
