//! The repository: an index, a configuration, and an object for each file.
ghost use Rattle.std.specs.Prelude.{◌≡◌, ◌++◌, ◌∷◌, [], List, IfOk, OnOk, map};
ghost use Rattle.git_index.specs.Spelling.{AreEntries};
ghost use Rattle.rehearsal.specs.Repository.{File, files, entry_of, IsRepository};
ghost use Rattle.rehearsal.specs.Stored.{IsStored};

use crate::paths::{path_content, path_name};
use byte_path::{Bytes, ObjectId};
use edge_kit::{MemoryRepo, Repo};
use git_index::{Entry, Mode, spell_index};
use object_dir::{blob_name, spell_blob};
use std::alloc::{AllocError, Global};

/// What the attribute file holds.
pub const ATTRIBUTES: &[u8] =
    b"*.k1 text eol=crlf\n*.k2 ident\n*.k3 working-tree-encoding=UTF-16LE\n\
    *.k4 filter=alpha\n*.k5 filter=alpha\n*.k6 filter=beta\n*.k7 filter=beta\n";

const CONFIG: &[u8] = b"[checkout]\nworkers = 4\nthresholdForParallelism = 1\n\
    [filter \"alpha\"]\nprocess = alpha\nrequired = true\n[filter \"beta\"]\nprocess = beta\n";

/// The entries of files, and their objects, each with its name.
#[derive(Drop)]
pub struct Stored {
    pub entries: Vec<Entry>,
    pub objects: Vec<(ObjectId, Vec<u8>)>,
}

/// Adds a file.
fn store(alloc: Global, stored: &mut Stored, path: &[u8], content: &[u8]) -> Result<(), AllocError>
    ensures { (fs : List File) → IsStored stored.old fs
        → OnOk result (IsStored stored.new
        (fs ++ (record { path = path.now; content = content.now }) ∷ [])) }
{
    let name = blob_name(content);
    let bytes = spell_blob(alloc, content)?;
    let path = Bytes::copy_of(alloc, path)?;
    stored.entries.push(Entry {
        path,
        stage: 0,
        mode: Mode::Plain,
        name,
        sparse: false,
        intent: false,
    })?;
    stored.objects.push((name, bytes))?;
    Ok(())
}

/// The attribute file, and the files with these numbers.
fn store_files(alloc: Global, seed: u64, numbers: &[u32]) -> Result<Stored, AllocError>
    ensures { IfOk result (λ s. IsStored s (files seed numbers.now)) }
{
    let mut stored = Stored {
        entries: Vec::new(alloc),
        objects: Vec::new(alloc),
    };
    store(alloc, &mut stored, b".gitattributes", ATTRIBUTES)?;
    for number in numbers {
        let path = path_name(alloc, seed, *number)?;
        let content = path_content(alloc, seed, *number)?;
        store(alloc, &mut stored, &path, &content)?;
    }
    Ok(stored)
}

/// The repository of the attribute file and the files with these numbers, which stand in the order of their paths.
pub fn repository(alloc: Global, seed: u64, numbers: &[u32]) -> Result<MemoryRepo, AllocError>
    requires { AreEntries (map entry_of (files seed numbers.now)) }
    ensures told { IfOk result (λ r. IsRepository (files seed numbers.now) (⟦<MemoryRepo as Repo>⟧.told r)) }
    ensures seen { IfOk result (λ r. ⟦<MemoryRepo as Repo>⟧.seen r ≡ record { faults = 0; out = 0; returned = [] }) }
{
    let stored = store_files(alloc, seed, numbers)?;
    let Stored { entries, objects } = stored;
    let index = spell_index(alloc, &entries)?;
    let config = Vec::from_slice(alloc, CONFIG)?;
    let fails = Vec::new(alloc);
    Ok(MemoryRepo::new(alloc, Some(index), Some(config), None, objects, fails))
}
