//! What gives objects to one thread at a time.
ghost use Rattle.std.specs.Prelude.{◌≢◌, ◌≤◌, IfOk, IfSome, None, length};
ghost use Rattle.edge_kit.specs.Told.{Untold, Takes};

use crate::cat_file::CatFile;
use byte_path::ObjectId;
use edge_kit::TakeFault;
use git_answers::{Git, fault_of};
use git_objects::{Objects, ObjectsFault, PackShelf};
use std::alloc::Global;
use std::sync::Arc;

/// The files that hold the objects of a repository.
#[derive(Drop)]
enum Files {
    Unopened,
    Open(Objects),
    // git alone can read them
    Refused,
}

/// Reads objects from the files of their repository. A child of git is asked for what these don't give.
#[derive(Drop)]
pub struct ObjectReader {
    files: Files,
    child: Option<CatFile>,
}

/// An object to take, and the one that will probably be taken after it.
#[derive(Clone, Copy)]
pub struct Wanted {
    pub name: ObjectId,
    pub next: Option<ObjectId>,
    pub limit: u64,
}

/// Where objects are: a folder `objects`, and the shelf that opens its packs.
#[derive(Clone, Copy)]
pub struct Store<'a> {
    pub folder: &'a str,
    pub shelf: &'a Arc<PackShelf, Global>,
}

impl ObjectReader {
    /// One that has opened and started nothing.
    pub fn new() -> ObjectReader {
        ObjectReader {
            files: Files::Unopened,
            child: None,
        }
    }

    /// Lists the files of this store, if they aren't listed yet.
    fn open(&mut self, git: &Git, store: Store<'_>) -> Result<(), ObjectsFault> {
        if let Files::Unopened = self.files {
            let folder = String::from_str(git.alloc, store.folder)?;
            let shelf = Arc::try_clone(store.shelf)?;
            self.files = match Objects::in_folder(git.rt, folder, shelf) {
                Ok(objects) => Files::Open(objects),
                Err(ObjectsFault::NoMemory) => return Err(ObjectsFault::NoMemory),
                Err(_) => Files::Refused,
            };
        }
        Ok(())
    }

    /// What the files of this store have of an object.
    fn from_files(
        &mut self,
        git: &Git,
        store: Store<'_>,
        wanted: Wanted,
    ) -> Result<Option<Vec<u8>>, ObjectsFault>
        ensures { IfOk result (λ taken. IfSome taken (λ stored. length stored.items ≤ wanted.limit)) }
    {
        self.open(git, store)?;
        match &mut self.files {
            Files::Open(objects) => objects.take(&wanted.name, wanted.limit),
            _ => Err(ObjectsFault::Elsewhere),
        }
    }

    /// Takes an object by the child, which is started if there is none, and asks it ahead for the next one. After an
    /// error there is none.
    fn from_git(&mut self, git: &Git, wanted: Wanted) -> Result<Option<Vec<u8>>, TakeFault>
        ensures { Takes Untold wanted.limit result }
    {
        let mut child = match self.child.take() {
            Some(child) => child,
            None => match CatFile::start(git) {
                Ok(child) => child,
                Err(error) => return Err(fault_of(&error)),
            },
        };
        let taken = child.take(git, &wanted.name, wanted.limit);
        if taken.is_ok() && child.ask_ahead(wanted.next) {
            self.child = Some(child);
        }
        taken
    }

    /// An object from git where the files are broken or can't be read. One of which they may have something isn't absent.
    fn from_git_if_there(&mut self, git: &Git, wanted: Wanted) -> Result<Option<Vec<u8>>, TakeFault>
        ensures takes { Takes Untold wanted.limit result }
        ensures there { IfOk result (λ stored. stored ≢ None) }
    {
        match self.from_git(git, wanted) {
            Ok(Some(stored)) => Ok(Some(stored)),
            Ok(None) => Err(TakeFault::Failed),
            Err(fault) => Err(fault),
        }
    }

    /// The stored form of an object, from the files of this store, or from a child of git: of a partial clone, of a
    /// pack of another version, and of what can't be read here, git knows what becomes.
    pub fn take(
        &mut self,
        git: &Git,
        store: Store<'_>,
        wanted: Wanted,
    ) -> Result<Option<Vec<u8>>, TakeFault>
        ensures { Takes Untold wanted.limit result }
    {
        match self.from_files(git, store, wanted) {
            Ok(Some(stored)) => Ok(Some(stored)),
            Err(ObjectsFault::TooLong) => Err(TakeFault::TooLong),
            Err(ObjectsFault::NoMemory) => Err(TakeFault::NoMemory),
            // what may not be read may be there
            Err(ObjectsFault::Broken) | Err(ObjectsFault::Unread) => {
                self.from_git_if_there(git, wanted)
            }
            Ok(None) | Err(ObjectsFault::Elsewhere) => self.from_git(git, wanted),
        }
    }
}
