//! Readers of objects, shared by the threads that read them.
ghost use Rattle.edge_kit.specs.Told.{Untold, Takes};

use crate::lent::Lent;
use crate::object_reader::{ObjectReader, Store, Wanted};
use crate::scratch::Scratch;
use byte_path::ObjectId;
use edge_kit::TakeFault;
use git_answers::Git;
use git_commit::StoredObjects;
use git_objects::PackShelf;
use std::alloc::{AllocError, Global};
use std::sync::{Arc, Mutex};

/// The readers of the objects of a repository. Each begins when it is first asked while those before it are busy, so as
/// many are at work as threads have read at once.
#[derive(Drop)]
pub struct ObjectPool {
    // what a child of git is asked by
    git: Git,
    // the Git folder that it is asked in, if it isn't the repository's
    scratch: Option<Scratch>,
    // the folder `objects` of the repository
    folder: String,
    // the files that the readers share
    shelf: Arc<PackShelf, Global>,
    seats: Vec<Mutex<ObjectReader>>,
    lent: Lent,
}

/// More than threads ever read at once.
const SEATS: usize = 64;

impl ObjectPool {
    /// A pool over this folder `objects` that has opened and started nothing. What deltas were made of is to cost no
    /// more than so many bytes.
    pub fn new(
        git: Git,
        scratch: Option<Scratch>,
        folder: String,
        most_of_bases: u64,
    ) -> Result<ObjectPool, AllocError> {
        let mut seats = Vec::with_capacity(git.alloc, SEATS)?;
        for _ in 0..SEATS {
            seats.push(Mutex::new(ObjectReader::new()))?;
        }
        let lent = Lent::new(git.alloc);
        let shelf = Arc::new(git.alloc, PackShelf::new(git.rt, most_of_bases)?)?;
        Ok(ObjectPool {
            git,
            scratch,
            folder,
            shelf,
            seats,
            lent,
        })
    }

    /// Where the readers find objects.
    fn store(&self) -> Store<'_> {
        Store {
            folder: self.folder.as_str(),
            shelf: &self.shelf,
        }
    }

    /// Notes that an object will be taken after those before it, and returns its place among them, if it is known.
    pub fn lend(&self, name: &ObjectId) -> Result<Option<usize>, AllocError> {
        self.lent.add(name)
    }

    /// Takes an object, which was lent in this place, by the first reader that is idle. It waits for no other thread.
    ///
    /// The child of the first reader alone is asked ahead, and only until another reader is asked at all. While one
    /// thread reads, git gets the next object ready. Of several threads each has a child, and those are at work beside
    /// each other.
    pub fn take(
        &self,
        name: &ObjectId,
        place: Option<usize>,
        limit: u64,
    ) -> Result<Option<Vec<u8>>, TakeFault>
        ensures { Takes Untold limit result }
    {
        for (number, seat) in self.seats.iter().enumerate() {
            if let Some(mut reader) = seat.try_lock() {
                if number > 0 {
                    self.lent.share();
                }
                let wanted = Wanted {
                    name: *name,
                    next: self.lent.next(place),
                    limit,
                };
                return reader.take(&self.git, self.store(), wanted);
            }
        }
        let mut own = ObjectReader::new();
        let wanted = Wanted {
            name: *name,
            next: None,
            limit,
        };
        own.take(&self.git, self.store(), wanted)
    }

    /// Ends the child of each reader that is idle, waits for it, and closes the reader's files.
    pub fn end(&self) {
        for seat in self.seats.iter() {
            if let Some(mut reader) = seat.try_lock() {
                *reader = ObjectReader::new();
            }
        }
    }
}

impl StoredObjects for ObjectPool {
    fn stored(&self, name: &ObjectId, limit: u64) -> Result<Option<Vec<u8>>, TakeFault> {
        self.take(name, None, limit)
    }
}
