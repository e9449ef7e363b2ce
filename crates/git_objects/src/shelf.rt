//! What the readers of a repository's objects share of its packs.
use crate::bases::{Bases, Spot};
use crate::fault::ObjectsFault;
use crate::index::PackIndex;
use crate::open_files::OpenFiles;
use crate::placed_file::PlacedFile;
use crate::shared_object::SharedObject;
use std::alloc::{AllocError, Global};
use std::io;
use std::sync::{Arc, Mutex, MutexGuard};
use std::thread::yield_now;

/// The index of a pack, and the pack's number, by which it is told apart from every other pack of the shelf.
#[derive(Drop)]
pub struct NumberedIndex {
    pub number: u64,
    pub index: Arc<PackIndex, Global>,
}

/// An index that was read. Its place among the others is its number.
#[derive(Drop)]
struct ReadIndex {
    path: String,
    index: Arc<PackIndex, Global>,
}

/// The open files of packs, the indexes that were read, and the objects that deltas were made of, for all threads that
/// read objects of a repository.
#[derive(Drop)]
pub struct PackShelf {
    rt: HostRuntime,
    files: Arc<OpenFiles, Global>,
    indexes: Mutex<Vec<ReadIndex>>,
    bases: Mutex<Bases>,
}

/// How many bytes of bases are kept if no setting says it (git-config(1), core.deltaBaseCacheLimit).
pub const USUAL_BASES: u64 = 96 << 20;

/// How often a lock is tried. Each thread has it only for a look-up.
const TRIES: u32 = 1000;

/// What is behind a lock, if it is free within some tries. No thread waits for another without end.
fn locked<T>(lock: &Mutex<T>) -> Option<MutexGuard<'_, T>> {
    for _ in 0..TRIES {
        if let Some(guard) = lock.try_lock() {
            return Some(guard);
        }
        yield_now();
    }
    None
}

/// The index at a path, if it was read.
fn index_at(indexes: &[ReadIndex], path: &str) -> Result<Option<NumberedIndex>, AllocError> {
    let Some(place) = indexes.iter().position(|it| it.path.as_str() == path) else {
        return Ok(None);
    };
    let index = Arc::try_clone(&indexes[place].index)?;
    Ok(Some(NumberedIndex {
        number: place as u64,
        index,
    }))
}

impl PackShelf {
    /// A shelf on which nothing is. What deltas were made of is to cost no more than so many bytes.
    pub fn new(rt: HostRuntime, most_of_bases: u64) -> Result<PackShelf, AllocError> {
        Ok(PackShelf {
            rt,
            files: Arc::new(rt.alloc(), OpenFiles::new(rt))?,
            indexes: Mutex::new(Vec::new(rt.alloc())),
            bases: Mutex::new(Bases::new(rt.alloc(), most_of_bases)?),
        })
    }

    /// The file at a path, which is opened when it is read.
    pub fn file_at(&self, path: String) -> io::Result<PlacedFile> {
        PlacedFile::find(self.rt, &self.files, path)
    }

    /// The index at a path, if it was read.
    fn known_index(&self, path: &str) -> Result<Option<NumberedIndex>, AllocError> {
        match locked(&self.indexes) {
            Some(indexes) => index_at(indexes.as_slice(), path),
            None => Ok(None),
        }
    }

    /// Lets the other threads have an index too, unless one of them did meanwhile, and gives it its number.
    fn share_index(&self, path: String, index: PackIndex) -> Result<NumberedIndex, ObjectsFault> {
        let Some(mut indexes) = locked(&self.indexes) else {
            return Err(ObjectsFault::Elsewhere);
        };
        if let Some(known) = index_at(indexes.as_slice(), path.as_str())? {
            return Ok(known);
        }
        let index = Arc::new(self.rt.alloc(), index)?;
        let number = indexes.len() as u64;
        let shared = Arc::try_clone(&index)?;
        indexes.push(ReadIndex {
            path,
            index: shared,
        })?;
        Ok(NumberedIndex { number, index })
    }

    /// The index in a file, which is read unless it was.
    pub fn index_in(&self, source: PlacedFile) -> Result<NumberedIndex, ObjectsFault> {
        if let Some(known) = self.known_index(source.path.as_str())? {
            return Ok(known);
        }
        let path = source.path.clone()?;
        self.share_index(path, PackIndex::new(source)?)
    }

    /// The object at a spot, if it is kept.
    pub fn base_at(&self, spot: Spot) -> Option<SharedObject> {
        locked(&self.bases)?.find(spot)
    }

    /// Keeps an object for all threads.
    pub fn keep_base(&self, spot: Spot, object: SharedObject) {
        if let Some(mut bases) = locked(&self.bases) {
            bases.keep(spot, object);
        }
    }
}
