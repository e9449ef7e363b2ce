//! The objects of a repository.
ghost use Rattle.std.specs.Prelude.{◌≡◌, None, IfOk, IfSome, ◌≤◌, ◌<◌, length, vec_len};

use crate::alternates::Folders;
use crate::fault::ObjectsFault;
use crate::loose::loose_object;
use crate::pack::Pack;
use crate::placed_file::PlacedFile;
use crate::shelf::{PackShelf, USUAL_BASES};
use byte_path::ObjectId;
use edge_adapters::path_in;
use std::alloc::Global;
use std::fs::read_dir;
use std::io;
use std::io::ErrorKind;
use std::sync::Arc;

/// The objects of a repository: its own and those that it borrows, loose ones and packs. A thread that reads has a
/// reader of its own. Readers of one shelf share the open files of packs.
#[derive(Drop)]
pub struct Objects {
    rt: HostRuntime,
    shelf: Arc<PackShelf, Global>,
    folders: Folders,
    // the one that gave an object last is first
    packs: Vec<Pack>,
    // why an object may be there that isn't found
    lack: Option<ObjectsFault>,
}

/// The first cause, if there is one.
fn first_of(first: Option<ObjectsFault>, second: ObjectsFault) -> Option<ObjectsFault> {
    match first {
        Some(fault) => Some(fault),
        None => Some(second),
    }
}

/// A file that may be gone meanwhile.
fn still_there(opened: io::Result<PlacedFile>) -> Result<Option<PlacedFile>, ObjectsFault> {
    match opened {
        Ok(source) => Ok(Some(source)),
        Err(error) if error.kind() == ErrorKind::NotFound => Ok(None),
        Err(error) => Err(ObjectsFault::from(error)),
    }
}

impl Objects {
    /// The objects of the repository that has this Git folder. Packs are listed, and no object is read.
    pub fn open(rt: HostRuntime, git_dir: &str) -> Result<Objects, ObjectsFault> {
        let shelf = Arc::new(rt.alloc(), PackShelf::new(rt, USUAL_BASES)?)?;
        Objects::in_folder(rt, path_in(rt.alloc(), git_dir, "objects")?, shelf)
    }

    /// The objects in this folder `objects`, and in those that it borrows from. The shelf opens the packs.
    pub fn in_folder(
        rt: HostRuntime,
        folder: String,
        shelf: Arc<PackShelf, Global>,
    ) -> Result<Objects, ObjectsFault> {
        let alloc = rt.alloc();
        let folders = Folders::of(rt, folder)?;
        let lack = if folders.are_partial {
            Some(ObjectsFault::Elsewhere)
        } else {
            None
        };
        let mut objects = Objects {
            rt,
            shelf,
            folders,
            packs: Vec::new(alloc),
            lack,
        };
        objects.list()?;
        Ok(objects)
    }

    /// Lists the packs that aren't known yet.
    fn list(&mut self) -> Result<(), ObjectsFault> {
        for place in 0..self.folders.paths.len() {
            match self.list_folder(place) {
                Err(ObjectsFault::NoMemory) => return Err(ObjectsFault::NoMemory),
                Err(fault) => self.lack = first_of(self.lack, fault),
                Ok(()) => {}
            }
        }
        Ok(())
    }

    /// Lists the packs of a folder that aren't known yet.
    fn list_folder(&mut self, place: usize) -> Result<(), ObjectsFault> {
        let Some(folder) = self.folders.paths.get(place) else {
            return Ok(());
        };
        let folder = path_in(self.rt.alloc(), folder.as_str(), "pack")?;
        let entries = match read_dir(&self.rt, folder.as_str()) {
            Ok(entries) => entries,
            Err(error) if error.kind() == ErrorKind::NotFound => return Ok(()),
            Err(error) => return Err(ObjectsFault::from(error)),
        };
        for entry in entries {
            self.note_file(folder.as_str(), entry?.file_name())?;
        }
        Ok(())
    }

    /// Lists the pack of an index. What a partial clone lacks git may fetch.
    fn note_file(&mut self, folder: &str, file: &str) -> Result<(), ObjectsFault> {
        if file.ends_with(".promisor") {
            self.lack = first_of(self.lack, ObjectsFault::Elsewhere);
        }
        let Some(name) = file.strip_suffix(".idx") else {
            return Ok(());
        };
        let name = path_in(self.rt.alloc(), folder, name)?;
        if self.packs.iter().any(|pack| pack.name == name) {
            return Ok(());
        }
        match self.add_pack(name) {
            Err(ObjectsFault::NoMemory) => Err(ObjectsFault::NoMemory),
            Err(fault) => {
                self.lack = first_of(self.lack, fault);
                Ok(())
            }
            Ok(()) => Ok(()),
        }
    }

    /// Lists the pack with this name. One that is gone meanwhile isn't missed.
    fn add_pack(&mut self, name: String) -> Result<(), ObjectsFault> {
        let alloc = self.rt.alloc();
        let index = format!(in alloc; "{name}.idx")?;
        let pack = format!(in alloc; "{name}.pack")?;
        let Some(index) = still_there(self.shelf.file_at(index))? else {
            return Ok(());
        };
        let Some(pack) = still_there(self.shelf.file_at(pack))? else {
            return Ok(());
        };
        let index = self.shelf.index_in(index)?;
        let pack = Pack::new(alloc, name, index, pack)?;
        self.packs.push(pack)?;
        Ok(())
    }

    /// Puts a pack in front of the others. The one that was there gives back its memory.
    fn put_first(&mut self, place: usize)
        requires { place < vec_len self.old.packs }
    {
        if place != 0 {
            self.packs[0].let_go();
            self.packs.swap(0, place);
        }
    }

    /// What the packs have of an object. Where one fails another may have it too.
    fn in_packs(&mut self, name: &ObjectId, limit: u64) -> Result<Option<Vec<u8>>, ObjectsFault>
        ensures { IfOk result (λ taken. IfSome taken (λ stored. length stored.items ≤ limit)) }
    {
        let mut first = None;
        for place in 0..self.packs.len() {
            match self.packs[place].object(&self.shelf, name, limit) {
                Ok(Some(stored)) => {
                    self.put_first(place);
                    return Ok(Some(stored));
                }
                Ok(None) => {}
                Err(fault) => first = first_of(first, fault),
            }
        }
        match first {
            Some(fault) => Err(fault),
            None => Ok(None),
        }
    }

    /// What the files of loose objects have of an object.
    fn in_files(&self, name: &ObjectId, limit: u64) -> Result<Option<Vec<u8>>, ObjectsFault>
        ensures { IfOk result (λ taken. IfSome taken (λ stored. length stored.items ≤ limit)) }
    {
        let mut first = None;
        for folder in self.folders.paths.iter() {
            match loose_object(self.rt, folder.as_str(), name, limit) {
                Ok(Some(stored)) => return Ok(Some(stored)),
                Ok(None) => {}
                Err(fault) => first = first_of(first, fault),
            }
        }
        match first {
            Some(fault) => Err(fault),
            None => Ok(None),
        }
    }

    /// What packs or files have of an object.
    fn look(&mut self, name: &ObjectId, limit: u64) -> Result<Option<Vec<u8>>, ObjectsFault>
        ensures { IfOk result (λ taken. IfSome taken (λ stored. length stored.items ≤ limit)) }
    {
        let packed = self.in_packs(name, limit);
        if let Ok(Some(_)) = &packed {
            return packed;
        }
        match self.in_files(name, limit) {
            Ok(None) => packed,
            Ok(Some(stored)) => Ok(Some(stored)),
            Err(fault) => match packed {
                Err(fault) => Err(fault),
                Ok(_) => Err(fault),
            },
        }
    }

    /// The stored form of the object with this name: its kind, its size in decimal, a NUL and its content. `None` if
    /// it isn't there. One that is longer than the limit isn't made, and nothing is checked against the name.
    ///
    /// Where it isn't found packs are listed again, since git may have packed objects anew.
    pub fn take(&mut self, name: &ObjectId, limit: u64) -> Result<Option<Vec<u8>>, ObjectsFault>
        ensures within { IfOk result (λ taken. IfSome taken (λ stored. length stored.items ≤ limit)) }
        ensures absent { IfOk result (λ taken. taken ≡ None → self.new.lack ≡ None) }
    {
        if let Some(stored) = self.look(name, limit)? {
            return Ok(Some(stored));
        }
        self.list()?;
        if let Some(stored) = self.in_packs(name, limit)? {
            return Ok(Some(stored));
        }
        match self.lack {
            Some(fault) => Err(fault),
            None => Ok(None),
        }
    }
}
