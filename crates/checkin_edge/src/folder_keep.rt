//! What keeps objects and an index in folders.
ghost use Rattle.std.specs.Prelude.{◌≡◌, ◌++◌, IfOk, None, string_bytes};
ghost use Rattle.edge_kit.specs.Faults.{AfterSend};
ghost use Rattle.checkin_edge.specs.Places.{folder_of, file_of};

use crate::held_entries::{HeldEntry, with_held};
use crate::new_file::{ObjectFolder, replace_file, write_once};
use crate::stored_object::has_object;
use crate::zlib_store::zlib_stored;
use byte_path::ObjectId;
use checkin_paths::Keep;
use edge_adapters::path_in;
use edge_kit::SendFault;
use file_stat::Sharing;
use std::alloc::{AllocError, Global};
use std::io;
use std::io::ErrorKind;

/// How an object's file has the stored bytes.
#[derive(Clone, Copy)]
pub enum ObjectForm {
    /// As they are.
    Plain,
    /// As a zlib stream (gitrepository-layout(5)), which doesn't compress them.
    Zlib,
}

/// A folder of objects, and the file of an index. An object's file that has the object stays, and any other is
/// replaced. Each file gets its name once it is whole, so an index stays until the next one is.
#[derive(Drop)]
pub struct FolderKeep {
    rt: HostRuntime,
    alloc: Global,
    pub objects: String,
    pub index: String,
    pub form: ObjectForm,
    // who else may use the files of objects
    sharing: Sharing,
    faults: u64,
    // its first fault
    error: Option<io::Error>,
    // the entries of an index that get their marks back
    held: Vec<HeldEntry>,
    // whether the index stays in memory
    holds_index: bool,
    // and that index
    made: Option<Vec<u8>>,
}

/// The folder of the object with this name, in a folder of objects: by the first two digits of the name.
fn object_folder(alloc: Global, objects: &str, name: &ObjectId) -> Result<String, AllocError>
    ensures { IfOk result (λ path. string_bytes path ≡ folder_of objects.now name.now) }
{
    let (first, _) = name.as_slice().split_at(1);
    let digits = hex::encode(alloc, first)?;
    path_in(alloc, objects, digits.as_str())
}

/// The file of the object with this name, in its folder: by the other 38 digits.
fn object_file(alloc: Global, folder: &str, name: &ObjectId) -> Result<String, AllocError>
    ensures { IfOk result (λ path. string_bytes path ≡ file_of folder.now name.now) }
{
    let (_, others) = name.as_slice().split_at(1);
    let digits = hex::encode(alloc, others)?;
    path_in(alloc, folder, digits.as_str())
}

impl FolderKeep {
    /// A keeper in this folder of objects, in this form, and in this file of an index. It touches nothing.
    pub fn new(rt: HostRuntime, objects: String, index: String, form: ObjectForm) -> FolderKeep
        ensures objects { result.objects ≡ objects }
        ensures index { result.index ≡ index }
        ensures form { result.form ≡ form }
        ensures seen { ⟦<FolderKeep as Keep>⟧.seen result ≡ record { objects = None; index = None; faults = 0 } }
    {
        FolderKeep {
            rt,
            alloc: rt.alloc(),
            objects,
            index,
            form,
            sharing: Sharing::Umask,
            faults: 0,
            error: None,
            held: Vec::new(rt.alloc()),
            holds_index: false,
            made: None,
        }
    }

    /// This keeper, which gives these entries of an index their marks back: assume-valid, and skip-worktree alone where
    /// they had it. They stand in the index's order.
    pub fn holding(self, held: Vec<HeldEntry>) -> FolderKeep
        ensures objects { result.objects ≡ self.objects }
        ensures index { result.index ≡ self.index }
        ensures form { result.form ≡ self.form }
        ensures seen { ⟦<FolderKeep as Keep>⟧.seen result ≡ ⟦<FolderKeep as Keep>⟧.seen self }
    {
        let mut keep = self;
        keep.held = held;
        keep
    }

    /// This keeper, whose files of objects have the permissions that a repository says.
    pub fn sharing(self, sharing: Sharing) -> FolderKeep
        ensures objects { result.objects ≡ self.objects }
        ensures index { result.index ≡ self.index }
        ensures form { result.form ≡ self.form }
        ensures seen { ⟦<FolderKeep as Keep>⟧.seen result ≡ ⟦<FolderKeep as Keep>⟧.seen self }
    {
        let mut keep = self;
        keep.sharing = sharing;
        keep
    }

    /// This keeper, which keeps the index in memory and writes no file of it.
    pub fn holding_index(self) -> FolderKeep
        ensures objects { result.objects ≡ self.objects }
        ensures index { result.index ≡ self.index }
        ensures form { result.form ≡ self.form }
        ensures seen { ⟦<FolderKeep as Keep>⟧.seen result ≡ ⟦<FolderKeep as Keep>⟧.seen self }
    {
        let mut keep = self;
        keep.holds_index = true;
        keep
    }

    /// The index that it keeps in memory.
    pub fn made_index(&self) -> Option<&[u8]> {
        match &self.made {
            Some(index) => Some(index.as_slice()),
            None => None,
        }
    }

    /// Its first fault.
    pub fn error(&self) -> Option<&io::Error> {
        self.error.as_ref()
    }

    /// Writes an object's file, unless it is there with just these bytes.
    fn write_object(&self, name: &ObjectId, raw: &[u8]) -> io::Result<()> {
        let folder = object_folder(self.alloc, self.objects.as_str(), name)?;
        let path = object_file(self.alloc, folder.as_str(), name)?;
        if has_object(self.rt, self.form, path.as_str(), raw)? {
            return Ok(());
        }
        let folder = ObjectFolder {
            path: folder.as_str(),
            sharing: self.sharing,
        };
        match self.form {
            ObjectForm::Plain => write_once(self.rt, self.alloc, folder, path.as_str(), raw),
            ObjectForm::Zlib => {
                let stream = zlib_stored(self.alloc, raw)?;
                write_once(self.rt, self.alloc, folder, path.as_str(), &stream)
            }
        }
    }

    /// Writes the index's file.
    fn write_index(&self, bytes: &[u8]) -> io::Result<()> {
        let path = self.index.as_str();
        if self.held.is_empty() {
            return replace_file(self.rt, self.alloc, path, bytes);
        }
        let marked = with_held(self.alloc, bytes, self.held.as_slice())?;
        replace_file(self.rt, self.alloc, path, &marked)
    }

    /// Keeps the index in memory, or writes its file.
    fn keep_index(&mut self, bytes: &[u8]) -> io::Result<()>
        ensures kept { self.new ≡ record self.old { made = self.new.made } }
    {
        if !self.holds_index {
            return self.write_index(bytes);
        }
        self.made = Some(with_held(self.alloc, bytes, self.held.as_slice())?);
        Ok(())
    }

    /// Counts a fault if it didn't write.
    fn counted(&mut self, written: io::Result<()>) -> Result<(), SendFault>
        ensures { AfterSend self.old.faults self.new.faults result }
    {
        match written {
            Ok(()) => Ok(()),
            Err(error) if error.kind() == ErrorKind::OutOfMemory => Err(SendFault::NoMemory),
            Err(error) => {
                self.faults = self.faults.saturating_add(1);
                if self.error.is_none() {
                    self.error = Some(error);
                }
                Err(SendFault::Failed)
            }
        }
    }
}

impl Keep for FolderKeep {
    ghost seen = { λ k. record { objects = None; index = None; faults = k.faults } };

    fn object(&mut self, name: &ObjectId, raw: &[u8]) -> Result<(), SendFault> {
        let written = self.write_object(name, raw);
        self.counted(written)
    }

    fn index(&mut self, bytes: &[u8]) -> Result<(), SendFault> {
        let written = self.keep_index(bytes);
        self.counted(written)
    }
}
