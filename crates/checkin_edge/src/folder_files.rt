//! The files of a worktree's folder.
ghost use Rattle.std.specs.Prelude.{◌≡◌, ◌++◌, ◌∷◌, [], ◌<◌, true, false, vec_len, vec_capacity};
ghost use Rattle.edge_kit.specs.Told.{Untold};
ghost use Rattle.edge_kit.specs.Faults.{Rose};
ghost use Rattle.checkin_paths.specs.Outside.{no_files_failed};

use crate::folder_entry::{FileRead, WantedKind, read_below};
use crate::looked_files::LookedFiles;
use byte_path::Bytes;
use checkin_paths::Files;
use edge_adapters::{LeafPlace, WriteErrors};
use edge_kit::TakeFault;
use git_index::Stat;
use std::alloc::Global;
use std::io;
use std::io::ErrorKind;

/// The paths of the links of an index, in order.
#[derive(Drop)]
pub struct IndexLinks {
    pub paths: Vec<Bytes>,
    /// Whether the worktree's file system keeps links (git-config(1), core.symlinks). If not, a file is right in the
    /// place of one too.
    pub kept: bool,
}

impl IndexLinks {
    /// What has to stand at the path.
    fn wanted_at(&self, path: &[u8]) -> WantedKind {
        match self
            .paths
            .binary_search_by(|link| link.as_slice().cmp(path))
        {
            Ok(_) if self.kept => WantedKind::Link,
            Ok(_) => WantedKind::Either,
            Err(_) => WantedKind::File,
        }
    }
}

/// The files in a folder, as a check-in takes them: a link is its text, whatever it leads to, and nothing is read
/// through a link to a folder.
#[derive(Drop)]
pub struct FolderFiles {
    rt: HostRuntime,
    alloc: Global,
    pub folder: String,
    faults: u64,
    // the paths at which it has failed
    failed: Vec<Bytes>,
    // what it failed for
    errors: WriteErrors,
    // the links of the index, if each file has to be of the kind that the index has
    links: Option<IndexLinks>,
    // the files that were read
    looked: LookedFiles,
    // whether it failed the last time by the kind of a file, and the paths at which it did
    by_kind: bool,
    of_other_kind: Vec<Bytes>,
}

impl FolderFiles {
    /// The folder at this path, there or not. It reads nothing. A file in a link's place is taken as one, and a link
    /// in a file's place.
    pub fn new(rt: HostRuntime, folder: String) -> FolderFiles
        ensures folder { result.folder ≡ folder }
        ensures seen { ⟦<FolderFiles as Files>⟧.seen result ≡ no_files_failed }
    {
        let alloc = rt.alloc();
        FolderFiles {
            rt,
            alloc,
            folder,
            faults: 0,
            failed: Vec::new(alloc),
            errors: WriteErrors::new(alloc),
            links: None,
            looked: LookedFiles::new(alloc, false),
            by_kind: false,
            of_other_kind: Vec::new(alloc),
        }
    }

    /// This folder, where a file in the place of one of these links fails, and a link in any other place.
    pub fn of_links(self, links: IndexLinks) -> FolderFiles
        ensures folder { result.folder ≡ self.folder }
        ensures seen { ⟦<FolderFiles as Files>⟧.seen result ≡ ⟦<FolderFiles as Files>⟧.seen self }
    {
        let mut files = self;
        files.links = Some(links);
        files
    }

    /// This folder, which keeps what an index is to tell of each file that it reads.
    pub fn keeping_stats(self) -> FolderFiles
        ensures folder { result.folder ≡ self.folder }
        ensures seen { ⟦<FolderFiles as Files>⟧.seen result ≡ ⟦<FolderFiles as Files>⟧.seen self }
    {
        let mut files = self;
        files.looked = LookedFiles::new(files.alloc, true);
        files
    }

    /// What an index is to tell of each file that was read, in turn, if it keeps that.
    pub fn stats(&self) -> &[(Bytes, Stat)] {
        self.looked.stats()
    }

    /// What has to stand at the path.
    fn wanted_at(&self, path: &[u8]) -> WantedKind {
        match &self.links {
            Some(links) => links.wanted_at(path),
            None => WantedKind::Either,
        }
    }

    /// What it failed for.
    pub fn errors(&self) -> &WriteErrors {
        &self.errors
    }

    /// Counts a fault at a path, for which there is room.
    fn fail(&mut self, path: Bytes, error: &io::Error)
        requires { vec_len self.old.failed < vec_capacity self.old.failed }
        ensures paths { self.new.failed.items ≡ self.old.failed.items ++ path ∷ [] }
        ensures rose { Rose self.old.faults self.new.faults }
        ensures no_kind { self.new.by_kind ≡ false }
        ensures kinds { self.new.of_other_kind ≡ self.old.of_other_kind }
    {
        self.errors.add(error, path.as_slice());
        let _ = self.failed.push(path);
        self.faults = self.faults.saturating_add(1);
        self.by_kind = false;
    }

    /// Counts a fault at a path by the kind of its file. There is room for the path and for a copy of it.
    fn fail_by_kind(&mut self, path: Bytes, copy: Bytes)
        requires paths { vec_len self.old.failed < vec_capacity self.old.failed }
        requires kinds { vec_len self.old.of_other_kind < vec_capacity self.old.of_other_kind }
        ensures paths { self.new.failed.items ≡ self.old.failed.items ++ path ∷ [] }
        ensures rose { Rose self.old.faults self.new.faults }
        ensures by_kind { self.new.by_kind ≡ true }
        ensures kinds { self.new.of_other_kind.items ≡ self.old.of_other_kind.items ++ copy ∷ [] }
    {
        self.fail(path, &other_kind());
        let _ = self.of_other_kind.push(copy);
        self.by_kind = true;
    }
}

/// The error of a file in a link's place, and of a link in a file's.
fn other_kind() -> io::Error {
    io::Error::new(
        ErrorKind::InvalidData,
        "A file in a link's place, or a link in a file's",
    )
}

impl Files for FolderFiles {
    ghost told = { λ _ _. Untold };

    ghost seen = { λ f. record {
      faults = f.faults;
      failed = f.failed.items;
      by_kind = f.by_kind;
      of_other_kind = f.of_other_kind.items;
    } };

    fn take(&mut self, path: &str, limit: u64) -> Result<Option<Vec<u8>>, TakeFault> {
        let place = LeafPlace::new(self.alloc, self.folder.as_str(), path)?;
        self.errors.reserve()?;
        self.failed.reserve(1)?;
        self.of_other_kind.reserve(1)?;
        self.looked.reserve()?;
        let wanted = self.wanted_at(path.as_bytes());
        match read_below(self.rt, self.alloc, &place, wanted, limit) {
            Ok(FileRead::Whole(bytes, stat)) => {
                self.looked.add(place, stat);
                Ok(Some(bytes))
            }
            Ok(FileRead::Absent) => Ok(None),
            Ok(FileRead::TooLong) => Err(TakeFault::TooLong),
            Ok(FileRead::OtherKind) => {
                let copy = Bytes::copy_of(self.alloc, path.as_bytes())?;
                self.fail_by_kind(place.into_path(), copy);
                Err(TakeFault::Failed)
            }
            Err(error) if error.kind() == ErrorKind::OutOfMemory => Err(TakeFault::NoMemory),
            Err(error) => {
                self.fail(place.into_path(), &error);
                Err(TakeFault::Failed)
            }
        }
    }

    fn failed_by_kind(&self) -> bool {
        self.by_kind
    }
}
