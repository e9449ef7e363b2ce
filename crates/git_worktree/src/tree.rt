ghost use Rattle.std.specs.Prelude.{◌≡◌, ◌+◌, ◌≤◌, IfOk, None, true, string_bytes, vec_len, vec_capacity};
ghost use Rattle.edge_kit.specs.declared.leaf_state.LeafState.TheVariants.{Fresh};
ghost use Rattle.edge_adapters.specs.Paths.{path_in};
ghost use Rattle.git_worktree.specs.Kinds.{kind_of};

use crate::kinds::{Keeps, kind_of};
use crate::leaf::{Driven, FolderMade, GitLeaf};
use byte_path::Bytes;
use edge_adapters::{LeafPlace, WriteErrors, holds_nothing};
use edge_kit::{Failed, LeafState, Mark, Worktree};
use git_index::Stat;
use std::alloc::{AllocError, Global};
use std::io;
use std::io::ErrorKind;
use std::sync::Arc;
use std::sync::atomic::AtomicBool;

/// The folder of the leaf that was given last, below the worktree's.
#[derive(Drop)]
struct LastFolder {
    path: String,
    made: FolderMade,
}

/// The path of a path's folder, which is empty at the top.
fn folder_of(path: &str) -> &str {
    match path.rsplit_once('/') {
        Some((folder, _)) => folder,
        None => "",
    }
}

/// A folder that a checkout fills as git does, with executable files and links.
#[derive(Drop)]
pub struct GitTree {
    rt: HostRuntime,
    alloc: Global,
    pub folder: String,
    pub keeps: Keeps,
    faults: u64,
    out: usize,
    returned: Vec<(Bytes, LeafState, u64)>,
    // whether a driver has run
    driven: Driven,
    // why the folder couldn't be looked at
    unread: Option<io::Error>,
    // what the leaves that were given back failed for
    errors: WriteErrors,
    last: Option<LastFolder>,
    // whether it is asked what an index tells of the files
    looks: bool,
    // that, and which of the leaves that were given back it is
    stats: Vec<(usize, Stat)>,
    // there is room for each leaf that is out
    ghost room: { vec_len returned + out ≤ vec_capacity returned },
}

impl GitTree {
    /// The folder at this path, there or not, on a file system that keeps this. It reads nothing. Once `driven` is
    /// true, each leaf that has a file looks whether that is still there before it is sealed.
    pub fn new(rt: HostRuntime, folder: String, keeps: Keeps, driven: Driven) -> GitTree
        ensures folder { result.folder ≡ folder }
        ensures keeps { result.keeps ≡ keeps }
    {
        let alloc = rt.alloc();
        GitTree {
            rt,
            alloc,
            folder,
            keeps,
            faults: 0,
            out: 0,
            returned: Vec::new(alloc),
            driven,
            unread: None,
            errors: WriteErrors::new(alloc),
            last: None,
            looks: false,
            stats: Vec::new(alloc),
        }
    }

    /// Has each leaf look at its file once that is sealed, by one call more.
    pub fn look_at_files(&mut self)
        ensures { self.new ≡ record self.old { looks = true } }
    {
        self.looks = true;
    }

    /// What an index is to tell of the files of the leaves that were given back, by their paths and in their order, if
    /// the leaves looked at them. Of a file that isn't there nothing is told.
    pub fn stats(&self) -> Result<Vec<(&[u8], Stat)>, AllocError> {
        let mut told = Vec::with_capacity(self.alloc, self.stats.len())?;
        for (place, stat) in self.stats.iter() {
            if let Some((path, _, _)) = self.returned.get(*place) {
                told.push((path.as_slice(), *stat))?;
            }
        }
        Ok(told)
    }

    /// Why the folder couldn't be looked at, if it couldn't be.
    pub fn unread(&self) -> Option<&io::Error> {
        self.unread.as_ref()
    }

    /// What the leaves that were given back failed for.
    pub fn errors(&self) -> &WriteErrors {
        &self.errors
    }

    /// What the leaves of the path's folder share. Paths come in order, so a folder's come together.
    fn shared_of(&mut self, path: &str) -> Result<FolderMade, AllocError>
        ensures { self.new ≡ record self.old { last = self.new.last } }
    {
        let folder = folder_of(path);
        if let Some(last) = &self.last
            && last.path.as_str() == folder
        {
            return Arc::try_clone(&last.made);
        }
        let made = Arc::new(self.alloc, AtomicBool::new(false))?;
        let shared = Arc::try_clone(&made)?;
        let path = String::from_str(self.alloc, folder)?;
        self.last = Some(LastFolder { path, made });
        Ok(shared)
    }

    /// A leaf for what this path will have, by its mark, in a folder that shares this.
    fn made(&self, path: &str, mark: Mark, folder: FolderMade) -> Result<GitLeaf, AllocError>
        ensures path { IfOk result (λ l. l.place.path ≡ path.now) }
        ensures full { IfOk result (λ l.
            l.place.full ≡ path_in (string_bytes self.now.folder) path.now) }
        ensures mark { IfOk result (λ l. l.mark ≡ mark) }
        ensures kind { IfOk result (λ l. l.kind ≡ kind_of self.now.keeps mark) }
        ensures fresh { IfOk result (λ l. l.state ≡ Fresh) }
        ensures unfailed { IfOk result (λ l. l.faults ≡ 0) }
    {
        let place = LeafPlace::new(self.alloc, self.folder.as_str(), path)?;
        let driven = Arc::try_clone(&self.driven)?;
        let kind = kind_of(self.keeps, mark);
        let mut leaf = GitLeaf::new(self.rt, place, mark, kind, driven, folder);
        if self.looks {
            leaf.stat = Some(Stat::NONE);
        }
        Ok(leaf)
    }
}

impl Worktree for GitTree {
    type Leaf = GitLeaf;

    ghost seen = { λ t. record {
      empty = None;
      files = None;
      faults = t.faults;
      out = t.out;
      returned = t.returned.items;
    } };

    ghost empty_files = { λ _ _. tt };

    ghost ordered_files = { λ _. tt };

    fn is_empty(&mut self) -> Result<bool, Failed> {
        match holds_nothing(self.rt, self.folder.as_str()) {
            Ok(empty) => Ok(empty),
            Err(error) => match error.kind() {
                ErrorKind::NotFound => Ok(true),
                _ => {
                    self.unread = Some(error);
                    self.faults = self.faults.saturating_add(1);
                    Err(Failed)
                }
            },
        }
    }

    /// A leaf for a plain file: with another mark its seal fails.
    fn leaf(&mut self, path: &str) -> Result<GitLeaf, AllocError> {
        self.leaf_for(path, Mark::Plain)
    }

    fn leaf_for(&mut self, path: &str, mark: Mark) -> Result<GitLeaf, AllocError> {
        let folder = self.shared_of(path)?;
        let leaf = self.made(path, mark, folder)?;
        self.errors.reserve()?;
        if self.looks {
            self.stats.reserve(self.out.saturating_add(1))?;
        }
        self.returned.reserve(self.out + 1)?;
        self.out += 1;
        Ok(leaf)
    }

    fn take_back(&mut self, leaf: GitLeaf) {
        if let Some(error) = &leaf.error {
            self.errors.add(error, leaf.place.path());
        }
        if let Some(stat) = leaf.stat {
            let _ = self.stats.push((self.returned.len(), stat));
        }
        let _ = self.returned.push(leaf.ended());
        self.out -= 1;
    }
}
