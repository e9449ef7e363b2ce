//! A repository as git has it, read from its files and through git's own processes.
ghost use Rattle.std.specs.Prelude.{◌≡◌, ◌+◌, ◌≤◌, IfOk, IfSome, length, vec_len, vec_capacity};
ghost use Rattle.edge_kit.specs.Faults.{AfterTake};
ghost use Rattle.edge_kit.specs.Told.{Untold, Takes};

use crate::git_blob::GitBlob;
use crate::index_file::own_index;
use crate::index_lock::IndexLock;
use crate::lender::lender_of;
use crate::new_version::{next_version, version_at};
use crate::object_pool::ObjectPool;
use crate::scratch::scratch_fault;
use crate::unmerged::unmerged_in;
use crate::unread_file::unread_file;
use crate::wanted_tree::{IndexLack, WantedTree};
use byte_path::{Bytes, ObjectId};
use edge_adapters::{DriverPlace, read_whole};
use edge_kit::{Repo, TakeFault};
use file_stat::Sharing;
use git_answers::{
    FoundRepository, Git, GitFault, Met, SettingsList, base_attributes, copy_of, find, list,
    notes_of, place_of, refused_setting, sharing_of, word_of,
};
use git_index::{Version, index_version};
use git_worktree::Keeps;
use std::alloc::{AllocError, Global};
use std::sync::Arc;

/// On which other file systems no path may be one of git's own (git-config(1), core.protectNTFS and core.protectHFS).
#[derive(Clone, Copy, Debug)]
pub struct Guards {
    pub ntfs: bool,
    pub hfs: bool,
}

/// A repository whose objects its files give, and processes of git where these don't.
#[derive(Drop)]
pub struct GitRepo {
    git: Git,
    found: FoundRepository,
    listing: SettingsList,
    // the tree that is wanted in place of the index
    tree: Option<WantedTree>,
    // the index, once it was read
    index: Option<Vec<u8>>,
    // why there is none
    lack: IndexLack,
    pool: Arc<ObjectPool, Global>,
    faults: u64,
    out: usize,
    returned: Vec<(ObjectId, u64)>,
    // the names of those among them that aren't there
    absent: Vec<ObjectId>,
    // why attribute files are left out
    left_out: Vec<String>,
    // there is room for each blob that is out
    ghost room: { vec_len returned + out ≤ vec_capacity returned },
}

impl GitRepo {
    /// The repository that has the Git folder `git_dir`, or without one the repository that git finds from the
    /// folder in which this program was started. Its index is that of a commit, a tag or a tree if a revision names
    /// one, and else the repository's own.
    pub fn open(
        rt: HostRuntime,
        git_dir: Option<&str>,
        revision: Option<&str>,
    ) -> Result<GitRepo, GitFault> {
        GitRepo::open_by(rt, "git", git_dir, revision)
    }

    /// A repository as `open` has it, where git is this program.
    pub fn open_by(
        rt: HostRuntime,
        program: &str,
        git_dir: Option<&str>,
        revision: Option<&str>,
    ) -> Result<GitRepo, GitFault> {
        let git = Git::new(rt, program, git_dir)?;
        let found = find(&git, revision)?;
        let listing = list(&git)?;
        let pool = lender_of(&git, &found, &listing)?;
        let tree = match revision {
            Some(revision) => Some(WantedTree::of(&git, &found, &pool, revision)?),
            None => None,
        };
        let pool = Arc::new(rt.alloc(), pool)?;
        Ok(GitRepo {
            git,
            found,
            listing,
            tree,
            index: None,
            lack: IndexLack {
                unmade: None,
                bad: None,
            },
            pool,
            faults: 0,
            out: 0,
            returned: Vec::new(rt.alloc()),
            absent: Vec::new(rt.alloc()),
            left_out: Vec::new(rt.alloc()),
        })
    }

    /// The absolute path of its Git folder.
    pub fn git_dir(&self) -> &str {
        self.found.git_dir.as_str()
    }

    /// The absolute path of its folder of objects, to which new ones go.
    pub fn objects(&self) -> &str {
        self.found.objects.as_str()
    }

    /// The absolute path of its own index.
    pub fn index_file(&self) -> &str {
        self.found.index.as_str()
    }

    /// The permissions of its new files, or why git would stop there (git-config(1), core.sharedRepository).
    pub fn sharing(&self) -> Result<Sharing, GitFault> {
        sharing_of(&self.git, &self.listing)
    }

    /// The lock of its own index, unless another process has it or it can't be made.
    pub fn lock_index(&self) -> Result<IndexLock, GitFault> {
        let sharing = self.sharing()?;
        IndexLock::take(&self.git, self.found.index.as_str(), sharing)
    }

    /// What the file system of its worktree keeps.
    pub fn keeps(&self) -> Keeps {
        Keeps {
            links: self.listing.is_on(b"core.symlinks"),
        }
    }

    /// Whether its worktree's file system keeps the executable bit (git-config(1), core.fileMode).
    pub fn trusts_modes(&self) -> bool {
        self.listing.is_on(b"core.filemode")
    }

    /// The absolute path of its worktree's top, if it has a worktree.
    pub fn worktree(&self) -> Result<Option<String>, AllocError> {
        copy_of(self.git.alloc, self.found.top.as_deref())
    }

    /// The version of the index that takes the place of its own one, which may have at most so many bytes: by a setting,
    /// else that of the own one, and 2 or 3 if there is none (git-config(1), index.version).
    pub fn next_version(&self, limit: u64) -> Version {
        let own = match (&self.tree, &self.index) {
            (None, Some(index)) => index_version(index.as_slice()),
            _ => version_at(&self.git, self.found.index.as_str(), limit),
        };
        next_version(&self.git, &self.listing, own)
    }

    /// The shell's command that puts an index in place of its own.
    pub fn command_to_take(&self, index: &str) -> Result<String, AllocError> {
        let own = word_of(self.git.alloc, self.found.index.as_str())?;
        let index = word_of(self.git.alloc, index)?;
        format!(in self.git.alloc; "mv {index} {own}")
    }

    /// The name of the tree that is wanted in place of its own index, if one is.
    pub fn wanted_tree(&self) -> Option<ObjectId> {
        match &self.tree {
            Some(tree) => tree.object(),
            None => None,
        }
    }

    /// Gives this index from now on.
    pub fn take_index(&mut self, index: Vec<u8>) {
        self.index = Some(index);
    }

    /// Why something of it couldn't be read, if that is known: for want of a folder for temporary files, or by what the
    /// system says of the index and of `info/attributes`, or the name of an object.
    pub fn read_fault(&self) -> Option<GitFault> {
        if let Some(error) = self.lack.unmade {
            return Some(scratch_fault(self.git.rt, self.git.alloc, error));
        }
        if self.tree.is_none() {
            if let Some(fault) = unread_file(&self.git, self.found.index.as_str()) {
                return Some(fault);
            }
        }
        if let Some(fault) = unread_file(&self.git, self.found.info.as_str()) {
            return Some(fault);
        }
        self.unread_object()
    }

    /// The first object that was given back with a fault.
    fn unread_object(&self) -> Option<GitFault> {
        let (name, _) = self.returned.iter().find(|object| object.1 > 0)?;
        let name = hex::encode(self.git.alloc, name.as_slice()).ok()?;
        Some(GitFault::UnreadObject(name))
    }

    /// The line of the setting with this key, for which it is refused: its value, and where it stands.
    pub fn refused_setting(&self, key: &str) -> Option<String> {
        refused_setting(&self.git, key)
    }

    /// Why its tree is refused, as words, if its index couldn't be made since that tree, or one below it, is lacking or
    /// broken.
    pub fn tree_refusal(&self) -> Result<Option<String>, AllocError> {
        match &self.lack.bad {
            Some(words) => Ok(Some(words.clone()?)),
            None => Ok(None),
        }
    }

    /// Whether git takes each file that it writes to be as its entry says from then on (core.ignoreStat).
    pub fn ignores_stat(&self) -> bool {
        self.listing.is_asked(b"core.ignorestat")
    }

    /// Which file systems its paths are guarded for: both, unless a setting says no.
    pub fn guards(&self) -> Guards {
        Guards {
            ntfs: self.listing.is_on(b"core.protectntfs"),
            hfs: self.listing.is_on(b"core.protecthfs"),
        }
    }

    /// Where git runs the drivers of its paths.
    pub fn driver_place(&self) -> Result<DriverPlace, AllocError> {
        place_of(&self.git, &self.found)
    }

    /// What is to be said of it once its blobs are given back, each in a line without its end: attribute files that are
    /// left out or unmerged, objects that a partial clone lacks, and objects that are replaced. What git can't say
    /// isn't said.
    pub fn notes(&self) -> Result<Vec<String>, AllocError> {
        let tree = match &self.tree {
            Some(tree) => Some(tree.name.as_str()),
            None => None,
        };
        let returned = if self.found.replaces {
            Some(self.returned.as_slice())
        } else {
            None
        };
        let unmerged = self.unmerged()?;
        let met = Met {
            left_out: self.left_out.as_slice(),
            unmerged: unmerged.as_slice(),
            absent: self.absent.as_slice(),
            returned,
        };
        notes_of(&self.git, tree, self.listing.promisor(), met)
    }

    /// The attribute files of its own index that are unmerged, if that was read.
    fn unmerged(&self) -> Result<Vec<Bytes>, AllocError> {
        match (&self.tree, &self.index) {
            (None, Some(index)) => unmerged_in(self.git.alloc, index.as_slice()),
            _ => Ok(Vec::new(self.git.alloc)),
        }
    }

    /// Closes the files of objects, ends the processes that give some, and waits for each. No blob may be in use.
    pub fn end(&self) {
        self.pool.end();
    }

    /// The index as it was read before, if it is within the limit.
    fn read_before(&self, limit: u64) -> Result<Option<Vec<u8>>, AllocError>
        ensures { IfOk result (λ index. IfSome index (λ bytes. length bytes.items ≤ limit)) }
    {
        match &self.index {
            Some(index) if index.len() as u64 <= limit => Ok(Some(index.clone()?)),
            _ => Ok(None),
        }
    }

    /// Counts a fault if the content wasn't taken for one.
    fn counted(
        &mut self,
        taken: Result<Option<Vec<u8>>, TakeFault>,
    ) -> Result<Option<Vec<u8>>, TakeFault>
        ensures result { result ≡ taken }
        ensures out { self.new.out ≡ self.old.out }
        ensures returned { self.new.returned.items ≡ self.old.returned.items }
        ensures faults { AfterTake self.old.faults self.new.faults result }
    {
        if let Err(TakeFault::Failed) = taken {
            self.faults = self.faults.saturating_add(1);
        }
        taken
    }
}

impl Repo for GitRepo {
    type Blob = GitBlob;

    ghost told = { λ _. record {
      index = Untold;
      config = Untold;
      info = Untold;
      base = Untold;
      object = λ _. Untold;
    } };

    ghost seen = { λ r. record { faults = r.faults; out = r.out; returned = r.returned.items } };

    /// It is read once, so that all who ask have the same.
    fn index_bytes(&mut self, limit: u64) -> Result<Option<Vec<u8>>, TakeFault> {
        if let Some(index) = self.read_before(limit)? {
            return Ok(Some(index));
        }
        let taken = match &self.tree {
            Some(tree) => tree.index(&self.git, &self.pool, limit, &mut self.lack),
            None => own_index(
                &self.git,
                self.found.index.as_str(),
                limit,
                &mut self.lack.unmade,
            ),
        };
        if let Ok(Some(index)) = &taken {
            self.index = Some(index.clone()?);
        }
        self.counted(taken)
    }

    fn config_bytes(&mut self, limit: u64) -> Result<Option<Vec<u8>>, TakeFault> {
        let config = self.listing.config(self.git.alloc)?;
        if config.len() as u64 > limit {
            return Err(TakeFault::TooLong);
        }
        Ok(Some(config))
    }

    fn info_attributes(&mut self, limit: u64) -> Result<Option<Vec<u8>>, TakeFault> {
        let path = self.found.info.as_str();
        let taken = read_whole(self.git.rt, self.git.alloc, path, limit);
        self.counted(taken)
    }

    fn base_attributes(&mut self, limit: u64) -> Result<Option<Vec<u8>>, TakeFault> {
        let mut left_out = Vec::new(self.git.alloc);
        let taken = base_attributes(&self.git, &self.found, &self.listing, limit, &mut left_out);
        self.left_out = left_out;
        self.counted(taken)
    }

    fn blob(&mut self, name: &ObjectId) -> Result<GitBlob, AllocError> {
        let pool = Arc::try_clone(&self.pool)?;
        self.absent.reserve(self.out.saturating_add(1))?;
        self.returned.reserve(self.out + 1)?;
        let place = self.pool.lend(name)?;
        self.out += 1;
        Ok(GitBlob::new(pool, *name, place))
    }

    /// The name of an object that isn't there is kept too, for which there is room.
    fn take_back(&mut self, blob: GitBlob) {
        if blob.is_absent {
            let _ = self.absent.push(blob.name);
        }
        let name = blob.name;
        let _ = self.returned.push((name, blob.faults));
        self.out -= 1;
    }
}
