//! The tree that is wanted in place of the index.
ghost use Rattle.edge_kit.specs.Told.{Untold, Takes};

use crate::index_file::index_by_git;
use crate::object_pool::ObjectPool;
use byte_path::ObjectId;
use edge_kit::TakeFault;
use git_answers::{FoundRepository, Git, GitFault, tree_by_git};
use git_commit::{TreeIndex, index_of, root_tree};
use std::alloc::AllocError;
use std::io;

/// A tree by its name in hex.
#[derive(Drop)]
pub struct WantedTree {
    pub name: String,
    // whether git alone reads it, since objects may be replaced
    is_for_git: bool,
}

/// Why a tree has no index.
#[derive(Drop)]
pub struct IndexLack {
    /// Why git had no folder for it.
    pub unmade: Option<io::Error>,
    /// The line of a report that refuses it, or one below it, which is lacking or broken.
    pub bad: Option<String>,
}

fn name_in(digits: &str) -> Option<ObjectId> {
    let mut name = [0u8; 20];
    match hex::decode_to_slice(digits.as_bytes(), name.as_mut_slice()) {
        Ok(()) => Some(name),
        Err(_) => None,
    }
}

/// The tree of the commit or the tree with this name in hex, as the objects have it.
fn tree_here(git: &Git, pool: &ObjectPool, object: &str) -> Result<Option<String>, AllocError> {
    let Some(name) = name_in(object) else {
        return Ok(None);
    };
    match root_tree(pool, &name) {
        Some(tree) => Ok(Some(hex::encode(git.alloc, tree.as_slice())?)),
        None => Ok(None),
    }
}

impl WantedTree {
    /// The tree of a revision, whose object was found: git says what that is of where the objects don't.
    pub fn of(
        git: &Git,
        found: &FoundRepository,
        pool: &ObjectPool,
        revision: &str,
    ) -> Result<WantedTree, GitFault> {
        let is_for_git = found.replaces;
        let object = found.object.as_deref().unwrap_or(revision);
        if !is_for_git {
            if let Some(name) = tree_here(git, pool, object)? {
                return Ok(WantedTree { name, is_for_git });
            }
        }
        let name = tree_by_git(git, object, revision)?;
        Ok(WantedTree { name, is_for_git })
    }

    /// Its name.
    pub fn object(&self) -> Option<ObjectId> {
        name_in(self.name.as_str())
    }

    /// Its index as it is made here. `None` if git is to make it, or if a tree is bad, which is kept.
    fn index_here(
        &self,
        git: &Git,
        pool: &ObjectPool,
        lack: &mut IndexLack,
    ) -> Result<Option<Vec<u8>>, AllocError> {
        let Some(name) = name_in(self.name.as_str()) else {
            return Ok(None);
        };
        match index_of(pool, git.alloc, &name)? {
            TreeIndex::Made(index) => Ok(Some(index)),
            TreeIndex::ForGit => Ok(None),
            TreeIndex::Bad(line) => {
                lack.bad = Some(line);
                Ok(None)
            }
        }
    }

    /// Its index. What keeps it from being made is kept.
    pub fn index(
        &self,
        git: &Git,
        pool: &ObjectPool,
        limit: u64,
        lack: &mut IndexLack,
    ) -> Result<Option<Vec<u8>>, TakeFault>
        ensures { Takes Untold limit result }
    {
        if !self.is_for_git {
            match self.index_here(git, pool, lack)? {
                Some(index) if index.len() as u64 <= limit => return Ok(Some(index)),
                Some(_) => return Err(TakeFault::TooLong),
                None if lack.bad.is_some() => return Err(TakeFault::Failed),
                None => {}
            }
        }
        index_by_git(git, self.name.as_str(), limit, &mut lack.unmade)
    }
}
