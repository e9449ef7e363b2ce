//! What gives the objects of a repository.
use crate::object_pool::ObjectPool;
use crate::scratch::{Scratch, scratch_fault};
use git_answers::{FoundRepository, Git, GitFault, SettingsList};
use git_objects::USUAL_BASES;
use std::fs::{create_dir, write};
use std::io;

/// Makes of an empty folder the least Git folder, without settings and objects (gitrepository-layout(5)).
fn make_git_dir(git: &Git, scratch: &Scratch) -> io::Result<()> {
    let refs = scratch.path_of(git.alloc, "refs")?;
    create_dir(&git.rt, refs.as_str())?;
    let head = scratch.path_of(git.alloc, "HEAD")?;
    write(&git.rt, head.as_str(), "ref: refs/heads/none\n")
}

/// Another Git folder over the same objects. Git asks no remote for what isn't there, since it knows of none.
fn borrowing(git: &Git, found: &FoundRepository, most_of_bases: u64) -> io::Result<ObjectPool> {
    let scratch = Scratch::make(git.rt, git.alloc)?;
    make_git_dir(git, &scratch)?;
    let borrower = git.about(Some(scratch.path.as_str()), Some(found.objects.as_str()))?;
    let objects = String::from_str(git.alloc, found.objects.as_str())?;
    Ok(ObjectPool::new(borrower, Some(scratch), objects, most_of_bases)?)
}

/// What gives the objects of a repository. In a partial clone a process of git would end at an object that isn't there,
/// so such processes are asked in another Git folder.
pub fn lender_of(
    git: &Git,
    found: &FoundRepository,
    listing: &SettingsList,
) -> Result<ObjectPool, GitFault> {
    let most_of_bases = match listing.size(b"core.deltabasecachelimit") {
        Some(size) => size,
        None => USUAL_BASES,
    };
    if listing.promisor().is_some() {
        return match borrowing(git, found, most_of_bases) {
            Ok(pool) => Ok(pool),
            Err(error) => Err(scratch_fault(git.rt, git.alloc, error)),
        };
    }
    let own = git.about(git.named.as_deref(), None)?;
    let objects = String::from_str(git.alloc, found.objects.as_str())?;
    Ok(ObjectPool::new(own, None, objects, most_of_bases)?)
}
