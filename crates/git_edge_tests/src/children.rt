//! The processes that a repository and its drivers are.
ghost use Rattle.std.specs.Prelude.{◌≡◌, ◌<◌, ◌^◌, length};

use crate::place::{folder_after, has_git, open, path_in, read_hi, runs};
use edge_adapters::{DriverPlace, ProcessSpawner};
use edge_kit::{Link, Spawner, Starter};
use git_edge::GitRepo;
use std::alloc::AllocError;
use std::fs::remove_dir_all;
use std::io;
use std::test::Fail;

/// The program git leaves the numbers of the children that give objects.
const COUNTED: &str =
    "new; lend; cd ..; fake \"case \\$* in *cat-file*) echo \\$\\$ >> $PWD/children;; esac\"";

/// There was a child, and none of them is there.
const NONE_RUNS: &str =
    "test -s children; for child in $(cat children); do if kill -0 $child 2> err; then exit 1; fi; done";

/// Whether a repository that has read an object has a child, and none once it is ended.
fn has_children_till_end(rt: HostRuntime, folder: &str, repo: &mut GitRepo) -> io::Result<bool> {
    let is_read = matches!(read_hi(repo, 99), Ok(Some(_)));
    let none_before = runs(rt, folder, NONE_RUNS)?;
    repo.end();
    Ok(is_read && !none_before && runs(rt, folder, NONE_RUNS)?)
}

/// Whether that holds of the repository in the folder.
fn ends_children(rt: HostRuntime, folder: &str) -> io::Result<bool> {
    match open(rt, folder, "-") {
        Ok(mut repo) => has_children_till_end(rt, folder, &mut repo),
        Err(_) => Ok(false),
    }
}

#[test]
fn the_children_that_give_objects_are_ended(rt: HostRuntime) -> Result<(), Fail> {
    if !has_git(rt)? {
        return Ok(());
    }
    let folder = folder_after(rt, "ended", COUNTED)?;
    let are_ended = ends_children(rt, folder.as_str());
    remove_dir_all(&rt, folder.as_str())?;
    assert!(rt; are_ended?);
    Ok(())
}

/// A driver that writes what it finds in its folder and in `GIT_DIR`.
const DRIVER: &[u8] = b"printf '%s %s\\n' $(cat hi) $GIT_DIR";

/// The place of a driver in this folder.
fn place_in(rt: HostRuntime, folder: &str) -> Result<DriverPlace, AllocError> {
    let git_dir = String::from_str(rt.alloc(), "there")?;
    Ok(DriverPlace {
        folder: path_in(rt, folder, "d")?,
        git_dir: Some(git_dir),
    })
}

/// Whether the driver writes its place.
fn writes_place<S: Starter>(starter: &mut S) -> bool
    requires { length (S.seen starter.old).had < 2 ^ 32 }
    ensures { (S.seen starter.new).out ≡ (S.seen starter.old).out }
{
    let Ok(mut link) = starter.start() else {
        return false;
    };
    let mut wrote = [0; 20];
    let read = link.read(&mut wrote);
    starter.end(link);
    read.is_ok() && wrote.starts_with(b"hi there\n")
}

/// Whether a driver that is started for the folder writes its place.
fn says_place(rt: HostRuntime, folder: &str) -> Result<bool, AllocError> {
    let mut spawner = ProcessSpawner::in_place(rt, place_in(rt, folder)?)?;
    let mut starter = spawner.starter(DRIVER)?;
    let said = writes_place(&mut starter);
    spawner.take_back(starter);
    Ok(said)
}

#[test]
fn a_driver_runs_in_its_place(rt: HostRuntime) -> Result<(), Fail> {
    let folder = folder_after(rt, "place", "mkdir d; echo hi > d/hi")?;
    let said = says_place(rt, folder.as_str());
    remove_dir_all(&rt, folder.as_str())?;
    assert!(rt; said?);
    Ok(())
}
