//! A check-in into a Git folder with uncompressed objects.
use crate::word_at;
use checkin_edge::{FolderFiles, FolderKeep, ObjectForm};
use edge_adapters::{FolderRepo, ProcessSpawner, path_in};
use program_kit::check_in;
use std::alloc::AllocError;
use std::sync::Wait;
use std::thread::Threads;

/// What keeps objects and the file `index-checkin` in this Git folder. It touches nothing.
fn keep_of(rt: HostRuntime, folder: &str) -> Result<FolderKeep, AllocError> {
    let objects = path_in(rt.alloc(), folder, "objects")?;
    let index = path_in(rt.alloc(), folder, "index-checkin")?;
    Ok(FolderKeep::new(rt, objects, index, ObjectForm::Plain))
}

/// The status of a check-in: the files of the folder that the second word names go into the Git folder that the first
/// one names.
pub fn checkin_words<H: Threads + Wait + Sync>(
    rt: HostRuntime,
    threads: &H,
    words: &[String],
) -> Result<u8, AllocError> {
    // first, since it takes the number of a closed standard error
    let spawner = ProcessSpawner::new(rt);
    let folder = word_at(rt, words, 0)?;
    let keep = keep_of(rt, folder.as_str())?;
    let mut repo = FolderRepo::new(rt, folder)?;
    let files = FolderFiles::new(rt, word_at(rt, words, 1)?);
    Ok(check_in(rt, threads, words, &mut repo, spawner, files, keep)?.end())
}
