//! A check-in of a worktree's folder, and what standard error says of it.
use crate::failure_sink::FailureSink;
use crate::notes::{show_drivers, show_errors, show_unkept};
use byte_path::Bytes;
use checkin_edge::{FolderFiles, FolderKeep};
use checkin_engine::checkin;
use edge_adapters::{OutputSink, ProcessSpawner};
use edge_kit::Repo;
use git_index::Stat;
use one_shot::OnceMaker;
use std::alloc::{AllocError, Global};
use std::io::writer;
use std::mem::forget;
use std::thread::Threads;

/// A check-in that has printed its report.
#[derive(Drop)]
pub struct EndedCheckin {
    status: u8,
    spawner: ProcessSpawner,
    files: FolderFiles,
    keep: FolderKeep,
    // the paths that failed, in their order
    failed: Vec<Bytes>,
}

/// What an index is to tell of a file that was read: nothing if its path is one of those that failed.
fn stat_beside(failed: &[Bytes], path: &[u8], stat: Stat) -> Stat {
    match failed.binary_search_by(|other| other.as_slice().cmp(path)) {
        Ok(_) => Stat::NONE,
        Err(_) => stat,
    }
}

impl EndedCheckin {
    /// The status that it ends with.
    pub fn status(&self) -> u8 {
        self.status
    }

    /// The new index, if its keeper keeps that in memory.
    pub fn index(&self) -> Option<&[u8]> {
        self.keep.made_index()
    }

    /// The paths that failed, in their order.
    pub fn failed(&self) -> &[Bytes] {
        self.failed.as_slice()
    }

    /// What an index is to tell of the files that were read, by their paths and in their order, if they keep that.
    /// Nothing is told of a file whose path failed.
    pub fn stats(&self, alloc: Global) -> Result<Vec<(&[u8], Stat)>, AllocError> {
        let failed = self.failed.as_slice();
        let files = self.files.stats();
        let mut told = Vec::with_capacity(alloc, files.len())?;
        for (path, stat) in files {
            let path = path.as_slice();
            told.push((path, stat_beside(failed, path, *stat)))?;
        }
        Ok(told)
    }

    /// Says on standard error what drivers wrote, which files weren't read and what wasn't kept.
    pub fn show_notes(&self, rt: HostRuntime) {
        show_drivers(rt, self.spawner.drivers());
        show_errors(rt, self.files.errors());
        show_unkept(rt, self.keep.error());
    }

    /// The status. The program ends now, and its system takes back what is left of the drivers.
    pub fn end(self) -> u8 {
        let EndedCheckin {
            status,
            spawner,
            files: _,
            keep: _,
            failed: _,
        } = self;
        forget(spawner);
        status
    }
}

/// Checks in the files of a folder by these words, under the drivers of this spawner, and prints the report.
pub fn check_in<R: Repo, T: Threads + Copy + Send>(
    rt: HostRuntime,
    threads: T,
    words: &[String],
    repo: &mut R,
    mut spawner: ProcessSpawner,
    mut files: FolderFiles,
    mut keep: FolderKeep,
) -> Result<EndedCheckin, AllocError> {
    let mut once = spawner.once_maker(threads)?.once()?;
    let mut out = FailureSink::new(rt.alloc(), OutputSink::new(rt, writer(&rt)));
    let status = checkin(
        rt.alloc(),
        words,
        repo,
        &mut files,
        &mut spawner,
        &mut once,
        &mut keep,
        &mut out,
    );
    Ok(EndedCheckin {
        status,
        spawner,
        files,
        keep,
        failed: out.failed,
    })
}
