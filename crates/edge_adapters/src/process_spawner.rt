//! The maker of the starters of drivers as child processes.
ghost use Rattle.std.specs.Prelude.{◌≡◌, ◌≤◌, ◌+◌, map, vec_len, vec_capacity};
ghost use Rattle.edge_kit.specs.Starters.{StartsUntold};
ghost use Rattle.edge_adapters.specs.Starts.{driver_of};

use crate::process_once::ProcessOnceMaker;
use crate::process_starter::{ProcessStarter, ReturnedDriver};
use crate::standard_files::{hold_standard, is_silent};
use byte_path::Bytes;
use edge_kit::{Spawner, Starter};
use std::alloc::{AllocError, Global};
use std::fs::File;
use std::sync::Arc;
use std::thread::Threads;

/// Where drivers run.
#[derive(Drop)]
pub struct DriverPlace {
    /// The folder that they run in.
    pub folder: String,
    /// The value that they find in `GIT_DIR`, if it isn't the one that this program was given.
    pub git_dir: Option<String>,
}

/// The maker of starters that start child processes by the shell.
#[derive(Drop)]
pub struct ProcessSpawner {
    rt: HostRuntime,
    alloc: Global,
    returned: Vec<ReturnedDriver>,
    out: usize,
    // whether standard error leads to nothing, and what has the numbers of closed descriptors
    quiet: bool,
    held: Vec<File>,
    // if it is none, drivers run where this program was started
    place: Option<Arc<DriverPlace, Global>>,
    // there is room for each starter that is out
    ghost room: { vec_len returned + out ≤ vec_capacity returned },
}

impl ProcessSpawner {
    /// A spawner that has given nothing. It starts nothing. If standard input, output or error is closed, its number is
    /// taken until the spawner is dropped, so this comes before anything is opened.
    pub fn new(rt: HostRuntime) -> ProcessSpawner {
        ProcessSpawner::with_place(rt, None)
    }

    /// A spawner that has given nothing, of drivers that run in this place.
    pub fn in_place(rt: HostRuntime, place: DriverPlace) -> Result<ProcessSpawner, AllocError> {
        let place = Arc::new(rt.alloc(), place)?;
        Ok(ProcessSpawner::with_place(rt, Some(place)))
    }

    fn with_place(rt: HostRuntime, place: Option<Arc<DriverPlace, Global>>) -> ProcessSpawner {
        let alloc = rt.alloc();
        let quiet = is_silent(rt);
        ProcessSpawner {
            rt,
            alloc,
            returned: Vec::new(alloc),
            out: 0,
            quiet,
            held: hold_standard(rt),
            place,
        }
    }

    /// A maker of single runs where its drivers run, with the same standard error. What starts threads is given.
    pub fn once_maker<T: Threads + Copy>(
        &self,
        threads: T,
    ) -> Result<ProcessOnceMaker<T>, AllocError> {
        ProcessOnceMaker::new(self.rt, threads, self.quiet, self.place.as_ref())
    }

    /// The drivers whose starters were given back.
    pub fn drivers(&self) -> &[ReturnedDriver]
        ensures { result.now ≡ self.now.returned.items }
    {
        self.returned.as_slice()
    }
}

impl Spawner for ProcessSpawner {
    type Starter = ProcessStarter;

    ghost told = { λ _ _. StartsUntold };

    ghost seen = { λ s. record { returned = map driver_of s.returned.items; out = s.out } };

    fn starter(&mut self, command: &[u8]) -> Result<ProcessStarter, AllocError> {
        let command = Bytes::copy_of(self.alloc, command)?;
        let place = match &self.place {
            Some(place) => Some(Arc::try_clone(place)?),
            None => None,
        };
        self.returned.reserve(self.out + 1)?;
        self.out += 1;
        Ok(ProcessStarter::new(self.rt, self.alloc, command, self.quiet, place))
    }

    fn take_back(&mut self, starter: ProcessStarter) {
        let _ = self.returned.push(starter.into_driver());
        self.out -= 1;
    }
}
