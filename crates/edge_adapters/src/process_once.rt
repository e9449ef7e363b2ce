//! Single runs of commands as child processes.
ghost use Rattle.std.specs.Prelude.{◌≡◌, ◌≤◌, IfOk, length, vec_len};
ghost use Rattle.one_shot.specs.Onces.{RunsUntold};

use crate::process_spawner::DriverPlace;
use crate::process_starter::spawn;
use crate::whole_write::write_whole;
use byte_path::Bytes;
use edge_kit::TakeFault;
use one_shot::{Once, OnceEnd, OnceMaker};
use std::alloc::{AllocError, Global};
use std::io::{ErrorKind, Read};
use std::process::{Child, ChildStdin, ChildStdout};
use std::sync::Arc;
use std::thread::{JoinHandle, Threads};
use std::{io, thread};

/// Runs commands by the shell, each as a child process. Its input is written in a second thread.
#[derive(Drop)]
pub struct ProcessOnce<T: Threads + Copy> {
    rt: HostRuntime,
    threads: T,
    alloc: Global,
    faults: u64,
    // whether this program's standard error is closed
    quiet: bool,
    place: Option<Arc<DriverPlace, Global>>,
}

/// The maker of runs as child processes.
#[derive(Drop)]
pub struct ProcessOnceMaker<T: Threads + Copy> {
    rt: HostRuntime,
    threads: T,
    alloc: Global,
    quiet: bool,
    place: Option<Arc<DriverPlace, Global>>,
}

/// A fault of the system.
fn fault_of(error: &io::Error) -> TakeFault {
    match error.kind() {
        ErrorKind::OutOfMemory => TakeFault::NoMemory,
        _ => TakeFault::Failed,
    }
}

/// Writes the input. A child need not read it to its end.
fn write_input(mut pipe: ChildStdin, input: Vec<u8>) -> Result<(), TakeFault> {
    match write_whole(&mut pipe, &input) {
        Ok(()) | Err(ErrorKind::BrokenPipe) => Ok(()),
        Err(ErrorKind::OutOfMemory) => Err(TakeFault::NoMemory),
        Err(_) => Err(TakeFault::Failed),
    }
}

/// What writes a child's input, and then closes it.
fn writer_of<T: Threads>(
    threads: &T,
    alloc: Global,
    pipe: ChildStdin,
    input: &[u8],
) -> Result<JoinHandle<Result<(), TakeFault>>, AllocError> {
    let input = Vec::from_slice(alloc, input)?;
    Ok(thread::spawn(threads, move || write_input(pipe, input))?)
}

/// Reads an output to its end, if that comes within the limit, and closes it.
fn read_output(alloc: Global, pipe: ChildStdout, limit: u64) -> Result<Vec<u8>, TakeFault>
    ensures { IfOk result (λ v. vec_len v ≤ limit) }
{
    let mut output = Vec::new(alloc);
    if let Err(error) = pipe.take(limit.saturating_add(1)).read_to_end(&mut output) {
        return Err(fault_of(&error));
    }
    if output.len() as u64 > limit {
        return Err(TakeFault::TooLong);
    }
    Ok(output)
}

/// Kills a child if it goes on, and waits for it.
fn end_child(child: &mut Child) {
    let _ = child.kill();
    let _ = child.wait();
}

/// The two pipes of a child.
fn pipes_of(child: &mut Child) -> Result<(ChildStdin, ChildStdout), TakeFault> {
    match (child.stdin.take(), child.stdout.take()) {
        (Some(input), Some(output)) => Ok((input, output)),
        _ => Err(TakeFault::Failed),
    }
}

/// Writes the whole input and reads the whole output.
fn talk<T: Threads>(
    threads: &T,
    alloc: Global,
    child: &mut Child,
    input: &[u8],
    limit: u64,
) -> Result<Vec<u8>, TakeFault>
    ensures { IfOk result (λ v. vec_len v ≤ limit) }
{
    let (pipe, output) = pipes_of(child)?;
    let writer = writer_of(threads, alloc, pipe, input)?;
    let read = read_output(alloc, output, limit);
    if read.is_err() {
        let _ = child.kill();
    }
    let written = writer.join(threads);
    let output = read?;
    written?;
    Ok(output)
}

impl<T: Threads + Copy> ProcessOnce<T> {
    /// Runs a command to its end. Its child is always waited for.
    fn run(&mut self, command: &[u8], input: &[u8], limit: u64) -> Result<OnceEnd, TakeFault>
        ensures within { IfOk result (λ end. length end.output ≤ limit) }
        ensures kept { self.new ≡ self.old }
    {
        let place = self.place.as_deref();
        let mut child = match spawn(self.rt, self.alloc, command, self.quiet, place) {
            Ok(child) => child,
            Err(error) => return Err(fault_of(&error)),
        };
        let output = match talk(&self.threads, self.alloc, &mut child, input, limit) {
            Ok(output) => output,
            Err(fault) => {
                end_child(&mut child);
                return Err(fault);
            }
        };
        match child.wait() {
            Ok(status) => Ok(OnceEnd {
                output: Bytes::from_vec(output),
                zero: status.success(),
            }),
            Err(error) => Err(fault_of(&error)),
        }
    }
}

impl<T: Threads + Copy> Once for ProcessOnce<T> {
    ghost told = { λ _. RunsUntold };

    ghost faults = { λ o. o.faults };

    fn run_once(&mut self, command: &[u8], input: &[u8], limit: u64) -> Result<OnceEnd, TakeFault> {
        let end = self.run(command, input, limit);
        if let Err(TakeFault::Failed) = end {
            self.faults = self.faults.saturating_add(1);
        }
        end
    }
}

fn copy_of(
    place: Option<&Arc<DriverPlace, Global>>,
) -> Result<Option<Arc<DriverPlace, Global>>, AllocError> {
    match place {
        Some(place) => Ok(Some(Arc::try_clone(place)?)),
        None => Ok(None),
    }
}

impl<T: Threads + Copy> ProcessOnceMaker<T> {
    /// A maker of runs in this place, or where this program was started. If it is quiet, what a command writes on its
    /// standard error is lost.
    pub fn new(
        rt: HostRuntime,
        threads: T,
        quiet: bool,
        place: Option<&Arc<DriverPlace, Global>>,
    ) -> Result<ProcessOnceMaker<T>, AllocError> {
        Ok(ProcessOnceMaker {
            rt,
            threads,
            alloc: rt.alloc(),
            quiet,
            place: copy_of(place)?,
        })
    }
}

impl<T: Threads + Copy + Send> OnceMaker for ProcessOnceMaker<T> {
    type Once = ProcessOnce<T>;

    ghost told = { λ _. RunsUntold };

    fn once(&mut self) -> Result<ProcessOnce<T>, AllocError> {
        Ok(ProcessOnce {
            rt: self.rt,
            threads: self.threads,
            alloc: self.alloc,
            faults: 0,
            quiet: self.quiet,
            place: copy_of(self.place.as_ref())?,
        })
    }

    fn another(&self) -> Result<ProcessOnceMaker<T>, AllocError> {
        ProcessOnceMaker::new(self.rt, self.threads, self.quiet, self.place.as_ref())
    }
}
