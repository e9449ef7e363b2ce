//! What starts a driver as a child process.
ghost use Rattle.std.specs.Prelude.{◌≡◌, ◌≤◌, ◌<◌, ◌+◌, ◌^◌, ◌∷◌, ◌++◌, [], OnOk, length, vec_len, vec_capacity};
ghost use Rattle.edge_kit.specs.Starters.{StartsOne, StartsUntold, session_had, starter_back, new_starter};
ghost use Rattle.edge_adapters.specs.Starts.{outcome_of, starts_of, driver_of};
ghost use Rattle.edge_kit.specs.MemoryDrivers.{waits};

use crate::front::is_no_packet;
use crate::given_up::{end_all, thin_out};
use crate::process_link::{EndedSession, ProcessLink};
use crate::process_spawner::DriverPlace;
use crate::shell::shell_text;
use byte_path::Bytes;
use edge_kit::{Link, SendFault, Starter};
use std::alloc::{AllocError, Global};
use std::io;
use std::io::ErrorKind;
use std::process::{Child, Command, Stdio};
use std::sync::Arc;

/// What is kept of a session.
#[derive(Clone, Copy)]
pub struct PastSession {
    pub faults: u64,
    pub ends: u64,
    pub shut: bool,
}

/// What came of a start that didn't run out of memory.
#[derive(Clone, Copy)]
pub enum PastOutcome {
    Session(PastSession),
    Failed,
}

/// A start, or its session when that ended, and how many starts before it ran out of memory.
#[derive(Clone, Copy)]
pub struct PastStart {
    pub out_of_memory: u64,
    pub outcome: PastOutcome,
}

/// A driver whose starter was given back.
#[derive(Drop)]
pub struct ReturnedDriver {
    pub command: Bytes,
    pub starts: Vec<PastStart>,
    pub out_of_memory: u64,
    /// What it wrote first in the first session that it began with no packet.
    pub front: Vec<u8>,
}

/// Starts a command, one child process after another.
#[derive(Drop)]
pub struct ProcessStarter {
    rt: HostRuntime,
    alloc: Global,
    command: Bytes,
    had: Vec<PastStart>,
    // how many starts after the last of these ran out of memory
    out_of_memory: u64,
    out: usize,
    faults: u64,
    // children that were given up, the oldest first
    given_up: Vec<Child>,
    // what it wrote first in a session that it began with no packet
    front: Vec<u8>,
    // whether this program's standard error is closed
    quiet: bool,
    place: Option<Arc<DriverPlace, Global>>,
    // there is room for each link that is out
    ghost room: { vec_len had + out ≤ vec_capacity had },
    // and for its child
    ghost children: { vec_len given_up + out ≤ vec_capacity given_up },
}

/// Gives the shell a command to run.
fn add_command(shell: &mut Command, text: &str) -> Result<(), AllocError> {
    shell.arg("-c")?;
    shell.arg(text)?;
    Ok(())
}

/// The shell with a command to run.
fn shell_of(alloc: Global, text: &str) -> Result<Command, AllocError> {
    let mut shell = Command::new(alloc, "sh")?;
    add_command(&mut shell, text)?;
    Ok(shell)
}

/// Has a driver run in its place.
fn put_in_place(shell: &mut Command, place: &DriverPlace) -> Result<(), AllocError> {
    shell.current_dir(place.folder.as_str())?;
    if let Some(git_dir) = &place.git_dir {
        shell.env("GIT_DIR", git_dir.as_str())?;
    }
    Ok(())
}

/// Starts the command by the shell, in its place or else in the folder that this program was started in. Its standard
/// error is this program's own, or nothing if that is closed. A command that isn't text can't be started.
pub fn spawn(
    rt: HostRuntime,
    alloc: Global,
    command: &[u8],
    quiet: bool,
    place: Option<&DriverPlace>,
) -> io::Result<Child> {
    let Ok(text) = str::from_utf8(command) else {
        return Err(io::Error::from(ErrorKind::InvalidInput));
    };
    let text = shell_text(alloc, text)?;
    let mut shell = shell_of(alloc, text.as_str())?;
    if let Some(place) = place {
        put_in_place(&mut shell, place)?;
    }
    shell.stdin(Stdio::piped());
    shell.stdout(Stdio::piped());
    if quiet {
        shell.stderr(Stdio::null());
    }
    shell.spawn(&rt)
}

/// Takes room for the links that are out and one more: for what is kept of each, and for its child.
fn take_room(
    had: &mut Vec<PastStart>,
    given_up: &mut Vec<Child>,
    out: usize,
) -> Result<(), AllocError>
    requires { vec_len had.old + out ≤ vec_capacity had.old }
    ensures had { had.new.items ≡ had.old.items }
    ensures len { vec_len given_up.new ≡ vec_len given_up.old }
    ensures had_room { vec_capacity had.old ≤ vec_capacity had.new }
    ensures room { vec_capacity given_up.old ≤ vec_capacity given_up.new }
    ensures more_had { OnOk result (vec_len had.new + out < vec_capacity had.new) }
    ensures more { OnOk result (vec_len given_up.new + out < vec_capacity given_up.new) }
{
    had.reserve(out + 1)?;
    given_up.reserve(out + 1)
}

/// The next child.
fn next_child(
    rt: HostRuntime,
    alloc: Global,
    command: &[u8],
    quiet: bool,
    place: Option<&DriverPlace>,
) -> Result<Child, SendFault> {
    match spawn(rt, alloc, command, quiet, place) {
        Ok(child) => Ok(child),
        Err(error) if error.kind() == ErrorKind::OutOfMemory => Err(SendFault::NoMemory),
        Err(_) => Err(SendFault::Failed),
    }
}

/// Keeps what came of a start, after the starts before it that ran out of memory. There is room for it.
#[tactic(auto, using(crate::proofs::Starts::starts_of_more))]
fn keep(had: &mut Vec<PastStart>, out_of_memory: u64, outcome: PastOutcome)
    requires { vec_len had.old < vec_capacity had.old }
    ensures had { starts_of had.new.items ≡
        starts_of had.old.items ++ (waits out_of_memory ++ outcome_of outcome ∷ []) }
    ensures len { vec_len had.new ≡ vec_len had.old + 1 }
    ensures capacity { vec_capacity had.old ≤ vec_capacity had.new }
{
    let _ = had.push(PastStart {
        out_of_memory,
        outcome,
    });
}

impl ProcessStarter {
    /// A starter of this command in its place, which has started nothing. If it is quiet, what a driver writes on its
    /// standard error is lost.
    pub fn new(
        rt: HostRuntime,
        alloc: Global,
        command: Bytes,
        quiet: bool,
        place: Option<Arc<DriverPlace, Global>>,
    ) -> ProcessStarter
        ensures { ⟦<ProcessStarter as Starter>⟧.seen result ≡ new_starter command StartsUntold }
    {
        ProcessStarter {
            rt,
            alloc,
            command,
            had: Vec::new(alloc),
            out_of_memory: 0,
            out: 0,
            faults: 0,
            given_up: Vec::new(alloc),
            front: Vec::new(alloc),
            quiet,
            place,
        }
    }

    /// What is kept of the starter, once each of its children has ended. It takes no memory.
    pub fn into_driver(self) -> ReturnedDriver
        ensures { driver_of result ≡ starter_back (⟦<ProcessStarter as Starter>⟧.seen self) }
    {
        let ProcessStarter {
            rt,
            command,
            had,
            out_of_memory,
            given_up,
            front,
            ..
        } = self;
        end_all(rt, given_up);
        ReturnedDriver {
            command,
            starts: had,
            out_of_memory,
            front,
        }
    }
}

impl Starter for ProcessStarter {
    type Link = ProcessLink;

    ghost seen = { λ s. record {
      command = s.command;
      had = starts_of s.had.items ++ waits s.out_of_memory;
      ahead = StartsUntold;
      faults = s.faults;
      out = s.out;
    } };

    #[tactic(auto, using(crate::proofs::Starts::had_one_waits, crate::proofs::Starts::had_one_kept))]
    fn start(&mut self) -> Result<ProcessLink, SendFault> {
        thin_out(&mut self.given_up);
        let started = match take_room(&mut self.had, &mut self.given_up, self.out) {
            Ok(()) => next_child(
                self.rt,
                self.alloc,
                self.command.as_slice(),
                self.quiet,
                self.place.as_deref(),
            ),
            Err(_) => Err(SendFault::NoMemory),
        };
        match &started {
            Ok(_) => self.out += 1,
            Err(SendFault::Failed) => {
                self.faults = self.faults.saturating_add(1);
                keep(&mut self.had, self.out_of_memory, PastOutcome::Failed);
                self.out_of_memory = 0;
            }
            Err(SendFault::NoMemory) => self.out_of_memory += 1,
        }
        Ok(ProcessLink::new(self.alloc, started?))
    }

    #[tactic(auto, using(crate::proofs::Starts::had_one_kept))]
    fn end(&mut self, link: ProcessLink) {
        let EndedSession {
            session,
            front,
            child,
        } = link.into_session();
        if let Some(child) = child {
            let _ = self.given_up.push(child);
        }
        if self.front.is_empty() && is_no_packet(&front) {
            self.front = front;
        }
        let outcome = PastOutcome::Session(session);
        keep(&mut self.had, self.out_of_memory, outcome);
        self.out_of_memory = 0;
        self.out -= 1;
    }
}
