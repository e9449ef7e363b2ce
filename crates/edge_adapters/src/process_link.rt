//! The two pipes of a driver's child process.
ghost use Rattle.std.specs.Prelude.{◌≡◌, ◌≤◌, true, None, IfOk, length};
ghost use Rattle.edge_kit.specs.Starters.{session_had};
ghost use Rattle.edge_kit.specs.Links.{IsNewLink, LeftUntold};
ghost use Rattle.edge_kit.specs.MemoryDrivers.{stage_of};
ghost use Rattle.edge_adapters.specs.Starts.{session_of};

use crate::front::keep_front;
use crate::process_starter::PastSession;
use crate::whole_write::{told, write_whole};
use edge_kit::{Failed, Link, SendFault};
use std::alloc::Global;
use std::io;
use std::io::{ErrorKind, Read};
use std::process::{Child, ChildStdin, ChildStdout};

/// A driver's child process, with the pipes to its input and from its output.
#[derive(Drop)]
pub struct ProcessLink {
    child: Child,
    input_shut: bool,
    waited: bool,
    faults: u64,
    ends: u64,
    // what it wrote first
    front: Vec<u8>,
    ghost order: { waited ≡ true → input_shut ≡ true },
}

/// A session that ended.
#[derive(Drop)]
pub struct EndedSession {
    pub session: PastSession,
    /// What the driver wrote first.
    pub front: Vec<u8>,
    /// The child, if it wasn't waited for. Both pipes are closed.
    pub child: Option<Child>,
}

/// Sends the whole piece. A driver that has closed its input is sent nothing, and that is no fault: what it wrote
/// decides.
fn send_all(pipe: &mut ChildStdin, piece: &[u8]) -> Result<(), SendFault> {
    match write_whole(pipe, piece) {
        Ok(()) | Err(ErrorKind::BrokenPipe) => Ok(()),
        Err(kind) => Err(told(kind)),
    }
}

/// Reads once. A call that a signal cut short is made again.
fn read_once(pipe: &mut ChildStdout, into: &mut [u8]) -> io::Result<usize>
    ensures { IfOk result (λ count. count ≤ length into.new) }
{
    for _ in 0..u64::MAX {
        match pipe.read(into) {
            Err(error) if error.kind() == ErrorKind::Interrupted => {}
            read => return read,
        }
    }
    Err(io::Error::from(ErrorKind::Interrupted))
}

impl ProcessLink {
    /// A link to a child on which nothing was called.
    pub fn new(alloc: Global, child: Child) -> ProcessLink
        ensures { IsNewLink (⟦<ProcessLink as Link>⟧.seen result) }
    {
        ProcessLink {
            child,
            input_shut: false,
            waited: false,
            faults: 0,
            ends: 0,
            front: Vec::new(alloc),
        }
    }

    /// What is kept of its session.
    pub fn into_session(self) -> EndedSession
        ensures { session_of result.session ≡ session_had (⟦<ProcessLink as Link>⟧.seen self) }
    {
        let ProcessLink {
            mut child,
            input_shut,
            waited,
            faults,
            ends,
            front,
        } = self;
        child.stdin = None;
        child.stdout = None;
        let session = PastSession {
            faults,
            ends,
            shut: input_shut && waited,
        };
        EndedSession {
            session,
            front,
            child: if waited { None } else { Some(child) },
        }
    }

    /// Reads from the child's output.
    fn read_output(&mut self, into: &mut [u8]) -> io::Result<usize>
        ensures within { IfOk result (λ count. count ≤ length into.new) }
        ensures kept { self.new ≡ record self.old { child = self.new.child; front = self.new.front } }
    {
        let Some(pipe) = &mut self.child.stdout else {
            return Err(io::Error::from(ErrorKind::BrokenPipe));
        };
        let count = read_once(pipe, into)?;
        let (taken, _) = into.split_at(count);
        keep_front(&mut self.front, taken);
        Ok(count)
    }
}

impl Link for ProcessLink {
    ghost seen = { λ l. record {
      sent = None;
      taken = None;
      left = LeftUntold;
      faults = l.faults;
      ends = l.ends;
      stage = stage_of l.input_shut l.waited;
    } };

    /// A driver may have closed its input, or have ended. Whether that is seen as early as here is chance, so it is no
    /// fault, here and in later sends: the answer counts that it wrote before, and then the end of its output.
    fn send(&mut self, piece: &[u8]) -> Result<(), SendFault> {
        let sent = match &mut self.child.stdin {
            Some(pipe) => send_all(pipe, piece),
            None => Err(SendFault::Failed),
        };
        if let Err(SendFault::Failed) = sent {
            self.faults = self.faults.saturating_add(1);
        }
        sent
    }

    fn read(&mut self, into: &mut [u8]) -> Result<usize, Failed> {
        match self.read_output(into) {
            Ok(0) => {
                self.ends = self.ends.saturating_add(1);
                Ok(0)
            }
            Ok(count) => Ok(count),
            Err(_) => {
                self.faults = self.faults.saturating_add(1);
                Err(Failed)
            }
        }
    }

    fn shut_input(&mut self) -> Result<(), Failed> {
        self.child.stdin = None;
        self.input_shut = true;
        Ok(())
    }

    /// Its output is closed first, so that a driver which still writes can't wait for a reader for good.
    fn wait_end(&mut self) -> Result<(), Failed> {
        self.child.stdout = None;
        self.waited = self.input_shut;
        match self.child.wait() {
            Ok(_) => Ok(()),
            Err(_) => {
                self.faults = self.faults.saturating_add(1);
                Err(Failed)
            }
        }
    }
}
