ghost use Rattle.std.specs.Prelude.{◌≡◌, ◌≤◌, ◌<◌, ◌+◌, true, false, Some, IfOk, OnErr, length};
ghost use Rattle.std.specs.Prelude.{take, drop, vec_len, option_map};
ghost use Rattle.std.specs.Result.{is_err};
ghost use Rattle.edge_kit.specs.Faults.{AfterSend, AfterCall};
ghost use Rattle.edge_kit.specs.Links.{LeftBytes, Sends, Reads, IsRead, bytes_in, input_shut, waited};
ghost use Rattle.edge_kit.specs.Starters.{session_had, Session};
ghost use Rattle.edge_kit.specs.MemoryLeaves.{CountsDown};
ghost use Rattle.edge_kit.specs.MemoryDrivers.{stage_of, new_link, read_count};
ghost use Rattle.edge_kit.specs.MemoryDrivers.{CountsCalls, session_told};

use crate::faults::{Failed, SendFault};
use crate::link::Link;
use crate::script::LinkScript;
use crate::session_seen::SessionSeen;
use byte_path::Bytes;
use std::alloc::Global;

/// A link in memory, whose driver has written all its output.
#[derive(Drop)]
pub struct MemoryLink {
    output: Vec<u8>,
    taken: usize,
    sent: Vec<u8>,
    /// How it gives its output, and which of its calls fail.
    pub script: LinkScript,
    input_shut: bool,
    waited: bool,
    faults: u64,
    ends: u64,
    ghost order: { waited ≡ true → input_shut ≡ true },
    ghost within: { taken ≤ vec_len output },
}

impl MemoryLink {
    /// A link on which nothing was called.
    pub(crate) fn new(alloc: Global, output: Vec<u8>, script: LinkScript) -> MemoryLink
        ensures seen { ⟦<MemoryLink as Link>⟧.seen result ≡ new_link output.items }
        ensures script { result.script ≡ script }
    {
        MemoryLink {
            output,
            taken: 0,
            sent: Vec::new(alloc),
            script,
            input_shut: false,
            waited: false,
            faults: 0,
            ends: 0,
        }
    }

    /// Its session as its starter keeps it. It takes no memory.
    pub(crate) fn into_session(self) -> SessionSeen
        ensures { let seen = ⟦<MemoryLink as Link>⟧.seen in
            Session (session_told result) ≡ session_had (seen self) }
    {
        let MemoryLink {
            mut output,
            taken,
            sent,
            input_shut,
            waited,
            faults,
            ends,
            ..
        } = self;
        output.truncate(taken);
        SessionSeen {
            sent: Bytes::from_vec(sent),
            taken: Bytes::from_vec(output),
            faults,
            ends,
            shut: input_shut && waited,
        }
    }

    /// How many bytes a read into this much room gives.
    fn read_count(&self, room: usize) -> usize
        ensures count { result ≡
            read_count self.now.script.piece room (drop self.now.taken self.now.output.items) }
        ensures most { result ≤ room }
        ensures within { self.now.taken + result ≤ vec_len self.now.output }
        ensures none { 0 < room → result ≡ 0 → self.now.taken ≡ vec_len self.now.output }
    {
        let piece = (self.script.piece as usize).max(1);
        piece.min(room.min(self.output.len() - self.taken))
    }

    /// Takes bytes from the front of what is left, and returns how many. 0 is an end of input.
    fn take_front(&mut self, into: &mut [u8]) -> usize
        requires { 0 < length into.old }
        ensures read { let seen = ⟦<MemoryLink as Link>⟧.seen in
            IsRead result into.new (seen self.old) (seen self.new) }
        ensures count { let seen = ⟦<MemoryLink as Link>⟧.seen in
            Some result ≡ option_map
            (read_count self.old.script.piece (length into.old)) (bytes_in (seen self.old).left) }
        ensures script { self.new.script ≡ self.old.script }
    {
        let count = self.read_count(into.len());
        if count == 0 {
            self.ends = self.ends.saturating_add(1);
            return 0;
        }
        let (_, left) = self.output.as_slice().split_at(self.taken);
        copy_front(into, left, count);
        self.taken += count;
        count
    }
}

/// Copies this many bytes to the front.
fn copy_front(into: &mut [u8], bytes: &[u8], count: usize)
    requires room { count ≤ length into.old }
    requires enough { count ≤ length bytes.now }
    ensures copied { take count into.new ≡ take count bytes.now }
    ensures len { length into.new ≡ length into.old }
{
    let (front, _) = into.split_at_mut(count);
    let (bytes, _) = bytes.split_at(count);
    front.copy_from_slice(bytes);
}

impl Link for MemoryLink {
    ghost seen = { λ l. record {
      sent = Some l.sent.items;
      taken = Some (take l.taken l.output.items);
      left = LeftBytes (drop l.taken l.output.items);
      faults = l.faults;
      ends = l.ends;
      stage = stage_of l.input_shut l.waited;
    } };

    fn send(&mut self, piece: &[u8]) -> Result<(), SendFault>
        ensures sent { let seen = ⟦<MemoryLink as Link>⟧.seen in
            Sends piece.now (seen self.old) (seen self.new) result }
        ensures faults { let seen = ⟦<MemoryLink as Link>⟧.seen in
            AfterSend (seen self.old).faults (seen self.new).faults result }
        ensures nothing { let seen = ⟦<MemoryLink as Link>⟧.seen in
            OnErr result ((seen self.new).sent ≡ (seen self.old).sent) }
        ensures fails { CountsDown self.old.script.fail_send self.new.script.fail_send result }
        ensures script { self.new.script ≡
            record self.old.script { fail_send = self.new.script.fail_send } }
    {
        let fail_send = match self.script.fail_send {
            Some(0) => {
                self.script.fail_send = None;
                self.faults = self.faults.saturating_add(1);
                return Err(SendFault::Failed);
            }
            Some(more) => Some(more - 1),
            None => None,
        };
        self.sent.extend_from_slice(piece)?;
        self.script.fail_send = fail_send;
        Ok(())
    }

    fn read(&mut self, into: &mut [u8]) -> Result<usize, Failed>
        requires { 0 < length into.old }
        ensures taken { let seen = ⟦<MemoryLink as Link>⟧.seen in
            Reads into.new (seen self.old) (seen self.new) result }
        ensures faults { let seen = ⟦<MemoryLink as Link>⟧.seen in
            AfterCall (seen self.old).faults (seen self.new).faults result }
        ensures count { let seen = ⟦<MemoryLink as Link>⟧.seen in
            IfOk result (λ n. Some n ≡ option_map
            (read_count self.old.script.piece (length into.old)) (bytes_in (seen self.old).left)) }
        ensures fails { CountsCalls self.old.script.fail_read self.new.script.fail_read result }
        ensures script { self.new.script ≡
            record self.old.script { fail_read = self.new.script.fail_read } }
    {
        let fail_read = match self.script.fail_read {
            Some(0) => {
                self.script.fail_read = None;
                self.faults = self.faults.saturating_add(1);
                return Err(Failed);
            }
            Some(more) => Some(more - 1),
            None => None,
        };
        self.script.fail_read = fail_read;
        Ok(self.take_front(into))
    }

    fn shut_input(&mut self) -> Result<(), Failed>
        ensures kept { let seen = ⟦<MemoryLink as Link>⟧.seen in
            seen self.new ≡ record (seen self.old) {
              stage = input_shut (seen self.old).stage;
              faults = (seen self.new).faults;
            } }
        ensures faults { let seen = ⟦<MemoryLink as Link>⟧.seen in
            AfterCall (seen self.old).faults (seen self.new).faults result }
        ensures failed { is_err result ≡ false }
        ensures script { self.new.script ≡ self.old.script }
    {
        self.input_shut = true;
        Ok(())
    }

    fn wait_end(&mut self) -> Result<(), Failed>
        ensures kept { let seen = ⟦<MemoryLink as Link>⟧.seen in
            seen self.new ≡ record (seen self.old) {
              stage = waited (seen self.old).stage;
              faults = (seen self.new).faults;
            } }
        ensures faults { let seen = ⟦<MemoryLink as Link>⟧.seen in
            AfterCall (seen self.old).faults (seen self.new).faults result }
        ensures failed { is_err result ≡ false }
        ensures script { self.new.script ≡ self.old.script }
    {
        if self.input_shut {
            self.waited = true;
        }
        Ok(())
    }
}
