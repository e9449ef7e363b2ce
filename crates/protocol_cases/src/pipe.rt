//! A link of a driver that has written all its output. It tells nothing.
ghost use Rattle.std.specs.Prelude.{◌≡◌, ◌≤◌, ◌<◌, length};
ghost use Rattle.edge_kit.specs.Faults.{AfterSend, AfterCall};
ghost use Rattle.edge_kit.specs.Links.{Sends, Reads, input_shut, waited};
ghost use Rattle.protocol_cases.specs.Pipes.{seen_of};

use crate::page::{Counter, counter_from_zero};
use edge_kit::{Failed, Link, SendFault};
use std::alloc::{AllocError, Global};
use std::rc::Rc;

/// A part of an output, which comes this many times.
#[derive(Drop)]
pub struct Part {
    pub bytes: Vec<u8>,
    pub times: u32,
}

/// A link from which reads take parts, one at a time and at most `piece` bytes.
#[derive(Drop)]
pub struct Pipe {
    parts: Vec<Part>,
    part: usize,
    times: u32,
    offset: usize,
    /// How many bytes a read gives at most.
    pub piece: usize,
    pub fails_send: bool,
    pub fails_read: bool,
    /// Whether it keeps what is sent.
    pub keeps: bool,
    /// What was sent, if it keeps that.
    pub sent: Vec<u8>,
    /// How many bytes were sent, and the most in one call.
    pub sent_bytes: u64,
    pub most_sent: usize,
    /// How many puts there were at each read so far.
    pub puts: Vec<u32>,
    counter: Counter,
    /// Whether its input was shut, and whether its end was waited for after that.
    shut: bool,
    waited: bool,
    faults: u64,
    ends: u64,
}

impl Pipe {
    /// A pipe without an output.
    pub fn new(alloc: Global) -> Result<Pipe, AllocError> {
        Ok(Pipe {
            parts: Vec::new(alloc),
            part: 0,
            times: 0,
            offset: 0,
            piece: 65_520,
            fails_send: false,
            fails_read: false,
            keeps: true,
            sent: Vec::new(alloc),
            sent_bytes: 0,
            most_sent: 0,
            puts: Vec::new(alloc),
            counter: counter_from_zero(alloc)?,
            shut: false,
            waited: false,
            faults: 0,
            ends: 0,
        })
    }

    /// How far it was shut: not at all, its input alone, or until its end.
    pub fn end_word(&self) -> &'static [u8] {
        match (self.shut, self.waited) {
            (false, _) => b"open",
            (true, false) => b"input shut",
            (true, true) => b"shut",
        }
    }

    /// Adds a part that comes this many times.
    pub fn add(&mut self, alloc: Global, bytes: &[u8], times: u32) -> Result<(), AllocError> {
        let bytes = Vec::from_slice(alloc, bytes)?;
        self.parts.push(Part { bytes, times })?;
        Ok(())
    }

    /// The counter of puts, which pages share.
    pub fn counter(&self) -> Result<Counter, AllocError> {
        Rc::clone(&self.counter)
    }

    /// Copies bytes of the part that is next, and returns how many.
    fn give(&mut self, into: &mut [u8]) -> usize
        ensures within { result ≤ length into.old }
        ensures same { seen_of self.new.faults self.new.ends self.new.shut self.new.waited
            ≡ seen_of self.old.faults self.old.ends self.old.shut self.old.waited }
    {
        let Some(part) = self.parts.as_slice().get(self.part) else {
            return 0;
        };
        let (_, rest) = part
            .bytes
            .as_slice()
            .split_at(self.offset.min(part.bytes.len()));
        let count = rest.len().min(into.len()).min(self.piece.max(1));
        let (front, _) = into.split_at_mut(count);
        let (bytes, _) = rest.split_at(count);
        front.copy_from_slice(bytes);
        let whole = count == rest.len();
        let times = part.times;
        self.advance(count, whole, times);
        count
    }

    /// This many bytes of a part were given, or the whole of it.
    fn advance(&mut self, count: usize, whole: bool, times: u32)
        ensures { seen_of self.new.faults self.new.ends self.new.shut self.new.waited
            ≡ seen_of self.old.faults self.old.ends self.old.shut self.old.waited }
    {
        if !whole {
            self.offset = self.offset.saturating_add(count);
            return;
        }
        self.offset = 0;
        self.times = self.times.saturating_add(1);
        if self.times >= times {
            self.times = 0;
            self.part = self.part.saturating_add(1);
        }
    }
}

impl Link for Pipe {
    ghost seen = { λ p. seen_of p.faults p.ends p.shut p.waited };

    fn send(&mut self, piece: &[u8]) -> Result<(), SendFault> {
        if self.fails_send {
            self.faults = self.faults.saturating_add(1);
            return Err(SendFault::Failed);
        }
        if self.keeps && self.sent.extend_from_slice(piece).is_err() {
            return Err(SendFault::NoMemory);
        }
        self.sent_bytes = self.sent_bytes.saturating_add(piece.len() as u64);
        self.most_sent = self.most_sent.max(piece.len());
        Ok(())
    }

    fn read(&mut self, into: &mut [u8]) -> Result<usize, Failed> {
        if self.fails_read {
            self.faults = self.faults.saturating_add(1);
            return Err(Failed);
        }
        if self.keeps {
            let _ = self.puts.push(self.counter.get());
        }
        let count = self.give(into);
        if count == 0 {
            self.ends = self.ends.saturating_add(1);
        }
        Ok(count)
    }

    fn shut_input(&mut self) -> Result<(), Failed> {
        if !self.shut {
            self.shut = true;
            self.waited = false;
        }
        Ok(())
    }

    fn wait_end(&mut self) -> Result<(), Failed> {
        if self.shut {
            self.waited = true;
        }
        Ok(())
    }
}
