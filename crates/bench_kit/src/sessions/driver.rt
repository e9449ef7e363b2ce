//! A driver that gives the same reply again and again.
ghost use Rattle.std.specs.Prelude.{◌≡◌, ◌≤◌, length};
ghost use Rattle.bench_kit.specs.Drivers.{seen_of};

use edge_kit::{Failed, Link, SendFault};
use pkt_line::{push_content, push_flush, push_line};
use std::alloc::{AllocError, Global};

/// How far a link was shut.
#[derive(Clone, Copy)]
pub enum Shutting {
    Not,
    Input,
    Waited,
}

/// A link to this driver, which forgets what is sent and never fails.
#[derive(Drop)]
pub struct Driver {
    hello: Vec<u8>,
    reply: Vec<u8>,
    greeted: bool,
    at: usize,
    ends: u64,
    shutting: Shutting,
}

impl Driver {
    /// A driver that gives these two answers to a handshake, and then this reply again and again.
    pub fn new(hello: Vec<u8>, reply: Vec<u8>) -> Driver {
        Driver {
            hello,
            reply,
            greeted: false,
            at: 0,
            ends: 0,
            shutting: Shutting::Not,
        }
    }

    /// Copies bytes of the next answer, and returns how many.
    fn give(&mut self, into: &mut [u8]) -> usize
        ensures within { result ≤ length into.old }
        ensures same { seen_of self.new.ends self.new.shutting ≡ seen_of self.old.ends self.old.shutting }
    {
        let (count, whole) = if self.greeted {
            copy_rest(into, self.reply.as_slice(), self.at)
        } else {
            copy_rest(into, self.hello.as_slice(), self.at)
        };
        self.advance(count, whole);
        count
    }

    /// This many bytes of an answer were given, or the whole of it.
    fn advance(&mut self, count: usize, whole: bool)
        ensures { seen_of self.new.ends self.new.shutting ≡ seen_of self.old.ends self.old.shutting }
    {
        if whole {
            self.at = 0;
            self.greeted = true;
        } else {
            self.at = self.at.saturating_add(count);
        }
    }
}

impl Link for Driver {
    ghost seen = { λ d. seen_of d.ends d.shutting };

    fn send(&mut self, _piece: &[u8]) -> Result<(), SendFault> {
        Ok(())
    }

    fn read(&mut self, into: &mut [u8]) -> Result<usize, Failed> {
        let count = self.give(into);
        if count == 0 {
            self.ends = self.ends.saturating_add(1);
        }
        Ok(count)
    }

    fn shut_input(&mut self) -> Result<(), Failed> {
        if matches!(self.shutting, Shutting::Not) {
            self.shutting = Shutting::Input;
        }
        Ok(())
    }

    fn wait_end(&mut self) -> Result<(), Failed> {
        if matches!(self.shutting, Shutting::Input) {
            self.shutting = Shutting::Waited;
        }
        Ok(())
    }
}

/// Copies as much of what follows a place as there is room for, and returns how many bytes these are and whether they
/// are all.
fn copy_rest(into: &mut [u8], answer: &[u8], at: usize) -> (usize, bool)
    ensures { result.0 ≤ length into.old }
{
    let (_, rest) = answer.split_at(at.min(answer.len()));
    let count = rest.len().min(into.len());
    let (front, _) = into.split_at_mut(count);
    let (bytes, _) = rest.split_at(count);
    front.copy_from_slice(bytes);
    (count, count == rest.len())
}

/// The two answers to a handshake.
pub fn hello_of(alloc: Global) -> Result<Vec<u8>, AllocError> {
    let mut out = Vec::new(alloc);
    push_line(alloc, &mut out, b"git-filter-server")?;
    push_line(alloc, &mut out, b"version=2")?;
    push_flush(alloc, &mut out)?;
    push_line(alloc, &mut out, b"capability=smudge")?;
    push_flush(alloc, &mut out)?;
    Ok(out)
}

/// A reply with this content.
pub fn reply_of(alloc: Global, content: &[u8]) -> Result<Vec<u8>, AllocError> {
    let mut out = Vec::new(alloc);
    push_line(alloc, &mut out, b"status=success")?;
    push_flush(alloc, &mut out)?;
    push_content(alloc, &mut out, content)?;
    push_flush(alloc, &mut out)?;
    push_flush(alloc, &mut out)?;
    Ok(out)
}
