//! The conversions, and a copy beside them.
use back_convert::{Action, BackFault, back_encode, back_ends, back_ident};
use byte_path::ObjectId;
use eol_convert::{LineEnds, to_tree_ends};
use ident_convert::expand_ident;
use std::alloc::{AllocError, Global};
use std::io;
use std::rt::Clock;
use std::time::Instant;
use tree_encoding::{Encoding, encode};

/// How many turns a conversion and a copy take.
const TURNS: u32 = 20;

/// The name of a blob.
const NAME: ObjectId = [0x5A; 20];

/// What is done with a content.
#[derive(Clone, Copy)]
pub enum Work {
    Copy,
    Ends(LineEnds),
    Ident,
    Encoded(Encoding),
    BackEnds(Action),
    BackIdent,
    BackEncoded(Encoding),
}

/// What is read of a result. A compiler may leave out a result from which nothing is read.
#[derive(Clone, Copy)]
pub struct Seen {
    pub length: usize,
    /// The byte in the middle.
    pub middle: u8,
}

impl Seen {
    fn of(bytes: &[u8]) -> Seen {
        let middle = bytes.get(bytes.len() / 2).copied().unwrap_or(0);
        Seen {
            length: bytes.len(),
            middle,
        }
    }
}

/// A file's content out of its encoding.
fn decoded(alloc: Global, file: &[u8], encoding: Encoding) -> io::Result<Vec<u8>> {
    match back_encode(alloc, file, encoding) {
        Ok(text) => Ok(text),
        Err(BackFault::Form) => Err(io::ErrorKind::InvalidData.into()),
        Err(BackFault::NoMemory) => Err(AllocError.into()),
    }
}

impl Work {
    /// What the work is done on: on the way back it is the file that a checkout makes of the content.
    pub fn source(self, alloc: Global, content: Vec<u8>) -> Result<Vec<u8>, AllocError> {
        match self {
            Work::BackEnds(_) => to_tree_ends(alloc, &content, LineEnds::ToCrlf),
            Work::BackIdent => expand_ident(alloc, &content, &NAME),
            Work::BackEncoded(encoding) => {
                let prepared = encode(alloc, &content, encoding)?;
                Vec::from_slice(alloc, prepared.bytes.as_slice())
            }
            Work::Copy | Work::Ends(_) | Work::Ident | Work::Encoded(_) => Ok(content),
        }
    }

    pub fn seen(self, alloc: Global, content: &[u8]) -> io::Result<Seen> {
        match self {
            Work::Copy => {
                let copy = Vec::from_slice(alloc, content)?;
                Ok(Seen::of(&copy))
            }
            Work::Ends(ends) => {
                let text = to_tree_ends(alloc, content, ends)?;
                Ok(Seen::of(&text))
            }
            Work::Ident => {
                let text = expand_ident(alloc, content, &NAME)?;
                Ok(Seen::of(&text))
            }
            Work::Encoded(encoding) => {
                let prepared = encode(alloc, content, encoding)?;
                Ok(Seen::of(prepared.bytes.as_slice()))
            }
            Work::BackEnds(action) => {
                let text = back_ends(alloc, content, action, false)?;
                Ok(Seen::of(&text))
            }
            Work::BackIdent => {
                let text = back_ident(alloc, content)?;
                Ok(Seen::of(&text))
            }
            Work::BackEncoded(encoding) => {
                let text = decoded(alloc, content, encoding)?;
                Ok(Seen::of(&text))
            }
        }
    }
}

/// The least time of a piece of work, in nanoseconds.
#[derive(Drop)]
pub struct Least {
    pub nanoseconds: u128,
    /// The bytes in the middle of all results, added up.
    pub middles: u8,
}

impl Least {
    fn new() -> Least {
        Least {
            nanoseconds: u128::MAX,
            middles: 0,
        }
    }

    /// Does the work once.
    fn measure<R: Clock + AllocGlobal>(
        &mut self,
        rt: &R,
        work: Work,
        content: &[u8],
    ) -> io::Result<()> {
        let begun = Instant::now(rt)?;
        let seen = work.seen(rt.alloc(), content)?;
        let took = begun.elapsed(rt)?;
        self.nanoseconds = self.nanoseconds.min(took.as_nanos());
        self.middles = self.middles.wrapping_add(seen.middle);
        Ok(())
    }
}

/// The time of a piece of work, and the time of a copy of the same content.
pub fn beside_copy<R: Clock + AllocGlobal>(
    rt: &R,
    work: Work,
    content: &[u8],
) -> io::Result<(Least, Least)> {
    let mut least = Least::new();
    let mut copy = Least::new();
    for _ in 0..TURNS {
        least.measure(rt, work, content)?;
        copy.measure(rt, Work::Copy, content)?;
    }
    Ok((least, copy))
}
