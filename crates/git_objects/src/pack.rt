//! A pack (gitformat-pack(5)).
ghost use Rattle.std.specs.Prelude.{IfOk, IfSome, OnOk, ◌≤◌, ◌+◌, length, vec_len};

use crate::bases::Spot;
use crate::delta::{apply_delta, apply_stored};
use crate::entry::{Inside, MOST, PackEntry, read_head};
use crate::fault::ObjectsFault;
use crate::index::PackIndex;
use crate::object::{Object, StoredKind, header_of};
use crate::placed_file::PlacedFile;
use crate::shared_object::SharedObject;
use crate::shelf::{NumberedIndex, PackShelf};
use crate::windowed_file::WindowedFile;
use byte_path::ObjectId;
use inflate::{InflateFault, SLACK, inflate_behind};
use std::alloc::Global;
use std::sync::Arc;

/// A pack and its index.
#[derive(Drop)]
pub struct Pack {
    alloc: Global,
    // told apart from every other pack
    number: u64,
    pub name: String,
    index: Arc<PackIndex, Global>,
    source: WindowedFile,
}

/// A stream of a pack: where it begins and how many bytes are in it.
#[derive(Clone, Copy)]
struct Stream {
    place: u64,
    size: u64,
}

/// A delta, and where the entry begins that has it.
#[derive(Clone, Copy)]
struct Step {
    offset: u64,
    delta: Stream,
}

/// An object and the deltas that make another one of it, the last one first.
struct Chain {
    offset: u64,
    base: SharedObject,
    deltas: Vec<Step>,
}

/// The most bytes that zlib makes of so many. A stream of more is for git alone.
pub fn deflated(size: u64) -> u64 {
    size.saturating_add(size / 256).saturating_add(1024)
}

/// The cause where a thing that isn't itself wanted has a fault. One that is too long is for git alone.
fn of_part(fault: ObjectsFault) -> ObjectsFault {
    match fault {
        ObjectsFault::TooLong => ObjectsFault::Elsewhere,
        other => other,
    }
}

/// The stream of the entry that begins at an offset.
fn stream_of(offset: u64, entry: PackEntry) -> Stream {
    Stream {
        place: offset.saturating_add(entry.head as u64),
        size: entry.size,
    }
}

impl Pack {
    /// The pack with this name, by its index and its file. One of another version is for git alone.
    pub fn new(
        alloc: Global,
        name: String,
        index: NumberedIndex,
        source: PlacedFile,
    ) -> Result<Pack, ObjectsFault> {
        let NumberedIndex { number, index } = index;
        let head = source.read(0, 12)?;
        let [b'P', b'A', b'C', b'K', version @ .., a, b, c, d] = head.as_slice() else {
            return Err(ObjectsFault::Broken);
        };
        if version != [0, 0, 0, 2].as_slice() {
            return Err(ObjectsFault::Elsewhere);
        }
        if u32::from_be_bytes([*a, *b, *c, *d]) != index.count {
            return Err(ObjectsFault::Broken);
        }
        Ok(Pack {
            alloc,
            number,
            name,
            index,
            source: WindowedFile::new(alloc, source),
        })
    }

    /// The entry that begins at an offset.
    fn entry_at(&mut self, offset: u64) -> Result<PackEntry, ObjectsFault> {
        self.source.cover(offset, MOST)?;
        match read_head(self.source.part(offset, MOST)) {
            Some(entry) => Ok(entry),
            None => Err(ObjectsFault::Broken),
        }
    }

    /// Adds what is in a stream to what `out` has.
    fn add_stream(&mut self, stream: Stream, out: &mut Vec<u8>) -> Result<(), ObjectsFault>
        ensures { OnOk result (vec_len out.new ≤ vec_len out.old + stream.size) }
    {
        let most = deflated(stream.size);
        self.source.cover(stream.place, most)?;
        let stored = self.source.part(stream.place, most);
        let before = out.len();
        match inflate_behind(self.alloc, stored, out, stream.size as usize) {
            Ok(_) if out.len().saturating_sub(before) as u64 == stream.size => Ok(()),
            Err(InflateFault::NoMemory) => Err(ObjectsFault::NoMemory),
            Err(InflateFault::CutShort) if stored.len() as u64 == most => {
                Err(ObjectsFault::Elsewhere)
            }
            _ => Err(ObjectsFault::Broken),
        }
    }

    /// What is in a stream. One that is longer than the limit isn't read.
    fn inflated(&mut self, stream: Stream, limit: u64) -> Result<Vec<u8>, ObjectsFault>
        ensures { IfOk result (λ content. length content.items ≤ limit) }
    {
        if stream.size > limit {
            return Err(ObjectsFault::TooLong);
        }
        let mut content = Vec::new(self.alloc);
        self.add_stream(stream, &mut content)?;
        Ok(content)
    }

    /// The stored form of the object of this kind whose content is in a stream, inflated behind the header. One that is
    /// longer than the limit isn't read.
    fn inflated_behind(
        &mut self,
        kind: StoredKind,
        stream: Stream,
        limit: u64,
    ) -> Result<Vec<u8>, ObjectsFault>
        ensures { IfOk result (λ stored. length stored.items ≤ limit) }
    {
        if stream.size > limit {
            return Err(ObjectsFault::TooLong);
        }
        let room = (stream.size as usize).saturating_add(SLACK);
        let mut stored = header_of(self.alloc, kind, stream.size, room)?;
        if stored.len() as u64 > limit - stream.size {
            return Err(ObjectsFault::TooLong);
        }
        self.add_stream(stream, &mut stored)?;
        Ok(stored)
    }

    /// Where the base of a delta begins whose entry begins at an offset.
    fn base_of(&self, offset: u64, inside: Inside) -> Result<u64, ObjectsFault> {
        let base = match inside {
            Inside::Before(distance) => offset.checked_sub(distance),
            Inside::On(name) => self.index.offset_of(&name)?,
            Inside::Whole(_) => None,
        };
        match base {
            Some(base) => Ok(base),
            None => Err(ObjectsFault::Broken),
        }
    }

    /// The chain of the object whose entry begins at an offset. With the entry of another one that is made of it, a ring
    /// of deltas is longer than the pack has objects.
    fn chain_from(
        &mut self,
        shelf: &PackShelf,
        start: u64,
        limit: u64,
    ) -> Result<Chain, ObjectsFault> {
        let mut deltas = Vec::new(self.alloc);
        let mut offset = start;
        for _ in 1..self.index.count {
            if let Some(base) = shelf.base_at(self.spot(offset)) {
                return Ok(Chain {
                    offset,
                    base,
                    deltas,
                });
            }
            let entry = self.entry_at(offset)?;
            let stream = stream_of(offset, entry);
            if let Inside::Whole(kind) = entry.inside {
                let content = self.inflated(stream, limit)?;
                let base = SharedObject::of(self.alloc, Object { kind, content })?;
                return Ok(Chain {
                    offset,
                    base,
                    deltas,
                });
            }
            deltas.push(Step {
                offset,
                delta: stream,
            })?;
            offset = self.base_of(offset, entry.inside)?;
        }
        Err(ObjectsFault::Broken)
    }

    /// Makes an object by its chain, and keeps what it was made of.
    fn made_by(
        &mut self,
        shelf: &PackShelf,
        chain: Chain,
        limit: u64,
    ) -> Result<SharedObject, ObjectsFault> {
        let Chain {
            mut offset,
            mut base,
            deltas,
        } = chain;
        for step in deltas.iter().rev() {
            let Step {
                offset: next,
                delta,
            } = *step;
            let content = self.applied(base.get(), delta, limit)?;
            let kind = base.get().kind;
            let made = SharedObject::of(self.alloc, Object { kind, content })?;
            shelf.keep_base(self.spot(offset), base);
            base = made;
            offset = next;
        }
        Ok(base)
    }

    /// The content that a delta in a stream makes of its base.
    fn applied(&mut self, base: &Object, delta: Stream, limit: u64) -> Result<Vec<u8>, ObjectsFault>
        ensures { IfOk result (λ content. length content.items ≤ limit) }
    {
        let delta = self.inflated(delta, limit)?;
        apply_delta(self.alloc, base.content.as_slice(), delta.as_slice(), limit)
    }

    /// The object whose entry begins at an offset, of which others are made.
    fn made_at(
        &mut self,
        shelf: &PackShelf,
        offset: u64,
        limit: u64,
    ) -> Result<SharedObject, ObjectsFault> {
        let chain = self.chain_from(shelf, offset, limit)?;
        self.made_by(shelf, chain, limit)
    }

    /// The stored form of the object that a delta in a stream makes of the one whose entry begins at an offset: the
    /// content is made behind the header. What it is made of is kept.
    fn applied_behind(
        &mut self,
        shelf: &PackShelf,
        offset: u64,
        delta: Stream,
        limit: u64,
    ) -> Result<Vec<u8>, ObjectsFault>
        ensures { IfOk result (λ stored. length stored.items ≤ limit) }
    {
        let base = match self.made_at(shelf, offset, limit) {
            Ok(base) => base,
            Err(fault) => return Err(of_part(fault)),
        };
        let delta = match self.inflated(delta, limit) {
            Ok(delta) => delta,
            Err(fault) => return Err(of_part(fault)),
        };
        let Object { kind, content } = base.get();
        let stored = apply_stored(
            self.alloc,
            *kind,
            content.as_slice(),
            delta.as_slice(),
            limit,
        )?;
        shelf.keep_base(self.spot(offset), base);
        Ok(stored)
    }

    /// The stored form of the object whose entry begins at an offset, if that is within the limit.
    fn object_at(
        &mut self,
        shelf: &PackShelf,
        offset: u64,
        limit: u64,
    ) -> Result<Vec<u8>, ObjectsFault>
        ensures { IfOk result (λ stored. length stored.items ≤ limit) }
    {
        if let Some(kept) = shelf.base_at(self.spot(offset)) {
            return kept.get().stored(self.alloc, limit);
        }
        let entry = self.entry_at(offset)?;
        let stream = stream_of(offset, entry);
        if let Inside::Whole(kind) = entry.inside {
            return self.inflated_behind(kind, stream, limit);
        }
        let base = self.base_of(offset, entry.inside)?;
        self.applied_behind(shelf, base, stream, limit)
    }

    /// The stored form of the object with this name, if it is there and is within the limit.
    pub fn object(
        &mut self,
        shelf: &PackShelf,
        name: &ObjectId,
        limit: u64,
    ) -> Result<Option<Vec<u8>>, ObjectsFault>
        ensures { IfOk result (λ taken. IfSome taken (λ stored. length stored.items ≤ limit)) }
    {
        let Some(offset) = self.index.offset_of(name)? else {
            return Ok(None);
        };
        Ok(Some(self.object_at(shelf, offset, limit)?))
    }

    /// Gives back the memory of what was read last.
    pub fn let_go(&mut self) {
        self.source.let_go();
    }

    /// Where this pack has the entry that begins at an offset.
    fn spot(&self, offset: u64) -> Spot {
        Spot {
            pack: self.number,
            offset,
        }
    }
}
