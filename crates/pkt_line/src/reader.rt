ghost use Rattle.std.specs.Prelude.{◌≡◌, ◌≤◌, ◌<◌, ◌+◌, ◌-◌, ◌++◌, [], min, take, drop, length, vec_len, vec_capacity};
ghost use Rattle.std.specs.Prelude.{IfOk, ⊤};
ghost use Rattle.std.specs.Borrow.{sem, follows_so};
ghost use mathlib.Core.Option as maybe;
ghost use Rattle.pkt_line.specs.Packets.{number_at, IsPartial, IsShortOf, HasPacketOf};
ghost use Rattle.pkt_line.specs.Reading.{with_bytes, without};
ghost use Rattle.pkt_line.specs.Reader.{Peeks, Lends, Fronts, IsFront, size_taken, lent_size, front_size};
ghost use Rattle.pkt_line.specs.contracts.reader.PktReader.{the_row};

use crate::length::{DIGITS, MOST_SIZE, number_of};
use std::alloc::{AllocError, Global};
use std::marker::Model;

/// What is at the front of the unread bytes.
#[derive(Clone, Copy, PartialEq, Eq)]
pub enum Next<'a> {
    /// A packet with this payload, of 0 to 65,516 bytes. The slice borrows the reader's own buffer.
    Payload(&'a [u8]),
    /// A flush packet, `0000`.
    Flush,
    /// The bytes end inside a packet, or there are none.
    NeedMore,
}

/// Why no packet is at the front, and none ever will be. `place` counts the bytes before it.
#[derive(Clone, Copy, PartialEq, Eq)]
pub enum PktFault {
    /// One of the four bytes is no hexadecimal digit.
    BadDigits { place: u64 },
    /// The digits give 1, 2, 3 or more than 65,520.
    BadLength { place: u64, length: u32 },
}

/// A reader of packets (gitprotocol-common(5), "pkt-line Format"). It takes the bytes in pieces of any length.
///
/// Contracts see the bytes that it took and hasn't given, and how many it has given. It has one buffer, with room for
/// the longest packet.
#[derive(Drop)]
pub struct PktReader {
    bytes: Vec<u8>,
    start: usize,
    place: u64,
}

impl Model for PktReader {
    ghost use Rattle.std.specs.Prelude.{◌≤◌, drop, vec_len, vec_capacity};
    ghost use Rattle.pkt_line.specs.Reading.{Reading};

    ghost Value = { Reading };

    ghost view = { λ r. record { unread = drop r.start r.bytes.items; place = r.place } };

    ghost invariant = { λ r. (r.start ≤ vec_len r.bytes) × (vec_len r.bytes ≤ 65520) × (65520 ≤ vec_capacity r.bytes) };
}

impl PktReader {
    /// A reader with room for 65,520 bytes, the longest packet.
    pub fn reserve(alloc: Global) -> Result<PktReader, AllocError>
        ensures { IfOk result (λ r. r ≡ record { unread = []; place = 0 }) }
    {
        let bytes = Vec::with_capacity(alloc, MOST_SIZE)?;
        Ok(PktReader {
            bytes,
            start: 0,
            place: 0,
        })
    }

    /// What is at the front of the unread bytes. It changes nothing.
    pub fn peek(&self) -> Result<Next<'_>, PktFault>
        ensures { Peeks result self.now }
    {
        let unread = self.unread();
        match front_of(unread, self.place) {
            Ok(front) => Ok(lend(front, unread)),
            Err(fault) => Err(fault),
        }
    }

    /// The next packet, which leaves the reader. If there is none, the reader doesn't change, so after a fault every
    /// call returns the same fault.
    pub fn next(&mut self) -> Result<Next<'_>, PktFault>
        ensures* rest { sem 𝓛
            (follows_so the_row the_row self.entry.ghost_name maybe.none (λ _ _. ⊤)
            (λ n. n ≡ without (size_taken result) self.old)) }
        ensures front { Peeks result self.old }
    {
        let front = match self.front() {
            Ok(front) => front,
            Err(fault) => return Err(fault),
        };
        let start = self.start;
        let size = front.size();
        self.start += size;
        self.place = self.place.saturating_add(size as u64);
        let (_, unread) = self.bytes.as_slice().split_at(start);
        Ok(lend(front, unread))
    }

    /// Drops the packet at the front, which `peek` showed and which takes `size` bytes.
    #[tactic(auto, using(crate::proofs::NoPacket::packet_within))]
    pub fn skip(&mut self, size: usize)
        requires { HasPacketOf size self.old.unread }
        ensures { self.new ≡ without size self.old }
    {
        self.start += size;
        self.place = self.place.saturating_add(size as u64);
    }

    fn front(&self) -> Result<Front, PktFault>
        ensures fronts { Fronts result self.now }
        ensures within { IfOk result (λ f. front_size f ≤ length self.now.unread) }
    {
        front_of(self.unread(), self.place)
    }

    fn unread(&self) -> &[u8]
        ensures { result.now ≡ self.now.unread }
    {
        let (_, unread) = self.bytes.as_slice().split_at(self.start);
        unread
    }

    /// How many more bytes the reader can take.
    pub fn room(&self) -> usize
        ensures { result + length self.now.unread ≡ 65520 }
    {
        MOST_SIZE - (self.bytes.len() - self.start)
    }

    /// Takes the longest prefix of `piece` that there is room for, and returns its length. The room is 65,520 bytes
    /// minus the unread ones.
    pub fn feed(&mut self, piece: &[u8]) -> usize
        ensures count { result ≡ min (length piece.now) (65520 - length self.old.unread) }
        ensures taken { self.new ≡ with_bytes (take result piece.now) self.old }
        ensures progress { IsPartial self.old.unread → 0 < length piece.now → 0 < result }
    {
        let (front, _) = piece.split_at(piece.len().min(self.room()));
        self.append(front);
        front.len()
    }

    /// Takes the bytes, for which there is room. The unread bytes move to the front of the buffer only if there is too
    /// little room after them.
    fn append(&mut self, piece: &[u8])
        requires { length self.old.unread + length piece.now ≤ 65520 }
        ensures { self.new ≡ with_bytes piece.now self.old }
    {
        if piece.len() > MOST_SIZE - self.bytes.len() {
            drop_front(&mut self.bytes, self.start);
            self.start = 0;
        }
        // The buffer has the room, so this takes no memory.
        let _ = self.bytes.extend_from_slice(piece);
    }
}

/// What is at the front. A payload is given by the size of its packet.
#[derive(Clone, Copy)]
enum Front {
    Payload(usize),
    Flush,
    NeedMore,
}

impl Front {
    /// How many bytes the packet takes.
    fn size(self) -> usize
        ensures { result ≡ front_size self }
    {
        match self {
            Front::Payload(size) => size,
            Front::Flush => DIGITS,
            Front::NeedMore => 0,
        }
    }
}

/// What is at the front of the unread bytes, after `place` bytes.
fn front_of(unread: &[u8], place: u64) -> Result<Front, PktFault>
    ensures fronts { Fronts result (record { unread = unread.now; place = place }) }
    ensures within { IfOk result (λ f. front_size f ≤ length unread.now) }
{
    if unread.len() < DIGITS {
        return Ok(Front::NeedMore);
    }
    let Some(number) = number_of(unread) else {
        return Err(PktFault::BadDigits { place });
    };
    let size = usize::from(number);
    if size == 0 {
        return Ok(Front::Flush);
    }
    if size < DIGITS || size > MOST_SIZE {
        let length = u32::from(number);
        return Err(PktFault::BadLength { place, length });
    }
    if unread.len() < size {
        return Ok(Front::NeedMore);
    }
    Ok(Front::Payload(size))
}

/// The packet at the front, with its payload as a slice.
fn lend(front: Front, unread: &[u8]) -> Next<'_>
    requires { IsFront front unread.now }
    ensures peeks { Lends result unread.now }
    ensures size { lent_size result ≡ front_size front }
{
    match front {
        Front::Payload(size) => {
            let (packet, _) = unread.split_at(size);
            let (_, payload) = packet.split_at(DIGITS);
            Next::Payload(payload)
        }
        Front::Flush => Next::Flush,
        Front::NeedMore => Next::NeedMore,
    }
}

/// Drops the first bytes, and moves the others to the front.
fn drop_front(bytes: &mut Vec<u8>, count: usize)
    requires { count ≤ vec_len bytes.old }
    ensures items { bytes.new.items ≡ drop count bytes.old.items }
    ensures capacity { vec_capacity bytes.new ≡ vec_capacity bytes.old }
{
    let left = bytes.len() - count;
    bytes.copy_within(count.., 0);
    bytes.truncate(left);
}
