//! How characters are written in units of 16 and of 32 bits.
ghost use Rattle.std.specs.Prelude.{◌≡◌, ◌≤◌, ◌+◌, ◌++◌, take};
ghost use Rattle.std.specs.Char.{is_ascii};
ghost use Rattle.std.specs.List.{flat_map, list_all};
ghost use Rattle.tree_encoding.specs.Encode.{units16};

use crate::ascii_test::{CHUNK, is_ascii_chunk};
use std::simd::prelude::*;

/// Room for eight characters, each of at most four bytes.
pub type Block = [u8; 32];

/// UTF-16 of sixteen characters of ASCII, the lowest byte first. 16 stands for a zero.
const LITTLE16: [usize; 32] = [
    0, 16, 1, 16, 2, 16, 3, 16, 4, 16, 5, 16, 6, 16, 7, 16, 8, 16, 9, 16, 10, 16, 11, 16, 12, 16,
    13, 16, 14, 16, 15, 16,
];

/// UTF-16 of sixteen characters of ASCII, the highest byte first. 16 stands for a zero.
const BIG16: [usize; 32] = [
    16, 0, 16, 1, 16, 2, 16, 3, 16, 4, 16, 5, 16, 6, 16, 7, 16, 8, 16, 9, 16, 10, 16, 11, 16, 12,
    16, 13, 16, 14, 16, 15,
];

/// UTF-32 of sixteen characters of ASCII, the lowest byte first. 16 stands for a zero.
const LITTLE32: [usize; 64] = [
    0, 16, 16, 16, 1, 16, 16, 16, 2, 16, 16, 16, 3, 16, 16, 16, 4, 16, 16, 16, 5, 16, 16, 16, 6,
    16, 16, 16, 7, 16, 16, 16, 8, 16, 16, 16, 9, 16, 16, 16, 10, 16, 16, 16, 11, 16, 16, 16, 12,
    16, 16, 16, 13, 16, 16, 16, 14, 16, 16, 16, 15, 16, 16, 16,
];

/// UTF-32 of sixteen characters of ASCII, the highest byte first. 16 stands for a zero.
const BIG32: [usize; 64] = [
    16, 16, 16, 0, 16, 16, 16, 1, 16, 16, 16, 2, 16, 16, 16, 3, 16, 16, 16, 4, 16, 16, 16, 5, 16,
    16, 16, 6, 16, 16, 16, 7, 16, 16, 16, 8, 16, 16, 16, 9, 16, 16, 16, 10, 16, 16, 16, 11, 16, 16,
    16, 12, 16, 16, 16, 13, 16, 16, 16, 14, 16, 16, 16, 15,
];

/// A form in which characters are written. Sixteen characters of ASCII take so many bytes in it.
pub trait Form<const WIDE: usize> {
    ghost use Rattle.std.specs.Prelude.{◌≡◌, ◌≤◌, ◌+◌, ◌++◌, ℕ, List, true, take};
    ghost use Rattle.std.specs.Char.{is_ascii};
    ghost use Rattle.std.specs.List.{flat_map, list_all};

    ghost bytes_of: { ℕ → List ℕ };

    /// How many bytes the characters of a text take.
    fn room(text: &str) -> usize;

    /// How many bytes so many characters of ASCII take.
    fn ascii_room(count: usize) -> usize;

    /// Writes a character into a block at this place, and gives the place after it.
    fn put(block: &mut Block, at: usize, character: char) -> usize
        requires { at + 4 ≤ 32 }
        ensures end { (at ≤ result) × (result ≤ at + 4) }
        ensures written { take result block.new ≡ take at block.old ++ bytes_of character };

    /// Makes a block of sixteen characters of ASCII at once.
    fn put_sixteen(block: &mut [u8; WIDE], ascii: &[u8; 16])
        requires { list_all is_ascii ascii.now ≡ true }
        ensures { block.new ≡ flat_map bytes_of ascii.now };

    ghost few: { WIDE ≤ 64 };
}

/// UTF-16, with the lowest byte of a unit first.
pub struct Little16;

/// UTF-16, with the highest byte of a unit first.
pub struct Big16;

/// UTF-32, with the lowest byte of a unit first.
pub struct Little32;

/// UTF-32, with the highest byte of a unit first.
pub struct Big32;

/// The order of the two bytes of a unit.
trait Order {
    ghost use Rattle.std.specs.Prelude.{◌≡◌, ℕ, List};

    ghost unit_bytes: { ℕ → List ℕ };

    fn unit_bytes(unit: u16) -> [u8; 2]
        ensures { result ≡ unit_bytes unit };
}

impl Order for Little16 {
    ghost use Rattle.tree_encoding.specs.Encode.{little16};

    ghost unit_bytes = { little16 };

    fn unit_bytes(unit: u16) -> [u8; 2] {
        unit.to_le_bytes()
    }
}

impl Order for Big16 {
    ghost use Rattle.tree_encoding.specs.Encode.{big16};

    ghost unit_bytes = { big16 };

    fn unit_bytes(unit: u16) -> [u8; 2] {
        unit.to_be_bytes()
    }
}

/// Writes a unit.
fn put_unit<O: Order>(block: &mut Block, at: usize, unit: u16) -> usize
    requires { at + 2 ≤ 32 }
    ensures end { result ≡ at + 2 }
    ensures written { take result block.new ≡ take at block.old ++ O.unit_bytes unit }
{
    let [first, second] = O::unit_bytes(unit);
    block[at] = first;
    block[at + 1] = second;
    at + 2
}

/// A character as one unit, or above FFFF as a high and a low surrogate (RFC 2781, 2.1).
fn put_units<O: Order>(block: &mut Block, at: usize, character: char) -> usize
    requires { at + 4 ≤ 32 }
    ensures end { (at ≤ result) × (result ≤ at + 4) }
    ensures written { take result block.new ≡ take at block.old ++ flat_map O.unit_bytes (units16 character) }
{
    let code = u32::from(character);
    if code < 0x1_0000 {
        return put_unit::<O>(block, at, code as u16);
    }
    let over = code - 0x1_0000;
    let behind = put_unit::<O>(block, at, (0xD800 + over / 0x400) as u16);
    put_unit::<O>(block, behind, (0xDC00 + over % 0x400) as u16)
}

/// Writes the four bytes of a unit of 32 bits.
fn put_four(block: &mut Block, at: usize, bytes: [u8; 4]) -> usize
    requires { at + 4 ≤ 32 }
    ensures end { result ≡ at + 4 }
    ensures written { take result block.new ≡ take at block.old ++ bytes }
{
    let [first, second, third, fourth] = bytes;
    block[at] = first;
    block[at + 1] = second;
    block[at + 2] = third;
    block[at + 3] = fourth;
    at + 4
}

/// Whether a chunk is a whole one of ASCII, in which each byte is a character.
#[inline(always)]
fn is_whole_ascii(chunk: &[u8]) -> bool {
    match chunk.first_chunk::<CHUNK>() {
        Some(bytes) => is_ascii_chunk(bytes),
        None => false,
    }
}

/// Whether a byte begins a character: all do but those of the form 10xxxxxx (RFC 3629, 3).
fn begins_character(byte: u8) -> bool {
    byte & 0xC0 != 0x80
}

/// The units of 16 bits of the characters that begin in a chunk. A character of four bytes in UTF-8 takes two.
fn units16_in(chunk: &[u8]) -> u8 {
    if is_whole_ascii(chunk) {
        return CHUNK as u8;
    }
    let mut units = 0u8;
    for byte in chunk {
        let second = u8::from(*byte >= 0xF0);
        units = units
            .wrapping_add(u8::from(begins_character(*byte)))
            .wrapping_add(second);
    }
    units
}

fn characters_in(chunk: &[u8]) -> u8 {
    if is_whole_ascii(chunk) {
        return CHUNK as u8;
    }
    let mut characters = 0u8;
    for byte in chunk {
        characters = characters.wrapping_add(u8::from(begins_character(*byte)));
    }
    characters
}

fn room16(text: &str) -> usize {
    let mut units = 0usize;
    for chunk in text.as_bytes().chunks(CHUNK) {
        units = units.saturating_add(usize::from(units16_in(chunk)));
    }
    units.saturating_mul(2)
}

fn room32(text: &str) -> usize {
    let mut characters = 0usize;
    for chunk in text.as_bytes().chunks(CHUNK) {
        characters = characters.saturating_add(usize::from(characters_in(chunk)));
    }
    characters.saturating_mul(4)
}

impl Form<32> for Little16 {
    ghost use Rattle.std.proofs.Common.{rules};
    ghost use Rattle.tree_encoding.specs.Encode.{little16_of};

    ghost bytes_of = { little16_of };

    ghost few = { Prim.search rules };

    fn room(text: &str) -> usize {
        room16(text)
    }

    fn ascii_room(count: usize) -> usize {
        count.saturating_mul(2)
    }

    fn put(block: &mut Block, at: usize, character: char) -> usize {
        put_units::<Little16>(block, at, character)
    }

    #[inline(always)]
    fn put_sixteen(block: &mut [u8; 32], ascii: &[u8; 16]) {
        u8x16::from_array(*ascii)
            .shuffle(u8x16::splat(0), LITTLE16)
            .copy_to_slice(block);
    }
}

impl Form<32> for Big16 {
    ghost use Rattle.std.proofs.Common.{rules};
    ghost use Rattle.tree_encoding.specs.Encode.{big16_of};

    ghost bytes_of = { big16_of };

    ghost few = { Prim.search rules };

    fn room(text: &str) -> usize {
        room16(text)
    }

    fn ascii_room(count: usize) -> usize {
        count.saturating_mul(2)
    }

    fn put(block: &mut Block, at: usize, character: char) -> usize {
        put_units::<Big16>(block, at, character)
    }

    #[inline(always)]
    fn put_sixteen(block: &mut [u8; 32], ascii: &[u8; 16]) {
        u8x16::from_array(*ascii)
            .shuffle(u8x16::splat(0), BIG16)
            .copy_to_slice(block);
    }
}

impl Form<64> for Little32 {
    ghost use Rattle.std.proofs.Common.{rules};
    ghost use Rattle.tree_encoding.specs.Encode.{little32};

    ghost bytes_of = { little32 };

    ghost few = { Prim.search rules };

    fn room(text: &str) -> usize {
        room32(text)
    }

    fn ascii_room(count: usize) -> usize {
        count.saturating_mul(4)
    }

    fn put(block: &mut Block, at: usize, character: char) -> usize {
        put_four(block, at, u32::from(character).to_le_bytes())
    }

    #[inline(always)]
    fn put_sixteen(block: &mut [u8; 64], ascii: &[u8; 16]) {
        u8x16::from_array(*ascii)
            .shuffle(u8x16::splat(0), LITTLE32)
            .copy_to_slice(block);
    }
}

impl Form<64> for Big32 {
    ghost use Rattle.std.proofs.Common.{rules};
    ghost use Rattle.tree_encoding.specs.Encode.{big32};

    ghost bytes_of = { big32 };

    ghost few = { Prim.search rules };

    fn room(text: &str) -> usize {
        room32(text)
    }

    fn ascii_room(count: usize) -> usize {
        count.saturating_mul(4)
    }

    fn put(block: &mut Block, at: usize, character: char) -> usize {
        put_four(block, at, u32::from(character).to_be_bytes())
    }

    #[inline(always)]
    fn put_sixteen(block: &mut [u8; 64], ascii: &[u8; 16]) {
        u8x16::from_array(*ascii)
            .shuffle(u8x16::splat(0), BIG32)
            .copy_to_slice(block);
    }
}
