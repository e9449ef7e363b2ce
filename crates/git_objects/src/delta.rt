//! Deltas: the content of an object as copies of its base's bytes and inserted ones (gitformat-pack(5)).
ghost use Rattle.std.specs.Prelude.{◌≡◌, ◌≤◌, ◌<◌, ◌+◌, ◌/◌, ◌%◌, IfOk, IfSome, OnOk, ℕ, List, [], length, vec_len};
ghost use Rattle.std.specs.Prelude.{take, drop, ◌++◌};
ghost use Rattle.git_objects.specs.Numbers.{HasNumber};
ghost use Rattle.git_objects.specs.Delta.{HasByte, HasOffset, HasLength, Instruction, Copy};
ghost use Rattle.git_objects.specs.Delta.{HasInstruction, Adds, Makes, IsDelta};

use crate::fault::ObjectsFault;
use crate::number::read_number;
use crate::object::{StoredKind, header_of};
use std::alloc::Global;

/// A byte of a number and what is behind it. A byte that isn't there counts as zero.
fn read_byte(from: &[u8], is_there: u8) -> Option<(u8, &[u8])>
    ensures number { IfSome result (λ r. HasByte is_there from.now r.0 r.1.now) }
    ensures shorter { IfSome result (λ r. length r.1.now ≤ length from.now) }
{
    if is_there == 0 {
        return Some((0, from));
    }
    let (byte, behind) = from.split_first()?;
    Some((*byte, behind))
}

/// Where a copy begins in the base, and what is behind it.
fn read_offset(from: &[u8], mask: u8) -> Option<(u32, &[u8])>
    ensures number { IfSome result (λ r. HasOffset mask from.now r.0 r.1.now) }
    ensures shorter { IfSome result (λ r. length r.1.now ≤ length from.now) }
{
    let (first, rest) = read_byte(from, mask % 2)?;
    let (second, rest) = read_byte(rest, mask / 2 % 2)?;
    let (third, rest) = read_byte(rest, mask / 4 % 2)?;
    let (fourth, rest) = read_byte(rest, mask / 8 % 2)?;
    let low = u32::from(first) + 256 * u32::from(second);
    let high = 65_536 * u32::from(third) + 16_777_216 * u32::from(fourth);
    Some((low + high, rest))
}

/// How many bytes a copy has, and what is behind it.
fn read_length(from: &[u8], mask: u8) -> Option<(u32, &[u8])>
    ensures number { IfSome result (λ r. HasLength mask from.now r.0 r.1.now) }
    ensures shorter { IfSome result (λ r. length r.1.now ≤ length from.now) }
{
    let (first, rest) = read_byte(from, mask % 2)?;
    let (second, rest) = read_byte(rest, mask / 2 % 2)?;
    let (third, rest) = read_byte(rest, mask / 4 % 2)?;
    let size = u32::from(first) + 256 * u32::from(second) + 65_536 * u32::from(third);
    Some((if size == 0 { 65_536 } else { size }, rest))
}

/// So many bytes of the base from this place on.
fn bytes_of(base: &[u8], offset: u32, size: u32) -> Option<&[u8]>
    ensures within { IfSome result (λ piece. offset + size ≤ length base.now) }
    ensures piece { IfSome result (λ piece. piece.now ≡ take size (drop offset base.now)) }
{
    let (_, from) = base.split_at_checked(offset as usize)?;
    let (piece, _) = from.split_at_checked(size as usize)?;
    Some(piece)
}

/// What the copy behind this byte adds, and what follows it.
fn read_copy<'a>(base: &'a [u8], code: u8, behind: &'a [u8]) -> Option<(&'a [u8], &'a [u8])>
    ensures copy { IfSome result (λ r. (offset size : ℕ) × (mid : List ℕ) × HasOffset (code % 16) behind.now offset mid
        × HasLength (code / 16 % 8) mid size r.1.now × Adds (Copy offset size) base.now r.0.now) }
    ensures shorter { IfSome result (λ r. length r.1.now ≤ length behind.now) }
{
    let (offset, mid) = read_offset(behind, code % 16)?;
    let (size, rest) = read_length(mid, code / 16 % 8)?;
    Some((bytes_of(base, offset, size)?, rest))
}

/// What the instruction at the front adds, and what follows it.
fn read_instruction<'a>(base: &'a [u8], delta: &'a [u8]) -> Option<(&'a [u8], &'a [u8])>
    ensures instruction { IfSome result (λ r. (i : Instruction) × HasInstruction i delta.now r.1.now
        × Adds i base.now r.0.now) }
    ensures shorter { IfSome result (λ r. length r.1.now < length delta.now) }
{
    let (code, behind) = delta.split_first()?;
    if *code >= 128 {
        let (piece, rest) = read_copy(base, *code, behind)?;
        return Some((piece, rest));
    }
    if *code == 0 {
        return None;
    }
    let (piece, rest) = behind.split_at_checked(usize::from(*code))?;
    Some((piece, rest))
}

/// Adds to a content what the instructions make of the base, up to the limit.
fn add_all(
    base: &[u8],
    delta: &[u8],
    content: &mut Vec<u8>,
    limit: usize,
) -> Result<(), ObjectsFault>
    requires within { vec_len content.old ≤ limit }
    ensures made { OnOk result ((n : ℕ) × Makes base.now n delta.now content.old.items content.new.items) }
    ensures within { OnOk result (vec_len content.new ≤ limit) }
{
    let mut rest = delta;
    while !rest.is_empty() {
        let Some((piece, behind)) = read_instruction(base, rest) else {
            return Err(ObjectsFault::Broken);
        };
        if piece.len() > limit - content.len() {
            return Err(ObjectsFault::Broken);
        }
        content.extend_from_slice(piece)?;
        rest = behind;
    }
    Ok(())
}

/// The size of what a delta makes of its base, up to the limit, and the delta's instructions.
fn read_sizes<'a>(base: &[u8], delta: &'a [u8], limit: u64) -> Result<(u64, &'a [u8]), ObjectsFault>
    ensures sizes { IfOk result (λ r. (mid : List ℕ)
        × HasNumber delta.now (length base.now) mid × HasNumber mid r.0 r.1.now) }
    ensures within { IfOk result (λ r. r.0 ≤ limit) }
{
    let Some((base_size, rest)) = read_number(delta) else {
        return Err(ObjectsFault::Broken);
    };
    let Some((size, rest)) = read_number(rest) else {
        return Err(ObjectsFault::Broken);
    };
    if base_size != base.len() as u64 {
        return Err(ObjectsFault::Broken);
    }
    if size > limit {
        return Err(ObjectsFault::TooLong);
    }
    Ok((size, rest))
}

/// Adds to what is there so many bytes that the instructions make of the base.
fn add_sized(
    base: &[u8],
    delta: &[u8],
    content: &mut Vec<u8>,
    size: u64,
) -> Result<(), ObjectsFault>
    ensures made { OnOk result
        ((n : ℕ) × Makes base.now n delta.now content.old.items content.new.items) }
    ensures sized { OnOk result (vec_len content.new ≡ vec_len content.old + size) }
{
    let Some(end) = content.len().checked_add(size as usize) else {
        return Err(ObjectsFault::Broken);
    };
    add_all(base, delta, content, end)?;
    if content.len() != end {
        return Err(ObjectsFault::Broken);
    }
    Ok(())
}

/// The content that a delta makes of its base. One that is longer than the limit isn't made.
pub fn apply_delta(
    alloc: Global,
    base: &[u8],
    delta: &[u8],
    limit: u64,
) -> Result<Vec<u8>, ObjectsFault>
    ensures content { IfOk result (λ content. IsDelta base.now delta.now content.items) }
    ensures within { IfOk result (λ content. vec_len content ≤ limit) }
{
    let (size, rest) = read_sizes(base, delta, limit)?;
    let mut content = Vec::with_capacity(alloc, size as usize)?;
    add_sized(base, rest, &mut content, size)?;
    Ok(content)
}

/// The stored form of the object of this kind that a delta makes of its base: a header, and the content made behind it.
/// One that is longer than the limit isn't made.
pub fn apply_stored(
    alloc: Global,
    kind: StoredKind,
    base: &[u8],
    delta: &[u8],
    limit: u64,
) -> Result<Vec<u8>, ObjectsFault>
    ensures content { IfOk result (λ stored. (header content : List ℕ)
        × (stored.items ≡ header ++ content) × IsDelta base.now delta.now content) }
    ensures within { IfOk result (λ stored. vec_len stored ≤ limit) }
{
    let (size, rest) = read_sizes(base, delta, limit)?;
    let mut stored = header_of(alloc, kind, size, size as usize)?;
    if stored.len() as u64 > limit - size {
        return Err(ObjectsFault::TooLong);
    }
    add_sized(base, rest, &mut stored, size)?;
    Ok(stored)
}
