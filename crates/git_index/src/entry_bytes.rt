//! One entry and one extension, as their bytes are in the file.
ghost use Rattle.std.specs.Prelude.{◌≡◌, ◌<◌, ◌≤◌, length, take, IfOk};
ghost use Rattle.git_index.specs.Reading.{Gives, seen_by, more_at, made_at, headed_at, flagged_at, entry_at};
ghost use Rattle.git_index.specs.Reading.{extension_at, extended_at};
ghost use Rattle.git_index.specs.Seen.{head_of, found_of};

use crate::entry::Entry;
use crate::fault::{EntryKind, IndexFault};
use crate::field::{is_known, mode_of, name_of, number16_of, number32_of};
use crate::path_part::{Before, joined_path, part_of};
use crate::version::Version;
use byte_path::{Bytes, check_path};
use std::alloc::Global;

/// The fixed part of an entry: its length, and the 16 more bits, of which none is set where they aren't there.
#[derive(Clone, Copy)]
pub struct EntryHead {
    pub length: usize,
    pub more: u16,
}

/// An entry, and the bytes after it.
#[derive(Drop)]
pub struct Found<'a> {
    pub entry: Entry,
    pub rest: &'a [u8],
}

#[tactic(auto, unfolding(crate::specs::Reading::extended_at))]
fn extended_of(k: u32, bytes: &[u8]) -> Result<EntryHead, IndexFault>
    requires { 62 ≤ length bytes.now }
    ensures value { seen_by head_of result ≡ extended_at k bytes.now }
    ensures within { IfOk result (λ h. (h.length ≤ length bytes.now) × (h.length ≤ 64)) }
{
    if bytes.len() < 64 {
        return Err(IndexFault::Short);
    }
    let more = number16_of(&bytes[62..64]);
    if !is_known(more) {
        return Err(IndexFault::Entry(k, EntryKind::ExtendedBits));
    }
    Ok(EntryHead { length: 64, more })
}

/// The fixed part, by its flags. Version 2 has no more bits.
#[tactic(auto, unfolding(crate::specs::Reading::more_at))]
fn more_of(version: Version, k: u32, flags: u16, bytes: &[u8]) -> Result<EntryHead, IndexFault>
    requires { 62 ≤ length bytes.now }
    ensures value { seen_by head_of result ≡ more_at version k flags bytes.now }
    ensures within { IfOk result (λ h. (h.length ≤ length bytes.now) × (h.length ≤ 64)) }
{
    if flags % 0x8000 < 0x4000 {
        return Ok(EntryHead {
            length: 62,
            more: 0,
        });
    }
    if version == Version::Two {
        return Err(IndexFault::Entry(k, EntryKind::Extended));
    }
    extended_of(k, bytes)
}

/// Mode and path of an entry, in this order; its flags are good.
#[tactic(auto, unfolding(crate::specs::Reading::made_at))]
fn made_of(k: u32, flags: u16, more: u16, bytes: &[u8], path: Bytes) -> Result<Entry, IndexFault>
    requires { 62 ≤ length bytes.now }
    ensures { result ≡ made_at k flags more bytes.now path }
{
    let Some(mode) = mode_of(number32_of(&bytes[24..28])) else {
        return Err(IndexFault::Mode(k));
    };
    if let Err(fault) = check_path(path.as_slice()) {
        return Err(IndexFault::Path(k, fault));
    }
    Ok(Entry {
        path,
        stage: (flags / 0x1000 % 4) as u8,
        mode,
        name: name_of(bytes),
        sparse: more / 0x4000 % 2 == 1,
        intent: more / 0x2000 % 2 == 1,
    })
}

/// The entry with this fixed part.
#[tactic(auto, unfolding(crate::specs::Reading::headed_at))]
fn headed_of<'a>(
    alloc: Global,
    before: &Before,
    k: u32,
    flags: u16,
    head: EntryHead,
    bytes: &'a [u8],
) -> Result<Found<'a>, IndexFault>
    requires some { 62 ≤ length bytes.now }
    requires within { (head.length ≤ length bytes.now) × (head.length ≤ 64) }
    ensures { Gives found_of result
        (headed_at before.now.version k before.now.path.now flags (head_of head) bytes.now) }
{
    let (_, tail) = bytes.split_at(head.length);
    let part = part_of(before, k, head.length, (flags % 0x1000) as usize, tail)?;
    let path = joined_path(alloc, before.path, &part)?;
    let entry = made_of(k, flags, head.more, bytes, path)?;
    Ok(Found {
        entry,
        rest: part.rest,
    })
}

#[tactic(auto, unfolding(crate::specs::Reading::flagged_at))]
fn flagged_of<'a>(
    alloc: Global,
    before: &Before,
    k: u32,
    flags: u16,
    bytes: &'a [u8],
) -> Result<Found<'a>, IndexFault>
    requires { 62 ≤ length bytes.now }
    ensures { Gives found_of result
        (flagged_at before.now.version k before.now.path.now flags bytes.now) }
{
    let head = more_of(before.version, k, flags, bytes)?;
    headed_of(alloc, before, k, flags, head, bytes)
}

/// The entry of this number at the front of the bytes.
#[tactic(auto, unfolding(crate::specs::Reading::entry_at))]
pub fn entry_of<'a>(
    alloc: Global,
    before: &Before,
    k: u32,
    bytes: &'a [u8],
) -> Result<Found<'a>, IndexFault>
    ensures { Gives found_of result (entry_at before.now.version k before.now.path.now bytes.now) }
{
    if bytes.len() < 62 {
        return Err(IndexFault::Short);
    }
    flagged_of(alloc, before, k, number16_of(&bytes[60..62]), bytes)
}

fn signature_of(bytes: &[u8]) -> [u8; 4]
    requires { 4 ≤ length bytes.now }
    ensures { result ≡ take 4 bytes.now }
{
    let mut signature = [0u8; 4];
    signature.copy_from_slice(&bytes[..4]);
    signature
}

/// The bytes after the extension that they begin with.
#[tactic(auto, unfolding(crate::specs::Reading::extension_at))]
pub fn extension_of(bytes: &[u8]) -> Result<&[u8], IndexFault>
    ensures value { seen_by (λ x. x.now) result ≡ extension_at bytes.now }
    ensures shorter { IfOk result (λ x. length x.now < length bytes.now) }
{
    if bytes.len() < 8 {
        return Err(IndexFault::Short);
    }
    let size = number32_of(&bytes[4..8]) as usize;
    let (_, content) = bytes.split_at(8);
    if content.len() < size {
        return Err(IndexFault::Short);
    }
    let signature = signature_of(bytes);
    if !signature[0].is_ascii_uppercase() {
        return Err(IndexFault::Extension(signature));
    }
    let (_, rest) = content.split_at(size);
    Ok(rest)
}
