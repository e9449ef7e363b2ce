//! A blob's object, read and checked.
ghost use Rattle.std.specs.Prelude.{◌≡◌, ◌≤◌, ◌==◌, true, false, length, drop, position, IfSome};
ghost use Rattle.std.specs.Prelude.{MatchOption, MatchResult};
ghost use Rattle.sha1.specs.Sha1.{sha1};
ghost use Rattle.std.specs.Str.Parse.{digits_value};
ghost use Rattle.byte_path.specs.Decimal.{is_decimal};
ghost use Rattle.object_dir.specs.Object.{is_nul, has_header, size_text, content_of, stored_content};
ghost use Rattle.object_dir.specs.Object.{object_in, IsObject, AfterRead};
ghost use Rattle.object_dir.specs.Taking.{stored_in};

use crate::fault::ObjectFault;
use crate::taken_blob::take_blob;
use byte_path::{ObjectId, is_decimal, read_decimal};
use edge_kit::{Blob, TakeFault};
use sha1::Sha1;
use std::alloc::Global;

/// The most stored bytes: those of a content of 268,435,456 bytes.
pub(crate) const MAX_STORED: u64 = 268_435_471;

/// The place of the first NUL.
fn nul_place(bytes: &[u8]) -> Option<usize>
    ensures { result ≡ position is_nul bytes.now }
{
    bytes.iter().position(|b| *b == 0)
}

/// The text of the size and the content, or `None` if there is no such header.
fn split_stored(stored: &[u8]) -> Option<(&[u8], &[u8])>
    ensures { MatchOption result (has_header stored.now ≡ false) (λ parts.
        (has_header stored.now ≡ true) × (is_decimal parts.0.now ≡ true)
        × (parts.0.now ≡ size_text stored.now) × (parts.1.now ≡ content_of stored.now)) }
{
    let rest = stored.strip_prefix(b"blob ")?;
    let end = nul_place(rest)?;
    let (size, ended) = rest.split_at(end);
    if !is_decimal(size) {
        return None;
    }
    let (_, content) = ended.split_at(1);
    Some((size, content))
}

/// Whether a decimal is this length.
fn is_length(size: &[u8], len: usize) -> bool
    requires { is_decimal size.now ≡ true }
    ensures { result ≡ (digits_value 10 size.now == len) }
{
    let len = len as u64;
    read_decimal(size, len) == Some(len)
}

/// The SHA-1 of stored bytes, which may be known.
fn sha1_of(stored: &[u8], known: Option<ObjectId>) -> ObjectId
    requires { IfSome known (λ found. found ≡ sha1 stored.now) }
    ensures { result ≡ sha1 stored.now }
{
    match known {
        Some(found) => found,
        None => Sha1::digest(stored),
    }
}

/// Where the content begins in the stored bytes of the object with this name. Their SHA-1 may be known.
#[tactic(auto, unfolding(crate::specs::Object::stored_content))]
fn content_start(
    stored: &[u8],
    name: &ObjectId,
    known: Option<ObjectId>,
) -> Result<usize, ObjectFault>
    requires { IfSome known (λ found. found ≡ sha1 stored.now) }
    ensures { MatchResult result
        (λ start. (start ≤ length stored.now)
        × (stored_content stored.now name.now ≡ Ok (drop start stored.now)))
        (λ fault. stored_content stored.now name.now ≡ Err fault) }
{
    let Some((size, content)) = split_stored(stored) else {
        return Err(ObjectFault::Header);
    };
    if !is_length(size, content.len()) {
        return Err(ObjectFault::Size);
    }
    let found = sha1_of(stored, known);
    if found != *name {
        return Err(ObjectFault::WrongName(found));
    }
    Ok(stored.len() - content.len())
}

/// The content of stored bytes, in the memory of these bytes.
fn content_in(
    mut stored: Vec<u8>,
    name: &ObjectId,
    known: Option<ObjectId>,
) -> Result<Vec<u8>, ObjectFault>
    requires { IfSome known (λ found. found ≡ sha1 stored.items) }
    ensures { MatchResult result
        (λ content. stored_content stored.items name.now ≡ Ok content.items)
        (λ fault. stored_content stored.items name.now ≡ Err fault) }
{
    match content_start(&stored, name, known) {
        Ok(start) => {
            let len = stored.len() - start;
            stored.copy_within(start.., 0);
            stored.truncate(len);
            Ok(stored)
        }
        Err(fault) => Err(fault),
    }
}

/// The content of the object with this name, from what its blob gave. Only the blob can run out of memory.
pub(crate) fn object_in(
    taken: Result<Option<Vec<u8>>, TakeFault>,
    name: &ObjectId,
    known: Option<ObjectId>,
) -> Result<Vec<u8>, ObjectFault>
    requires { IfSome known (λ found. found ≡ sha1 (stored_in taken)) }
    ensures { MatchResult result
        (λ content. object_in taken name.now ≡ Ok content.items)
        (λ fault. object_in taken name.now ≡ Err fault) }
{
    match taken {
        Ok(Some(stored)) => content_in(stored, name, known),
        Ok(None) => Err(ObjectFault::Absent),
        Err(TakeFault::TooLong) => Err(ObjectFault::TooLarge),
        Err(TakeFault::Failed) => Err(ObjectFault::ReadFailed),
        Err(TakeFault::NoMemory) => Err(ObjectFault::NoMemory),
    }
}

/// The content of the object with this name, whose blob this is. It takes over the memory of the stored bytes.
pub fn read_blob<B: Blob>(
    _alloc: Global,
    blob: &mut B,
    name: &ObjectId,
) -> Result<Vec<u8>, ObjectFault>
    ensures told { B.told blob.new ≡ B.told blob.old }
    ensures object { IsObject (B.told blob.old) name.now result }
    ensures kept { B.seen blob.new ≡
        record (B.seen blob.old) { faults = (B.seen blob.new).faults } }
    ensures faults { AfterRead (B.seen blob.old).faults (B.seen blob.new).faults result }
{
    take_blob(blob, name).into_content()
}
