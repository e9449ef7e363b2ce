//! The head of an entry of a pack (gitformat-pack(5)).
ghost use Rattle.std.specs.Prelude.{IfSome, length, ◌≤◌};

use crate::number::{read_distance, read_number};
use crate::object::StoredKind;
use byte_path::ObjectId;

/// What the stream of an entry has.
#[derive(Clone, Copy)]
pub enum Inside {
    /// The content of an object of this kind.
    Whole(StoredKind),
    /// A delta on the entry that begins so many bytes before this one.
    Before(u64),
    /// A delta on the object with this name.
    On(ObjectId),
}

/// An entry.
#[derive(Clone, Copy)]
pub struct PackEntry {
    pub inside: Inside,
    /// How many bytes are in the stream.
    pub size: u64,
    /// How many bytes the head has. The stream is behind it.
    pub head: usize,
}

/// The most bytes of a head: a size, a name or a distance.
pub const MOST: u64 = 32;

/// What an entry of this number has, and what is behind the base that is named there.
fn inside_of(number: u8, from: &[u8]) -> Option<(Inside, &[u8])>
    ensures { IfSome result (λ r. length r.1.now ≤ length from.now) }
{
    match number {
        1 => Some((Inside::Whole(StoredKind::Commit), from)),
        2 => Some((Inside::Whole(StoredKind::Tree), from)),
        3 => Some((Inside::Whole(StoredKind::Blob), from)),
        4 => Some((Inside::Whole(StoredKind::Tag), from)),
        6 => {
            let (distance, rest) = read_distance(from)?;
            Some((Inside::Before(distance), rest))
        }
        7 => {
            let (name, rest) = from.split_first_chunk::<20>()?;
            Some((Inside::On(*name), rest))
        }
        _ => None,
    }
}

/// The size that begins with the low bits of the first byte, and what is behind it.
fn size_of(first: u8, from: &[u8]) -> Option<(u64, &[u8])>
    ensures { IfSome result (λ r. length r.1.now ≤ length from.now) }
{
    let low = u64::from(first % 16);
    if first < 128 {
        return Some((low, from));
    }
    let (higher, rest) = read_number(from)?;
    Some((higher.checked_mul(16)?.checked_add(low)?, rest))
}

/// The head of the entry that begins with these bytes.
pub fn read_head(bytes: &[u8]) -> Option<PackEntry>
    ensures { IfSome result (λ e. e.head ≤ length bytes.now) }
{
    let (first, behind) = bytes.split_first()?;
    let (size, behind) = size_of(*first, behind)?;
    let (inside, rest) = inside_of(*first / 16 % 8, behind)?;
    Some(PackEntry {
        inside,
        size,
        head: bytes.len() - rest.len(),
    })
}
