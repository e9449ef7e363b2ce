//! The fixed parts of an index.
ghost use Rattle.std.specs.Prelude.{◌≡◌, ◌≤◌, length, take, drop, position};
ghost use Rattle.std.specs.List.{list_all};
ghost use Rattle.std.specs.Int.{w16, w32, from_be_bytes};
ghost use Rattle.git_index.specs.Spelling.{is_nul, is_not_nul};
ghost use Rattle.git_index.specs.Reading.{length_at, mode_at, is_known};

use crate::entry::Mode;
use byte_path::ObjectId;

pub fn is_zero(bytes: &[u8]) -> bool
    ensures { result ≡ list_all is_nul bytes.now }
{
    bytes.iter().all(|b| *b == 0)
}

pub fn has_no_nul(bytes: &[u8]) -> bool
    ensures { result ≡ list_all is_not_nul bytes.now }
{
    bytes.iter().all(|b| *b != 0)
}

/// Where the first NUL stands.
pub fn first_nul(bytes: &[u8]) -> Option<usize>
    ensures { result ≡ position is_nul bytes.now }
{
    bytes.iter().position(|b| *b == 0)
}

/// How long a path is: as the flags say, or up to the first NUL if they say FFF.
pub fn length_of(told: usize, tail: &[u8]) -> Option<usize>
    ensures { result ≡ length_at told tail.now }
{
    if told < 4095 {
        return Some(told);
    }
    first_nul(tail)
}

pub fn number16_of(two: &[u8]) -> u16
    requires { length two.now ≡ 2 }
    ensures { result ≡ from_be_bytes w16 two.now }
{
    u16::from_be_bytes([two[0], two[1]])
}

pub fn number32_of(four: &[u8]) -> u32
    requires { length four.now ≡ 4 }
    ensures { result ≡ from_be_bytes w32 four.now }
{
    u32::from_be_bytes([four[0], four[1], four[2], four[3]])
}

/// Whether of 16 more bits only those are set that mean something here.
pub fn is_known(more: u16) -> bool
    ensures { result ≡ is_known more }
{
    more < 0x8000 && more % 0x2000 == 0
}

/// The object name of an entry.
pub fn name_of(bytes: &[u8]) -> ObjectId
    requires { 62 ≤ length bytes.now }
    ensures { result ≡ take 20 (drop 40 bytes.now) }
{
    let mut name = [0u8; 20];
    name.copy_from_slice(&bytes[40..60]);
    name
}

pub fn mode_of(number: u32) -> Option<Mode>
    ensures { result ≡ mode_at number }
{
    match number {
        0x81A4 => Some(Mode::Plain),
        0x81ED => Some(Mode::Executable),
        0xA000 => Some(Mode::Link),
        0xE000 => Some(Mode::Gitlink),
        _ => None,
    }
}
