//! Contents of ASCII alone.
ghost use Rattle.std.specs.Prelude.{◌≡◌};
ghost use Rattle.std.specs.Char.{is_ascii};
ghost use Rattle.std.specs.List.{list_all};

use std::simd::prelude::*;

/// So many bytes are tested at once.
pub const CHUNK: usize = 64;

/// Whether the bytes of a chunk are ASCII.
#[inline(always)]
pub fn is_ascii_chunk(chunk: &[u8; CHUNK]) -> bool
    ensures { result ≡ list_all is_ascii chunk.now }
{
    u8x64::from_array(*chunk)
        .simd_ge(u8x64::splat(0x80))
        .to_bitmask()
        == 0
}

/// Whether a few bytes are ASCII, tested one by one.
fn are_ascii(bytes: &[u8]) -> bool
    ensures { result ≡ list_all is_ascii bytes.now }
{
    bytes.iter().all(|byte| byte.is_ascii())
}

/// Whether all bytes are ASCII.
pub fn is_ascii(bytes: &[u8]) -> bool
    ensures { result ≡ list_all is_ascii bytes.now }
{
    let mut rest = bytes;
    'chunks: while let Some(chunk) = rest.first_chunk::<CHUNK>() {
        if !is_ascii_chunk(chunk) {
            return false;
        }
        let (_, behind) = rest.split_at(CHUNK);
        rest = behind;
    }
    are_ascii(rest)
}
