//! A text, written character by character.
ghost use Rattle.std.specs.Prelude.{◌≡◌, ◌<◌, ◌≤◌, ◌++◌, OnOk, IfOk, IfSome, true, length, take, chars};
ghost use Rattle.std.specs.Char.{is_ascii};
ghost use Rattle.std.specs.List.{flat_map, list_all};
ghost use Rattle.tree_encoding.specs.Front.{BeginsWithSixteen, GoesOn};

use crate::ascii_test::CHUNK;
use crate::form::{Block, Form};
use std::alloc::AllocError;
use std::simd::prelude::*;

/// Whether sixteen bytes are ASCII, all tested at once.
fn is_ascii(bytes: &[u8; 16]) -> bool
    ensures { result ≡ list_all is_ascii bytes.now }
{
    u8x16::from_array(*bytes)
        .simd_ge(u8x16::splat(0x80))
        .to_bitmask()
        == 0
}

/// The sixteen characters of ASCII with which a text begins, and what follows them.
fn split_sixteen(text: &str) -> Option<(&[u8; 16], &str)>
    ensures { IfSome result (λ parts. BeginsWithSixteen text.now parts.0.now parts.1.now) }
{
    let sixteen = text.as_bytes().first_chunk::<16>()?;
    if !is_ascii(sixteen) {
        return None;
    }
    let (_, behind) = text.split_at(16);
    Some((sixteen, behind))
}

/// Appends the first bytes of a block. A block of a known size is copied faster than a few bytes, so it is cut
/// afterwards, unless the room is too small for it.
fn push_cut(out: &mut Vec<u8>, block: &Block, count: usize) -> Result<(), AllocError>
    requires { count ≤ 32 }
    ensures { OnOk result (out.new.items ≡ out.old.items ++ take count block.now) }
{
    let len = out.len();
    if out.capacity().saturating_sub(len) < block.len() {
        return out.extend_from_slice(&block[..count]);
    }
    out.extend_from_slice(block)?;
    out.truncate(len + count);
    Ok(())
}

/// Writes the first characters of a text, up to eight, at once. What follows them is left.
fn push_few<'a, F: Form<WIDE>, const WIDE: usize>(
    out: &mut Vec<u8>,
    text: &'a str,
) -> Result<&'a str, AllocError>
    requires { 0 < length text.now }
    ensures shorter { IfOk result (λ behind. length behind.now < length text.now) }
    ensures same { IfOk result (λ behind. GoesOn F.bytes_of out.old.items text.now out.new.items behind.now) }
{
    let mut block: Block = [0; 32];
    let mut end = 0;
    let mut rest = text.chars();
    for _count in 0..8u8 {
        let Some(character) = rest.next() else {
            break;
        };
        end = F::put(&mut block, end, character);
    }
    push_cut(out, &block, end)?;
    Ok(rest.as_str())
}

/// Writes sixteen characters of ASCII at once.
fn push_sixteen<F: Form<WIDE>, const WIDE: usize>(
    out: &mut Vec<u8>,
    ascii: &[u8; 16],
) -> Result<(), AllocError>
    requires { list_all is_ascii ascii.now ≡ true }
    ensures { OnOk result (out.new.items ≡ out.old.items ++ flat_map F.bytes_of ascii.now) }
{
    let mut block = [0u8; WIDE];
    F::put_sixteen(&mut block, ascii);
    out.extend_from_slice(&block)
}

/// Writes the characters of a text, sixteen of ASCII at once if there are sixteen.
pub fn push_text<F: Form<WIDE>, const WIDE: usize>(
    out: &mut Vec<u8>,
    text: &str,
) -> Result<(), AllocError>
    ensures { OnOk result (out.new.items ≡ out.old.items ++ flat_map F.bytes_of (chars text.now)) }
{
    let mut rest = text;
    'text: while !rest.is_empty() {
        rest = match split_sixteen(rest) {
            Some((sixteen, behind)) => {
                push_sixteen::<F, WIDE>(out, sixteen)?;
                behind
            }
            None => push_few::<F, WIDE>(out, rest)?,
        };
    }
    Ok(())
}

/// Writes a character of ASCII.
fn push_one<F: Form<WIDE>, const WIDE: usize>(
    out: &mut Vec<u8>,
    ascii: u8,
) -> Result<(), AllocError>
    ensures { OnOk result (out.new.items ≡ out.old.items ++ F.bytes_of ascii) }
{
    let mut block: Block = [0; 32];
    let end = F::put(&mut block, 0, char::from(ascii));
    push_cut(out, &block, end)
}

/// Writes fewer than sixteen characters of ASCII.
fn push_few_ascii<F: Form<WIDE>, const WIDE: usize>(
    out: &mut Vec<u8>,
    ascii: &[u8],
) -> Result<(), AllocError>
    ensures { OnOk result (out.new.items ≡ out.old.items ++ flat_map F.bytes_of ascii.now) }
{
    let mut rest = ascii;
    'bytes: while let Some((byte, behind)) = rest.split_first() {
        push_one::<F, WIDE>(out, *byte)?;
        rest = behind;
    }
    Ok(())
}

/// Writes characters of ASCII that fill no chunk, sixteen at once.
fn push_sixteens<F: Form<WIDE>, const WIDE: usize>(
    out: &mut Vec<u8>,
    ascii: &[u8],
) -> Result<(), AllocError>
    requires { list_all is_ascii ascii.now ≡ true }
    ensures { OnOk result (out.new.items ≡ out.old.items ++ flat_map F.bytes_of ascii.now) }
{
    let mut rest = ascii;
    'ascii: while let Some((sixteen, behind)) = rest.split_first_chunk::<16>() {
        push_sixteen::<F, WIDE>(out, sixteen)?;
        rest = behind;
    }
    push_few_ascii::<F, WIDE>(out, rest)
}

/// Writes a chunk of characters of ASCII at once.
fn push_chunk<F: Form<WIDE>, const WIDE: usize>(
    out: &mut Vec<u8>,
    ascii: &[u8; CHUNK],
) -> Result<(), AllocError>
    requires { list_all is_ascii ascii.now ≡ true }
    ensures { OnOk result (out.new.items ≡ out.old.items ++ flat_map F.bytes_of ascii.now) }
{
    let (sixteens, _) = ascii.as_chunks::<16>();
    let [first, second, third, fourth] = sixteens else {
        unreachable!()
    };
    let mut blocks = [[0u8; WIDE]; 4];
    F::put_sixteen(&mut blocks[0], first);
    F::put_sixteen(&mut blocks[1], second);
    F::put_sixteen(&mut blocks[2], third);
    F::put_sixteen(&mut blocks[3], fourth);
    out.extend_from_slice(blocks.as_flattened())
}

/// Writes characters of ASCII, a chunk at once.
pub fn push_ascii<F: Form<WIDE>, const WIDE: usize>(
    out: &mut Vec<u8>,
    ascii: &[u8],
) -> Result<(), AllocError>
    requires { list_all is_ascii ascii.now ≡ true }
    ensures { OnOk result (out.new.items ≡ out.old.items ++ flat_map F.bytes_of ascii.now) }
{
    let mut rest = ascii;
    'ascii: while let Some((chunk, behind)) = rest.split_first_chunk::<CHUNK>() {
        push_chunk::<F, WIDE>(out, chunk)?;
        rest = behind;
    }
    push_sixteens::<F, WIDE>(out, rest)
}
