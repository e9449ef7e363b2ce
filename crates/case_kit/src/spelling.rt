use crate::text::unknown;
use std::test::Fail;

/// The value of a hexadecimal digit.
fn digit_of(digit: u8) -> Option<u8> {
    match digit {
        b'0'..=b'9' => Some(digit - b'0'),
        b'a'..=b'f' => Some(digit - b'a' + 10),
        _ => None,
    }
}

/// The byte of two hexadecimal digits.
fn byte_of(high: u8, low: u8) -> Option<u8> {
    let high = digit_of(high)?;
    let low = digit_of(low)?;
    Some(high.wrapping_mul(16).wrapping_add(low))
}

/// The byte that a letter behind `\` stands for.
fn escaped(letter: u8) -> Option<u8> {
    match letter {
        b'n' => Some(b'\n'),
        b'r' => Some(b'\r'),
        b't' => Some(b'\t'),
        b'0' => Some(b'\0'),
        b'\\' => Some(b'\\'),
        _ => None,
    }
}

/// The first byte that a text spells, and the rest of the text.
fn first_spelled(text: &[u8]) -> Option<(u8, &[u8])> {
    match text {
        [b'\\', b'x', high, low, rest @ ..] => Some((byte_of(*high, *low)?, rest)),
        [b'\\', letter, rest @ ..] => Some((escaped(*letter)?, rest)),
        [byte, rest @ ..] => Some((*byte, rest)),
        [] => None,
    }
}

/// Appends the bytes that a text spells.
pub fn push_spelled(bytes: &mut Vec<u8>, text: &[u8]) -> Result<(), Fail> {
    let mut rest = text;
    for _ in 0..text.len() {
        if rest.is_empty() {
            break;
        }
        let Some((byte, behind)) = first_spelled(rest) else {
            return Err(unknown(rest));
        };
        bytes.push(byte)?;
        rest = behind;
    }
    Ok(())
}
