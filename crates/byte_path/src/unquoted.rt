ghost use Rattle.std.specs.Prelude.{◌≡◌, ◌++◌, Ok, Some, true, length, slice_get};
ghost use Rattle.std.specs.List.{list_any};
ghost use Rattle.byte_path.specs.Quote.{needs_escape, quoted};
ghost use Rattle.byte_path.specs.Unquote.{byte_of_letter, escape_at, IsStretch, IsUnquoted, unquoted};
ghost use Rattle.byte_path.specs.declared.unquoted.QuoteFault.TheVariants as quote;

use crate::bytes::Bytes;
use memchr::memchr2;
use std::alloc::{AllocError, AllocFailed, Global};

/// Why a quoted text can't be read: the first fault from the left.
#[derive(Clone, Copy, Debug)]
pub enum QuoteFault {
    /// It ends before a closing quote.
    Unclosed,
    /// A backslash begins no escape, or the text ends after it.
    BadEscape,
    /// Memory ran out.
    NoMemory,
}

impl From<AllocError> for QuoteFault {
    ghost from_gives = { λ _ e. e ≡ quote.NoMemory };

    fn from(_: AllocError) -> Self {
        QuoteFault::NoMemory
    }
}

impl<T: Drop> From<AllocFailed<T>> for QuoteFault {
    ghost from_gives = { λ _ e. e ≡ quote.NoMemory };

    fn from(_: AllocFailed<T>) -> Self {
        QuoteFault::NoMemory
    }
}

/// The byte of a letter after a backslash.
fn byte_of_letter(letter: u8) -> Option<u8>
    ensures { result ≡ byte_of_letter letter }
{
    match letter {
        b'a' => Some(0x07),
        b'b' => Some(0x08),
        b't' => Some(b'\t'),
        b'n' => Some(b'\n'),
        b'v' => Some(0x0B),
        b'f' => Some(0x0C),
        b'r' => Some(b'\r'),
        b'"' => Some(b'"'),
        b'\\' => Some(b'\\'),
        _ => None,
    }
}

/// The escape after a backslash: the byte that it stands for, and how many bytes the escape takes after the backslash.
fn escape_at(text: &[u8]) -> Option<(u8, usize)>
    ensures { result ≡ escape_at text.now }
{
    let letter = *text.first()?;
    if let Some(byte) = byte_of_letter(letter) {
        return Some((byte, 1));
    }
    match text {
        [
            high @ b'0'..=b'3',
            middle @ b'0'..=b'7',
            low @ b'0'..=b'7',
            ..
        ] => {
            let value = (high - b'0') * 64 + (middle - b'0') * 8 + (low - b'0');
            Some((value, 3))
        }
        _ => None,
    }
}

/// How a stretch of a quoted text ended, and how many bytes it has.
enum Stretch {
    Closed(usize),
    Escaped(usize),
}

/// Appends the bytes before the closing quote, or those before the first escape and then the escape's byte.
fn push_stretch(bytes: &mut Vec<u8>, text: &[u8]) -> Result<Stretch, QuoteFault>
    ensures { IsStretch bytes.old.items text.now bytes.new.items result }
{
    let Some(end) = memchr2(b'"', b'\\', text) else {
        return Err(QuoteFault::Unclosed);
    };
    let (plain, _) = text.split_at(end);
    bytes.extend_from_slice(plain)?;
    if text[end] == b'"' {
        return Ok(Stretch::Closed(end + 1));
    }
    let (_, behind) = text.split_at(end + 1);
    match escape_at(behind) {
        Some((byte, len)) => {
            bytes.push(byte)?;
            Ok(Stretch::Escaped(end + 1 + len))
        }
        None => Err(QuoteFault::BadEscape),
    }
}

/// The bytes of a text in double quotes with C's escapes, and how many bytes of `text` these took. What follows the
/// closing quote isn't read.
pub fn unquote(alloc: Global, text: &[u8]) -> Result<(Bytes, usize), QuoteFault>
    requires { slice_get text.now 0 ≡ Some 34 }
    ensures { IsUnquoted text.now result }
{
    let mut bytes = Vec::new(alloc);
    let mut place = 1;
    'stretches: loop {
        let (_, rest) = text.split_at(place);
        match push_stretch(&mut bytes, rest)? {
            Stretch::Closed(len) => return Ok((Bytes::from_vec(bytes), place + len)),
            Stretch::Escaped(len) => place += len,
        }
    }
}

/// The law that a path shown in quotes is read as itself, whatever follows it. It does nothing.
pub fn quoted_path_reads_back(path: &[u8], behind: &[u8])
    requires { list_any needs_escape path.now ≡ true }
    ensures { unquoted (quoted path.now ++ behind.now) ≡ Ok (path.now, length (quoted path.now)) }
{}
