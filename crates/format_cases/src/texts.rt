//! Paths, quoted texts and numbers.
use byte_path::{ByteKind, Bytes, Items, check_path, from_first, len_to, read_decimal, unquote};
use case_kit::{number_of, push_all, shown, unknown};
use std::alloc::{AllocError, Global};
use std::test::Fail;

/// What is wrong with a path.
pub fn checked(alloc: Global, path: &[u8]) -> Result<Vec<u8>, AllocError> {
    shown(alloc, check_path(path))
}

/// The number that a text spells, if it is at most the other.
pub fn decimal(alloc: Global, text: &[u8], most: &[u8]) -> Result<Vec<u8>, Fail> {
    match str::from_utf8(most)?.parse::<u64>() {
        Ok(most) => Ok(shown(alloc, read_decimal(text, most))?),
        Err(_) => Err(unknown(most)),
    }
}

/// What a quoted text says and how many bytes it takes, or what is wrong with it.
pub fn unquoted(alloc: Global, text: &[u8]) -> Result<Vec<u8>, Fail> {
    if !text.starts_with(b"\"") {
        return Err(unknown(text));
    }
    match unquote(alloc, text) {
        Ok((bytes, len)) => beside(alloc, bytes.as_slice(), &shown(alloc, len)?),
        Err(fault) => Ok(shown(alloc, fault)?),
    }
}

/// The texts with `|` between them.
fn beside(alloc: Global, first: &[u8], second: &[u8]) -> Result<Vec<u8>, Fail> {
    let mut list = Vec::new(alloc);
    push_all(&mut list, &[first, b"|", second])?;
    Ok(list)
}

/// Spaces and TABs.
struct Blank;

impl ByteKind for Blank {
    ghost use Rattle.std.specs.Prelude.{◌||◌, ◌==◌};

    ghost has = { λ b. b == 32 || b == 9 };

    fn has(byte: u8) -> bool {
        byte == b' ' || byte == b'\t'
    }
}

/// How many bytes come before a text's first blank, and the text from there on.
pub fn cut(alloc: Global, text: &[u8]) -> Result<Vec<u8>, Fail> {
    let len = shown(alloc, len_to::<Blank>(text))?;
    beside(alloc, &len, from_first::<Blank>(text))
}

/// The text of a copy, and of a text that is handed over.
pub fn copied(alloc: Global, text: &[u8]) -> Result<Vec<u8>, Fail> {
    let copy = Bytes::copy_of(alloc, text)?;
    let whole = Bytes::from_vec(Vec::from_slice(alloc, text)?);
    beside(alloc, copy.as_slice(), whole.as_slice())
}

fn numbers_of(alloc: Global, text: &[u8]) -> Result<Vec<u32>, Fail> {
    let mut numbers = Vec::new(alloc);
    for word in text.split(|byte| *byte == b' ') {
        numbers.push(number_of(word)?)?;
    }
    Ok(numbers)
}

/// The numbers of a text as items, and as a vector again.
pub fn kept(alloc: Global, text: &[u8]) -> Result<Vec<u8>, Fail> {
    let items = Items::from_vec(numbers_of(alloc, text)?);
    let held = shown(alloc, items.as_slice())?;
    beside(alloc, &held, &shown(alloc, items.into_vec().as_slice())?)
}
