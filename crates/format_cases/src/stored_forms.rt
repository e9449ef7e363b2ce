//! What `git add` stores of a file.
use crate::states::{encoding_named, named};
use back_convert::{
    Action, BackFault, back_encode, back_ends, back_ident, has_crlf, has_expanded, to_stored,
};
use case_kit::{Words, found, noted, shown};
use std::alloc::{AllocError, Global};
use std::test::Fail;
use tree_encoding::Encoding;

const ACTIONS: Words<Action> = &[
    (b"Binary", Action::Binary),
    (b"TextLf", Action::TextLf),
    (b"TextCrlf", Action::TextCrlf),
    (b"AutoLf", Action::AutoLf),
    (b"AutoCrlf", Action::AutoCrlf),
];

/// Whether an attribute is set.
const SIGNS: Words<bool> = &[(b"+", true), (b"-", false)];

/// What came, or the fault.
fn told(alloc: Global, came: Result<Vec<u8>, BackFault>) -> Result<Vec<u8>, AllocError> {
    match came {
        Ok(bytes) => Ok(bytes),
        Err(fault) => shown(alloc, fault),
    }
}

/// How a file is stored: whether `ident` is set, what is done with its line ends, whether the index's content has
/// CR LF, and the encoding.
#[derive(Clone, Copy)]
struct Storing {
    ident: bool,
    action: Action,
    old_crlf: bool,
    encoding: Option<Encoding>,
}

/// The text with its keywords as they were, with a note if the text isn't said to have one as it does.
fn back_keyed(alloc: Global, text: &[u8]) -> Result<Vec<u8>, AllocError> {
    let back = back_ident(alloc, text)?;
    let is_told = has_expanded(text) == (back.as_slice() != text);
    noted(back, is_told, b"this keyword isn't told")
}

/// What is stored of a file, step by step.
fn by_steps(alloc: Global, file: &[u8], storing: &Storing) -> Result<Vec<u8>, BackFault> {
    let text = match storing.encoding {
        Some(encoding) => back_encode(alloc, file, encoding)?,
        None => Vec::from_slice(alloc, file)?,
    };
    let ended = back_ends(alloc, &text, storing.action, storing.old_crlf)?;
    if storing.ident {
        return Ok(back_keyed(alloc, &ended)?);
    }
    Ok(ended)
}

/// What is stored of a file, at once.
fn at_once(alloc: Global, file: &[u8], storing: &Storing) -> Result<Vec<u8>, BackFault> {
    let Storing {
        ident,
        action,
        old_crlf,
        encoding,
    } = *storing;
    let file = Vec::from_slice(alloc, file)?;
    to_stored(alloc, ident, action, encoding, old_crlf, file)
}

/// How the cells say that a file is stored.
fn storing_of(alloc: Global, [ident, action, encoding, old]: [&[u8]; 4]) -> Result<Storing, Fail> {
    Ok(Storing {
        ident: found(SIGNS, ident)?,
        action: found(ACTIONS, action)?,
        old_crlf: has_crlf(old),
        encoding: named(alloc, encoding)?,
    })
}

/// What is stored of a file, with a note if it comes otherwise step by step.
pub fn stored(alloc: Global, file: &[u8], cells: [&[u8]; 4]) -> Result<Vec<u8>, Fail> {
    let storing = storing_of(alloc, cells)?;
    let steps = told(alloc, by_steps(alloc, file, &storing))?;
    let came = told(alloc, at_once(alloc, file, &storing))?;
    let is_same = came.as_slice() == steps.as_slice();
    Ok(noted(came, is_same, b"step by step it is another")?)
}

/// So many characters of sixteen, over and over again. Each takes a sixteenth of the bytes.
fn repeated(alloc: Global, sixteen: &[u8], count: usize) -> Result<Vec<u8>, AllocError> {
    let mut text = sixteen.repeat(alloc, count / 16 + 1)?;
    text.truncate((sixteen.len() / 16).saturating_mul(count));
    Ok(text)
}

/// Eighty characters of sixteen, with another at a place.
fn spliced(
    alloc: Global,
    sixteen: &[u8],
    place: usize,
    other: &[u8],
) -> Result<Vec<u8>, AllocError> {
    let mut text = repeated(alloc, sixteen, place)?;
    text.extend_from_slice(other)?;
    text.extend_from_slice(&repeated(alloc, sixteen, 80usize.saturating_sub(place))?)?;
    Ok(text)
}

/// Whether the other character is read at a place out of the encoding.
fn is_read(
    alloc: Global,
    encoding: Encoding,
    [sixteen, other]: [&[u8]; 2],
    [plain, text]: [&[u8]; 2],
    place: usize,
) -> Result<bool, AllocError> {
    let wanted = spliced(alloc, plain, place, text)?;
    let file = spliced(alloc, sixteen, place, other)?;
    let came = told(alloc, back_encode(alloc, &file, encoding))?;
    Ok(came.as_slice() == wanted.as_slice())
}

/// How many places before, between and behind eighty characters there are, at which another one is read out of the
/// encoding with them. The sixteen and the other stand here in the encoding, and there as plain text.
pub fn placed(
    alloc: Global,
    encoding: &[u8],
    encoded: [&[u8]; 2],
    plain: [&[u8]; 2],
) -> Result<Vec<u8>, Fail> {
    let encoding = encoding_named(alloc, encoding)?;
    let mut count = 0u32;
    for place in 0..81 {
        if is_read(alloc, encoding, encoded, plain, place)? {
            count = count.saturating_add(1);
        }
    }
    Ok(shown(alloc, count)?)
}
