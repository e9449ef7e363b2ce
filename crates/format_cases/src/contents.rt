//! Keywords and encodings.
use crate::states::{encoding_named, state_of};
use byte_path::ObjectId;
use case_kit::{noted, shown};
use ident_convert::{expand_ident, has_keyword};
use std::alloc::{AllocError, Global};
use std::test::Fail;
use tree_encoding::{Encoding, encode, encode_text, encoding_of};

/// `001a2b3c4d5e6f78899aabbccddeeff001122334` in hex.
const NAME: ObjectId =
    *b"\x00\x1a\x2b\x3c\x4d\x5e\x6f\x78\x89\x9a\xab\xbc\xcd\xde\xef\xf0\x01\x12\x23\x34";

/// What stands before a content that has to stay.
const UNENCODED: &[u8] = b"unencoded ";

/// The content with its keywords expanded, with a note if the content isn't said to have one as it does.
pub fn expanded(alloc: Global, content: &[u8]) -> Result<Vec<u8>, AllocError> {
    let text = expand_ident(alloc, content, &NAME)?;
    let is_told = has_keyword(content) == (text.as_slice() != content);
    noted(text, is_told, b"the keyword isn't told")
}

/// What a state names as an encoding.
pub fn named(alloc: Global, state: &[u8]) -> Result<Vec<u8>, Fail> {
    let state = state_of(alloc, state)?;
    Ok(shown(alloc, encoding_of(&state))?)
}

/// What comes of a content in an encoding.
fn came_of(alloc: Global, content: &[u8], encoding: Encoding) -> Result<Vec<u8>, AllocError> {
    let read = encode(alloc, content, encoding)?;
    let note: &[u8] = if read.unencoded { UNENCODED } else { b"" };
    let mut came = Vec::from_slice(alloc, note)?;
    came.extend_from_slice(read.bytes.as_slice())?;
    Ok(came)
}

/// Whether `encode_text` gives this too, or no text where the content has to stay.
fn is_text(
    alloc: Global,
    content: &[u8],
    encoding: Encoding,
    came: &[u8],
) -> Result<bool, AllocError> {
    match encode_text(alloc, content, encoding)? {
        Some(text) => Ok(text.as_slice() == came),
        None => Ok(came.starts_with(UNENCODED) || content.is_empty()),
    }
}

/// The content in an encoding, or after `unencoded ` the content that has to stay.
pub fn encoded(alloc: Global, content: &[u8], state: &[u8]) -> Result<Vec<u8>, Fail> {
    let encoding = encoding_named(alloc, state)?;
    let came = came_of(alloc, content, encoding)?;
    let is_same = is_text(alloc, content, encoding, &came)?;
    Ok(noted(came, is_same, b"`encode_text` gives another text")?)
}
