//! The lines of a table of conversions.
//!
//! A line is a kind of conversion, a content in hex, and then what else the kind needs, with one space between:
//! `crlf CONTENT`, `auto-crlf CONTENT`, `ident CONTENT NAME`, and `UTF-16LE CONTENT` or another encoding by its name.
//! `-` stands for no bytes.
ghost use Rattle.std.specs.Prelude.{◌≡◌, IfOk, Ok, Some};
ghost use Rattle.std.specs.List.{before_first, after_first};
ghost use Rattle.hex.specs.Hex.{decode_of};
ghost use Rattle.tree_encoding.specs.Named.{encoding_of};
ghost use Rattle.format_cases.specs.Task.{ends_named, IsKind, read_bytes, is_space, IsTask, converted};

use attr_line::AttrState;
use byte_path::{ByteKind, Bytes, ObjectId, len_to};
use case_kit::unknown;
use eol_convert::{LineEnds, to_tree_ends};
use hex::FromHex;
use ident_convert::expand_ident;
use std::alloc::{AllocError, Global};
use std::test::Fail;
use tree_encoding::{Encoding, encode, encoding_of};

/// A conversion.
#[derive(Clone, Copy)]
pub enum Kind {
    /// `crlf` and `auto-crlf`.
    Ends(LineEnds),
    /// `ident`, with the name of the blob.
    Ident(ObjectId),
    /// The name of an encoding.
    Encoded(Encoding),
}

/// What a line asks for.
#[derive(Drop)]
pub struct Task {
    pub kind: Kind,
    pub content: Vec<u8>,
}

/// The line ends of a kind.
fn ends_named(kind: &[u8]) -> Option<LineEnds>
    ensures { result ≡ ends_named kind.now }
{
    if kind == b"crlf".as_slice() {
        Some(LineEnds::ToCrlf)
    } else if kind == b"auto-crlf".as_slice() {
        Some(LineEnds::AutoCrlf)
    } else {
        None
    }
}

/// The name of a blob, in hex.
fn read_name(word: &[u8]) -> Result<ObjectId, Fail>
    ensures { IfOk result (λ name. decode_of word.now ≡ Ok name) }
{
    Ok(<ObjectId as FromHex>::from_hex(word)?)
}

/// The encoding with this name.
fn encoding_named(alloc: Global, name: &[u8]) -> Result<Encoding, Fail>
    ensures { IfOk result (λ encoding. encoding_of (AttrState.Value name.now) ≡ Ok (Some encoding)) }
{
    let state = AttrState::Value(Bytes::copy_of(alloc, name)?);
    match encoding_of(&state) {
        Ok(Some(encoding)) => Ok(encoding),
        Ok(None) | Err(_) => Err(unknown(name)),
    }
}

/// The kind with this name, and what follows the content.
fn read_kind(alloc: Global, kind: &[u8], behind: &[u8]) -> Result<Kind, Fail>
    ensures { IfOk result (IsKind kind.now behind.now) }
{
    if kind == b"ident".as_slice() {
        return Ok(Kind::Ident(read_name(behind)?));
    }
    if let Some(ends) = ends_named(kind) {
        return Ok(Kind::Ends(ends));
    }
    Ok(Kind::Encoded(encoding_named(alloc, kind)?))
}

/// Bytes in hex, or `-` for none.
fn read_bytes(alloc: Global, word: &[u8]) -> Result<Vec<u8>, Fail>
    ensures { IfOk result (λ bytes. read_bytes word.now ≡ Ok bytes.items) }
{
    if word == b"-".as_slice() {
        return Ok(Vec::new(alloc));
    }
    Ok(hex::decode(alloc, word)?)
}

struct Space;

impl ByteKind for Space {
    ghost use Rattle.format_cases.specs.Task.{is_space};

    ghost has = { is_space };

    fn has(byte: u8) -> bool {
        byte == b' '
    }
}

/// What comes before the first space, and what comes after it.
fn cut_word(line: &[u8]) -> (&[u8], &[u8])
    ensures before { result.0.now ≡ before_first is_space line.now }
    ensures behind { result.1.now ≡ after_first is_space line.now }
{
    let len = len_to::<Space>(line);
    let (word, _) = line.split_at(len);
    if len == line.len() {
        return (word, &[]);
    }
    let (_, behind) = line.split_at(len + 1);
    (word, behind)
}

/// What a line asks for.
pub fn read_task(alloc: Global, line: &[u8]) -> Result<Task, Fail>
    ensures { IfOk result (IsTask line.now) }
{
    let (kind, rest) = cut_word(line);
    let (content, behind) = cut_word(rest);
    let kind = read_kind(alloc, kind, behind)?;
    let content = read_bytes(alloc, content)?;
    Ok(Task { kind, content })
}

/// The content as it stands in the worktree.
pub fn convert(alloc: Global, task: &Task) -> Result<Vec<u8>, AllocError>
    ensures { IfOk result (λ bytes. bytes.items ≡ converted task.now.kind task.now.content.items) }
{
    match task.kind {
        Kind::Ends(ends) => to_tree_ends(alloc, &task.content, ends),
        Kind::Ident(name) => expand_ident(alloc, &task.content, &name),
        Kind::Encoded(encoding) => {
            let prepared = encode(alloc, &task.content, encoding)?;
            Vec::from_slice(alloc, prepared.bytes.as_slice())
        }
    }
}
