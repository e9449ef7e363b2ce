//! What is written as packets.
//!
//! The kind `writing` has the steps `hello`, `caps`, `list`, `flush`, `line`, `payload`, `content`, and `smudge` and
//! `smudge-late`, each with a path and behind a space the content. The step `nulls` says that the next requests have
//! the name of 20 NULs, and not that with each hexadecimal digit.
use crate::runs::{folded, unfolded};
use byte_path::ObjectId;
use case_kit::{Cell, Words, found, given, parted, unknown};
use filter_words::{push_caps, push_hello, push_list, push_smudge};
use pkt_line::{push_content, push_flush, push_line, push_payload};
use std::alloc::Global;
use std::test::Fail;

/// A name with each hexadecimal digit.
const LETTERS: ObjectId =
    *b"\x01\x23\x45\x67\x89\xab\xcd\xef\xfe\xdc\xba\x98\x76\x54\x32\x10\x00\xff\x0a\xa0";

/// Appends a request for a path, which may wait or not.
fn push_request(
    alloc: Global,
    out: &mut Vec<u8>,
    name: &ObjectId,
    can_delay: bool,
    value: &[u8],
) -> Result<(), Fail> {
    let (path, content) = parted(value);
    if path.is_empty() || path.len() > 4096 {
        return Err(unknown(value));
    }
    given(push_smudge(alloc, out, path, name, can_delay, content))
}

/// Appends a line or a payload that fits a packet.
fn push_short(alloc: Global, out: &mut Vec<u8>, is_line: bool, text: &[u8]) -> Result<(), Fail> {
    if text.is_empty() || text.len() > 65_515 {
        return Err(unknown(text));
    }
    given(match is_line {
        true => push_line(alloc, out, text),
        false => push_payload(alloc, out, text),
    })
}

/// Appends the packets of a content.
fn push_long(alloc: Global, out: &mut Vec<u8>, text: &[u8]) -> Result<(), Fail> {
    let content = unfolded(alloc, text)?;
    given(push_content(alloc, out, &content))
}

/// What a step does.
#[derive(Clone, Copy)]
enum Step {
    Hello,
    Caps,
    List,
    Flush,
    Line,
    Payload,
    Content,
    Smudge,
    SmudgeLate,
    Nulls,
}

const STEPS: Words<Step> = &[
    (b"hello", Step::Hello),
    (b"caps", Step::Caps),
    (b"list", Step::List),
    (b"flush", Step::Flush),
    (b"line", Step::Line),
    (b"payload", Step::Payload),
    (b"content", Step::Content),
    (b"smudge", Step::Smudge),
    (b"smudge-late", Step::SmudgeLate),
    (b"nulls", Step::Nulls),
];

/// Takes a step.
fn take_step(
    alloc: Global,
    out: &mut Vec<u8>,
    name: &mut ObjectId,
    cell: &Cell,
) -> Result<(), Fail> {
    let value = cell.value.as_slice();
    match found(STEPS, &cell.key)? {
        Step::Hello => given(push_hello(alloc, out)),
        Step::Caps => given(push_caps(alloc, out)),
        Step::List => given(push_list(alloc, out)),
        Step::Flush => given(push_flush(alloc, out)),
        Step::Line => push_short(alloc, out, true, value),
        Step::Payload => push_short(alloc, out, false, value),
        Step::Content => push_long(alloc, out, value),
        Step::Smudge => push_request(alloc, out, name, false, value),
        Step::SmudgeLate => push_request(alloc, out, name, true, value),
        Step::Nulls => {
            *name = [0; 20];
            Ok(())
        }
    }
}

/// All that the steps write.
pub fn written(alloc: Global, cells: &[Cell]) -> Result<Vec<u8>, Fail> {
    let mut out = Vec::new(alloc);
    let mut name = LETTERS;
    for cell in cells {
        take_step(alloc, &mut out, &mut name, cell)?;
    }
    Ok(folded(alloc, &out)?)
}
