//! What a reader gives of packets.
//!
//! A payload is shown between brackets, a flush packet as `~`, a front of which more is needed as `.`, bad digits as
//! `#` and their place, and a bad length as `!`, its place and itself.
//!
//! - `packets`: the cell `bytes`. Any pieces of them have to give the same.
//! - `reader`: the steps `feed` and these bytes, `fill` up to the last byte that a reader holds, `next` packet, which
//!   has to be what a look at it told before, and `skip` a flush packet after a look at it.
use crate::runs::{folded, unfolded};
use case_kit::{Cell, Words, found, given, noted, push_all, unknown};
use pkt_line::{Next, PktFault, PktReader};
use std::alloc::{AllocError, Global};
use std::test::Fail;

/// Appends what a reader gave.
fn push_given(
    alloc: Global,
    text: &mut Vec<u8>,
    given: Result<Next<'_>, PktFault>,
) -> Result<(), AllocError> {
    match given {
        Ok(Next::Payload(payload)) => push_all(text, &[b"[", payload, b"]"]),
        Ok(Next::Flush) => text.extend_from_slice(b"~"),
        Ok(Next::NeedMore) => text.extend_from_slice(b"."),
        Err(PktFault::BadDigits { place }) => {
            text.extend_from_slice(format!(in alloc; "#{place}")?.as_bytes())
        }
        Err(PktFault::BadLength { place, length }) => {
            text.extend_from_slice(format!(in alloc; "!{place},{length}")?.as_bytes())
        }
    }
}

/// Appends each packet that the reader can give after it took so many bytes.
fn drain(
    alloc: Global,
    reader: &mut PktReader,
    count: usize,
    text: &mut Vec<u8>,
) -> Result<(), AllocError> {
    for _ in 0..count {
        if reader.peek() == Ok(Next::NeedMore) {
            break;
        }
        push_given(alloc, text, reader.next())?;
    }
    Ok(())
}

/// Appends what the reader gives of the bytes in pieces of this size.
fn push_pieces(
    alloc: Global,
    reader: &mut PktReader,
    bytes: &[u8],
    size: usize,
    text: &mut Vec<u8>,
) -> Result<(), AllocError> {
    for piece in bytes.chunks(size.max(1)) {
        push_fed(reader, text, piece)?;
        drain(alloc, reader, piece.len(), text)?;
    }
    Ok(())
}

/// What comes of the bytes in pieces of this size.
fn given_in_pieces(alloc: Global, bytes: &[u8], size: usize) -> Result<Vec<u8>, AllocError> {
    let mut reader = PktReader::reserve(alloc)?;
    let mut text = Vec::new(alloc);
    push_pieces(alloc, &mut reader, bytes, size, &mut text)?;
    Ok(text)
}

/// Whether other pieces give this too.
fn is_anyhow(alloc: Global, bytes: &[u8], whole: &[u8]) -> Result<bool, AllocError> {
    let mut is_same = true;
    for size in [1, 2, 3, 1000] {
        let given = given_in_pieces(alloc, bytes, size)?;
        is_same = is_same && given.as_slice() == whole;
    }
    Ok(is_same)
}

/// What comes of the bytes, with a note if other pieces give something else.
fn given_anyhow(alloc: Global, bytes: &[u8]) -> Result<Vec<u8>, AllocError> {
    let whole = given_in_pieces(alloc, bytes, 65_520)?;
    let is_same = is_anyhow(alloc, bytes, &whole)?;
    noted(
        folded(alloc, &whole)?,
        is_same,
        b"other pieces give other packets",
    )
}

/// What comes of a case of the kind `packets`.
pub fn read_anyhow(alloc: Global, cells: &[Cell]) -> Result<Vec<u8>, Fail> {
    let [bytes] = cells else {
        return Err(unknown(b"packets"));
    };
    let bytes = unfolded(alloc, &bytes.value)?;
    Ok(given_anyhow(alloc, &bytes)?)
}

/// Fills the reader, and returns whether it takes all that it has room for and no more.
fn fills(alloc: Global, reader: &mut PktReader) -> Result<bool, AllocError> {
    let longest = vec![in alloc; b'x'; 65_516]?;
    let room = reader.room();
    let taken = reader.feed(&longest);
    let more = reader.feed(b"y");
    Ok(taken == room && more == 0)
}

/// What a reader gave.
fn given_of(alloc: Global, given: Result<Next<'_>, PktFault>) -> Result<Vec<u8>, AllocError> {
    let mut text = Vec::new(alloc);
    push_given(alloc, &mut text, given)?;
    Ok(text)
}

/// Appends the next packet.
fn push_next(alloc: Global, reader: &mut PktReader, text: &mut Vec<u8>) -> Result<(), AllocError> {
    let seen = given_of(alloc, reader.peek())?;
    let given = given_of(alloc, reader.next())?;
    let is_told = seen.as_slice() == given.as_slice();
    let given = noted(given, is_told, b"another one was told")?;
    text.extend_from_slice(&given)
}

/// Drops a flush packet, if one is at the front.
fn skip_flush(reader: &mut PktReader) {
    if let Ok(Next::Flush) = reader.peek() {
        reader.skip(4);
    }
}

/// Appends what a look at the front tells, and drops a flush packet that is there.
fn push_skipped(
    alloc: Global,
    reader: &mut PktReader,
    text: &mut Vec<u8>,
) -> Result<(), AllocError> {
    push_given(alloc, text, reader.peek())?;
    skip_flush(reader);
    Ok(())
}

/// Appends a note, if something isn't so.
fn push_unless(text: &mut Vec<u8>, is_so: bool, note: &[u8]) -> Result<(), AllocError> {
    if is_so {
        return Ok(());
    }
    text.extend_from_slice(note)
}

/// Fills the reader, and appends a note if it isn't full then.
fn push_filled(
    alloc: Global,
    reader: &mut PktReader,
    text: &mut Vec<u8>,
) -> Result<(), AllocError> {
    let is_full = fills(alloc, reader)?;
    push_unless(text, is_full, b" not full ")
}

/// Gives the reader bytes, and appends a note if it doesn't take them all.
fn push_fed(reader: &mut PktReader, text: &mut Vec<u8>, bytes: &[u8]) -> Result<(), AllocError> {
    let is_whole = reader.feed(bytes) == bytes.len();
    push_unless(text, is_whole, b" not taken whole ")
}

/// What a step does.
#[derive(Clone, Copy)]
enum Step {
    Feed,
    Fill,
    Next,
    Skip,
}

const STEPS: Words<Step> = &[
    (b"feed", Step::Feed),
    (b"fill", Step::Fill),
    (b"next", Step::Next),
    (b"skip", Step::Skip),
];

/// Takes a step of a case of the kind `reader`.
fn take_step(
    alloc: Global,
    reader: &mut PktReader,
    text: &mut Vec<u8>,
    cell: &Cell,
) -> Result<(), Fail> {
    given(match found(STEPS, &cell.key)? {
        Step::Feed => push_fed(reader, text, &cell.value),
        Step::Fill => push_filled(alloc, reader, text),
        Step::Next => push_next(alloc, reader, text),
        Step::Skip => push_skipped(alloc, reader, text),
    })
}

/// All that the steps give.
fn given_by_steps(alloc: Global, cells: &[Cell]) -> Result<Vec<u8>, Fail> {
    let mut reader = PktReader::reserve(alloc)?;
    let mut text = Vec::new(alloc);
    take_steps(alloc, &mut reader, &mut text, cells)?;
    Ok(text)
}

/// Takes each step of a case of the kind `reader`.
fn take_steps(
    alloc: Global,
    reader: &mut PktReader,
    text: &mut Vec<u8>,
    cells: &[Cell],
) -> Result<(), Fail> {
    for cell in cells {
        take_step(alloc, reader, text, cell)?;
    }
    Ok(())
}

/// What comes of a case of the kind `reader`.
pub fn read_by_steps(alloc: Global, cells: &[Cell]) -> Result<Vec<u8>, Fail> {
    let text = given_by_steps(alloc, cells)?;
    Ok(folded(alloc, &text)?)
}
