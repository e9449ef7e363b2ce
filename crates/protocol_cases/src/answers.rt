//! What lines and packets say.
//!
//! - `line`: the cells `before`, which is the status so far or empty, and `text`. Its key and its value come, parted by
//!   `|`, or `!` where it has none, and on the next line the status after it.
//! - `answer`: the cell `to` is what is answered: `path`, `late-path` for one that may wait, `handshake`, or `list`,
//!   while `p1`, `p2` and `p3` are delayed. Then come the packets: `packet`, `flush`, and `longest`, so many packets of
//!   65,516 bytes. What they make of the answer comes.
use case_kit::{Cell, Words, found, given, number_of, push_all, shown, unknown};
use filter_words::{
    AnswerState, HandshakePhase, ListPart, Listing, MOST_ANSWER, ReadPacket, ReplyPhase, Status,
    handshake_after_packet, key_value, list_after_packet, next_status, read_status,
    reply_after_packet, reply_of,
};
use std::alloc::{AllocError, Global};
use std::test::Fail;

/// The word of a status.
fn word_of(status: Option<Status>) -> &'static [u8] {
    match status {
        Some(Status::Success) => b"success",
        Some(Status::Error) => b"error",
        Some(Status::Abort) => b"abort",
        Some(Status::Delayed) => b"delayed",
        Some(Status::Other) => b"other",
        None => b"none",
    }
}

/// The status after a line.
fn status_after(before: &[u8], line: &[u8]) -> Option<Status> {
    if before.is_empty() {
        return next_status(None, line);
    }
    next_status(Some(read_status(before)), line)
}

/// The key and the value of a line, and on the next line the word of a status.
fn told(alloc: Global, line: &[u8], word: &[u8]) -> Result<Vec<u8>, AllocError> {
    match key_value(line) {
        Some((key, value)) => [key, b"|", value, b"\n", word].concat(alloc),
        None => [b"!\n", word].concat(alloc),
    }
}

/// What comes of a case of the kind `line`.
pub fn line_of(alloc: Global, cells: &[Cell]) -> Result<Vec<u8>, Fail> {
    let [before, text] = cells else {
        return Err(unknown(b"line"));
    };
    let word = word_of(status_after(&before.value, &text.value));
    given(told(alloc, &text.value, word))
}

/// What a cell of an answer gives.
#[derive(Clone, Copy)]
enum Part {
    Payload,
    Flush,
    Longest,
}

const PARTS: Words<Part> = &[
    (b"packet", Part::Payload),
    (b"flush", Part::Flush),
    (b"longest", Part::Longest),
];

/// Appends so many of the longest packets.
fn push_longest<'a>(
    packets: &mut Vec<ReadPacket<'a>>,
    count: &[u8],
    longest: &'a [u8],
) -> Result<(), Fail> {
    let len = packets.len().saturating_add(number_of(count)? as usize);
    given(packets.resize(len, ReadPacket::Payload(longest)))
}

/// Appends the packets of a cell.
fn push_part<'a>(
    packets: &mut Vec<ReadPacket<'a>>,
    cell: &'a Cell,
    longest: &'a [u8],
) -> Result<(), Fail> {
    match found(PARTS, &cell.key)? {
        Part::Payload => Ok(packets.push(ReadPacket::Payload(&cell.value))?),
        Part::Flush => Ok(packets.push(ReadPacket::Flush)?),
        Part::Longest => push_longest(packets, &cell.value, longest),
    }
}

/// Appends the packets of the cells.
fn push_parts<'a>(
    packets: &mut Vec<ReadPacket<'a>>,
    cells: &'a [Cell],
    longest: &'a [u8],
) -> Result<(), Fail> {
    for cell in cells {
        push_part(packets, cell, longest)?;
    }
    Ok(())
}

/// What packets make of a reply.
fn reply_to(
    alloc: Global,
    can_delay: bool,
    packets: &[ReadPacket<'_>],
) -> Result<Vec<u8>, AllocError> {
    let (mut room, mut state) = (MOST_ANSWER, AnswerState::On(ReplyPhase::KeyList(None)));
    for packet in packets {
        (room, state) = reply_after_packet(can_delay, room, state, packet);
    }
    match state {
        AnswerState::Late => Vec::from_slice(alloc, b"late"),
        AnswerState::On(ReplyPhase::LastKeyList(None)) => Vec::from_slice(alloc, b"last keys"),
        AnswerState::On(_) => Vec::from_slice(alloc, b"open"),
        ended => shown(alloc, reply_of(ended)),
    }
}

/// What packets make of a handshake's two answers.
fn handshake_of(alloc: Global, packets: &[ReadPacket<'_>]) -> Result<Vec<u8>, AllocError> {
    let (mut room, mut state) = (MOST_ANSWER, AnswerState::On(HandshakePhase::Server));
    for packet in packets {
        (room, state) = handshake_after_packet(room, state, packet);
    }
    match state {
        AnswerState::Done(caps) => shown(alloc, caps),
        AnswerState::Broken(cause) => shown(alloc, cause),
        AnswerState::On(HandshakePhase::EndOfHello) => Vec::from_slice(alloc, b"end of hello"),
        AnswerState::On(_) => Vec::from_slice(alloc, b"open"),
        AnswerState::Late => Vec::from_slice(alloc, b"late"),
    }
}

/// What packets make of the answer to a list request.
fn list_of(alloc: Global, packets: &[ReadPacket<'_>]) -> Result<Vec<u8>, AllocError> {
    let delayed: [&[u8]; 3] = [b"p1", b"p2", b"p3"];
    let mut room = MOST_ANSWER;
    let mut listing = Listing {
        state: AnswerState::On(ListPart::Names),
        names: Vec::new(alloc),
    };
    for packet in packets {
        (room, listing) = list_after_packet(&delayed, room, listing, packet)?;
    }
    if listing.names.len() > 9 {
        return Vec::from_slice(alloc, b"too many names");
    }
    shown(alloc, listing.reply())
}

/// What an answer is to.
#[derive(Clone, Copy)]
enum Asked {
    Path,
    LatePath,
    Handshake,
    List,
}

const ASKED: Words<Asked> = &[
    (b"path", Asked::Path),
    (b"late-path", Asked::LatePath),
    (b"handshake", Asked::Handshake),
    (b"list", Asked::List),
];

/// What packets make of the answer to this.
fn answer_to(alloc: Global, to: Asked, packets: &[ReadPacket<'_>]) -> Result<Vec<u8>, AllocError> {
    match to {
        Asked::Path => reply_to(alloc, false, packets),
        Asked::LatePath => reply_to(alloc, true, packets),
        Asked::Handshake => handshake_of(alloc, packets),
        Asked::List => list_of(alloc, packets),
    }
}

/// What the packets of the cells make of the answer to this.
fn answer_by(alloc: Global, to: Asked, cells: &[Cell], longest: &[u8]) -> Result<Vec<u8>, Fail> {
    let mut packets = Vec::new(alloc);
    push_parts(&mut packets, cells, longest)?;
    given(answer_to(alloc, to, &packets))
}

/// What comes of a case of the kind `answer`.
pub fn answered(alloc: Global, cells: &[Cell]) -> Result<Vec<u8>, Fail> {
    let [to, rest @ ..] = cells else {
        return Err(unknown(b"answer"));
    };
    let to = found(ASKED, &to.value)?;
    let longest = vec![in alloc; b'c'; 65_516]?;
    answer_by(alloc, to, rest, &longest)
}
