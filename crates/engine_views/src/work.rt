//! Checkouts of many paths, and what each actor did.
//!
//! The text is the report, the status, a line of the content and the path of each file, and how many paths the gate saw
//! closed. Lines that differ in their last number alone, which grows by one, are one line. These cells, beside those of
//! a case, ask for more lines, in their order:
//!
//! - `below`: how often the actors below this number claimed and closed a path, and how much else happened;
//! - `closer`: the actor that closed this path, and `hands`: how it changed hands;
//! - `steps`: which paths are claimed (`+`) and closed (`-`), in order;
//! - `notes`: the notes of this driver's talk of these paths;
//! - `met`: whether the two actors met;
//! - `back`: how many blobs and drivers were given back.
use crate::left::Left;
use crate::talks::push_steps;
use byte_path::read_decimal;
use case_kit::{Cell, Words, meant, number_of, parted, push_all};
use checkout_core::Event;
use edge_kit::{Mark, TreeFile};
use std::alloc::{AllocError, Global};
use std::string::String;
use std::test::Fail;

/// What stands before the last five bytes, and the number that these are.
fn numbered(line: &[u8]) -> Option<(&[u8], u64)> {
    let at = line.len().checked_sub(5)?;
    let (head, digits) = line.split_at(at);
    Some((head, read_decimal(digits, 99_999)?))
}

/// Whether a line differs from the one before in its last number alone, which is the next one.
fn follows(before: &[u8], line: &[u8]) -> bool {
    match (numbered(before), numbered(line)) {
        (Some((head, number)), Some((next_head, next))) => {
            head == next_head && number.wrapping_add(1) == next
        }
        _ => false,
    }
}

/// Adds the line of all from the first to the last.
fn push_run(text: &mut Vec<u8>, first: &[u8], last: &[u8]) -> Result<(), AllocError> {
    text.extend_from_slice(first)?;
    if first != last {
        let (_, digits) = last.split_at(last.len().saturating_sub(5));
        push_all(text, &[b" to ", digits])?;
    }
    text.push(b'\n')?;
    Ok(())
}

/// Adds the lines, of which those that follow one another are one.
fn push_folded(text: &mut Vec<u8>, lines: &[Vec<u8>]) -> Result<(), AllocError> {
    let Some(begin) = lines.first() else {
        return Ok(());
    };
    let mut first = begin.as_slice();
    let mut last = first;
    for line in lines.iter().skip(1) {
        if !follows(last, line) {
            push_run(text, first, last)?;
            first = line.as_slice();
        }
        last = line.as_slice();
    }
    push_run(text, first, last)
}

/// A line of a file: its content, in which `$` stands for a line feed, and its path.
fn file_line(alloc: Global, file: &TreeFile) -> Result<Vec<u8>, AllocError> {
    let content = file.bytes.as_slice();
    let mut line = Vec::new(alloc);
    if content.len() > 1000 && content.iter().all(|byte| *byte == b'a') {
        let said = format!(in alloc; "{} letters a", content.len())?;
        line.extend_from_slice(said.as_bytes())?;
    } else {
        for byte in content {
            line.push(if *byte == b'\n' { b'$' } else { *byte })?;
        }
    }
    push_all(&mut line, &[b" ", file.path.as_slice()])?;
    if file.mark != Mark::Plain {
        line.extend_from_slice(b" marked")?;
    }
    Ok(line)
}

/// The lines of a text that ends in a line feed.
fn lines_of(alloc: Global, text: &[u8]) -> Result<Vec<Vec<u8>>, AllocError> {
    let mut lines = Vec::new(alloc);
    for line in text.split(|byte| *byte == b'\n') {
        lines.push(Vec::from_slice(alloc, line)?)?;
    }
    // what stands behind the last line feed
    let _ = lines.pop();
    Ok(lines)
}

/// A line for each file.
fn file_lines(alloc: Global, files: &[TreeFile]) -> Result<Vec<Vec<u8>>, AllocError> {
    let mut lines = Vec::new(alloc);
    for file in files {
        lines.push(file_line(alloc, file)?)?;
    }
    Ok(lines)
}

/// Appends the status, and how many paths the gate saw closed.
fn push_end(seen: &mut String, left: &Left<'_>) -> Result<(), Fail> {
    writeln!(
        seen,
        "status {} closed {}",
        left.status,
        left.gate.closings()
    )?;
    Ok(())
}

/// Appends the report, the files, the status, and how many paths the gate saw closed.
pub fn push_work(alloc: Global, seen: &mut String, left: &Left<'_>) -> Result<(), Fail> {
    let mut text = Vec::new(alloc);
    push_folded(&mut text, &lines_of(alloc, left.output)?)?;
    push_folded(&mut text, &file_lines(alloc, left.files)?)?;
    seen.push_str(str::from_utf8(&text)?)?;
    push_end(seen, left)
}

/// Appends how many files there are, the status, and how many paths the gate saw closed.
pub fn push_counted(seen: &mut String, left: &Left<'_>) -> Result<(), Fail> {
    writeln!(seen, "files {}", left.files.len())?;
    push_end(seen, left)
}

/// How often the actors below this number claimed and closed a path, and how much else happened.
fn push_counts(seen: &mut String, history: &[Event], actors: u32) -> Result<(), Fail> {
    let mut claims = 0u32;
    let mut closes = 0u32;
    let mut others = 0u32;
    for event in history {
        match event {
            Event::Claim { actor, .. } if *actor < actors => claims = claims.wrapping_add(1),
            Event::Close { actor, .. } if *actor < actors => closes = closes.wrapping_add(1),
            _ => others = others.wrapping_add(1),
        }
    }
    writeln!(seen, "{claims} claims {closes} closes {others} others")?;
    Ok(())
}

/// Adds the actor that closed this path.
fn push_closer(seen: &mut String, history: &[Event], path: u32) -> Result<(), Fail> {
    for event in history {
        match event {
            Event::Close {
                path: of,
                actor,
                ..
            } if *of == path => writeln!(seen, "path {path} by {actor}")?,
            _ => {}
        }
    }
    Ok(())
}

/// Adds which paths are claimed and closed, in order.
fn push_all_steps(seen: &mut String, history: &[Event]) -> Result<(), Fail> {
    for event in history {
        match event {
            Event::Claim { path, .. } => write!(seen, "+{path} ")?,
            Event::Close { path, .. } => write!(seen, "-{path} ")?,
            _ => write!(seen, "? ")?,
        }
    }
    seen.push_str("\n")?;
    Ok(())
}

/// Whether the event is a note of this driver's talk of these paths.
fn is_of_talk(event: Event, of: u32, paths: &[u32]) -> bool {
    match event {
        Event::Claim { .. } | Event::Close { .. } | Event::HandBack { .. } => false,
        Event::Opened { driver, .. } | Event::Listed { driver, .. } | Event::Shut { driver } => {
            driver == of
        }
        Event::OpenFailed { path, .. }
        | Event::Answered { path, .. }
        | Event::Named { path }
        | Event::Redone { path, .. } => paths.contains(&path),
    }
}

/// Appends the numbers between which spaces stand.
fn push_numbers(numbers: &mut Vec<u32>, text: &[u8]) -> Result<(), Fail> {
    for word in text.split(|byte| *byte == b' ') {
        numbers.push(number_of(word)?)?;
    }
    Ok(())
}

/// Adds the notes of this driver's talk of these paths, a line for each.
fn push_notes_of(
    seen: &mut String,
    history: &[Event],
    driver: u32,
    paths: &[u32],
) -> Result<(), Fail> {
    for event in history {
        if is_of_talk(*event, driver, paths) {
            writeln!(seen, "{event:?}")?;
        }
    }
    Ok(())
}

/// Adds the notes of a driver's talk, a line for each. The text has its number and those of its paths.
fn push_notes(
    alloc: Global,
    seen: &mut String,
    history: &[Event],
    text: &[u8],
) -> Result<(), Fail> {
    let (driver, rest) = parted(text);
    let driver = number_of(driver)?;
    let mut paths = Vec::new(alloc);
    push_numbers(&mut paths, rest)?;
    push_notes_of(seen, history, driver, &paths)
}

/// Adds whether the two actors met.
fn push_met(seen: &mut String, is_met: bool) -> Result<(), Fail> {
    writeln!(seen, "met {is_met}")?;
    Ok(())
}

/// Adds how many blobs and drivers were given back.
fn push_back(seen: &mut String, blobs: u32, drivers: usize) -> Result<(), Fail> {
    writeln!(seen, "back {blobs} blobs {drivers} drivers")?;
    Ok(())
}

/// What a cell asks for.
#[derive(Clone, Copy)]
enum Word {
    Below,
    Closer,
    Hands,
    Steps,
    Notes,
    Met,
    Back,
}

const WORDS: Words<Word> = &[
    (b"below", Word::Below),
    (b"closer", Word::Closer),
    (b"hands", Word::Hands),
    (b"steps", Word::Steps),
    (b"notes", Word::Notes),
    (b"met", Word::Met),
    (b"back", Word::Back),
];

/// Adds the lines that a cell asks for.
pub fn push_asked(
    alloc: Global,
    seen: &mut String,
    left: &Left<'_>,
    cell: &Cell,
) -> Result<(), Fail> {
    let value = cell.value.as_slice();
    match meant(WORDS, &cell.key) {
        Some(Word::Below) => push_counts(seen, left.history, number_of(value)?),
        Some(Word::Closer) => push_closer(seen, left.history, number_of(value)?),
        Some(Word::Hands) => push_steps(seen, left.history, number_of(value)?),
        Some(Word::Steps) => push_all_steps(seen, left.history),
        Some(Word::Notes) => push_notes(alloc, seen, left.history, value),
        Some(Word::Met) => push_met(seen, left.gate.is_met()),
        Some(Word::Back) => push_back(seen, left.blobs, left.drivers.len()),
        None => Ok(()),
    }
}
