//! Exchanges with a filter driver in memory.
mod driver;
mod page;

use driver::{Driver, hello_of, reply_of};
use filter_proto::{Begun, Session};
use filter_words::Reply;
use page::Page;
use std::alloc::{AllocError, Global};
use std::io;
use std::io::Print;
use std::rt::Clock;
use std::time::Instant;

/// How many of `count` exchanges gave a content, and how many bytes these contents had in all.
fn converse(
    alloc: Global,
    driver: Driver,
    content: &[u8],
    count: u32,
) -> Result<(u32, u64), AllocError> {
    let Begun::Live(mut session) = Session::begin(alloc, driver) else {
        return Err(AllocError);
    };
    let came = ask_for(alloc, &mut session, content, count);
    let _ = session.shut();
    came
}

/// How many of `count` exchanges of a session gave a content, and how many bytes these contents had in all.
fn ask_for(
    alloc: Global,
    session: &mut Session<Driver>,
    content: &[u8],
    count: u32,
) -> Result<(u32, u64), AllocError> {
    let (mut good, mut bytes) = (0, 0);
    for _ in 0..count {
        let mut page = Page::with_room(alloc, content.len())?;
        if exchange(session, content, &mut page) && good < u32::MAX {
            good += 1;
        }
        bytes = u64::saturating_add(bytes, page.content.len() as u64);
    }
    Ok((good, bytes))
}

/// Asks for a path, if that is allowed, and returns whether a content came.
fn exchange(session: &mut Session<Driver>, content: &[u8], page: &mut Page) -> bool {
    if !session.live() {
        return false;
    }
    if !session.caps().smudge {
        return false;
    }
    if !page.is_fresh() {
        return false;
    }
    matches!(
        session.ask(b"path", &[7; 20], content, page).reply,
        Reply::Content
    )
}

/// Copies a content `count` times, and returns how many bytes the copies had.
fn copy(alloc: Global, content: &[u8], count: u32) -> Result<u64, AllocError> {
    let mut bytes = 0;
    for _ in 0..count {
        let copy = Vec::from_slice(alloc, content)?;
        bytes = u64::saturating_add(bytes, copy.len() as u64);
    }
    Ok(bytes)
}

/// Prints what `count` exchanges gave, as a line, and their times if asked for.
pub fn tell<R: Clock + Print + AllocGlobal>(
    rt: &R,
    size: u32,
    count: u32,
    timed: bool,
) -> io::Result<()> {
    let alloc = rt.alloc();
    let content = vec![in alloc; b'c'; size as usize]?;
    let driver = Driver::new(hello_of(alloc)?, reply_of(alloc, content.as_slice())?);
    let begun = Instant::now(rt)?;
    let (good, bytes) = converse(alloc, driver, content.as_slice(), count)?;
    let talk = begun.elapsed(rt)?.as_micros();
    let begun = Instant::now(rt)?;
    let copied = copy(alloc, content.as_slice(), count)?;
    let copy = begun.elapsed(rt)?.as_micros();
    println!(rt; "{count} exchanges of {size} bytes: {good} contents, {bytes} bytes of {copied}")?;
    if timed {
        println!(rt; "{talk} microseconds, a copy {copy}")?;
    }
    Ok(())
}

/// Tells of three replies, and of a thousand small exchanges.
pub fn tell_small<R: Clock + Print + AllocGlobal>(rt: &R) -> io::Result<()> {
    for (size, count) in [(0, 1), (65_516, 1), (1_000_000, 1), (1000, 1000)] {
        tell(rt, size, count, false)?;
    }
    Ok(())
}
