//! What a session that cleans makes of the answers that its driver may give.
//!
//! The kind `clean` has the cells of a driver as the kind `talk`, and then `ask`, each with a content of `big.psd`.
//! What comes of it has a line. The end is as that of a talk. A driver that doesn't announce `clean` is `no clean`.
use crate::pipe::Pipe;
use crate::runs::{folded, unfolded};
use crate::talks::{broken, pipe_of, push_end};
use case_kit::{Cell, push_all, shown, unknown};
use filter_proto::{CleanBegun, CleanSession, Cleaned};
use std::alloc::{AllocError, Global};
use std::test::Fail;

/// The line of what came of a content.
fn line_of(alloc: Global, cleaned: Cleaned) -> Result<Vec<u8>, AllocError> {
    match cleaned {
        Cleaned::Content(bytes) => {
            let mut line = Vec::from_slice(alloc, b"Content ")?;
            line.extend_from_slice(&folded(alloc, bytes.as_slice())?)?;
            Ok(line)
        }
        Cleaned::Error => Vec::from_slice(alloc, b"Error"),
        Cleaned::ErrorAfter => Vec::from_slice(alloc, b"ErrorAfter"),
        Cleaned::Abort => Vec::from_slice(alloc, b"Abort"),
        Cleaned::Broken(cause) => shown(alloc, cause),
        Cleaned::NoMemory => Vec::from_slice(alloc, b"NoMemory"),
    }
}

/// Takes a step.
fn take_step(
    alloc: Global,
    came: &mut Vec<u8>,
    session: &mut CleanSession<Pipe>,
    cell: &Cell,
) -> Result<(), Fail> {
    let key = cell.key.as_slice();
    if key == b"then".as_slice() {
        return Ok(());
    }
    if key != b"ask".as_slice() || !session.live() {
        return Err(unknown(key));
    }
    let content = unfolded(alloc, &cell.value)?;
    let line = line_of(alloc, session.ask(b"big.psd", &content))?;
    push_all(came, &[&line, b"\n"])?;
    Ok(())
}

/// Takes each step behind this many cells.
fn take_steps(
    alloc: Global,
    came: &mut Vec<u8>,
    session: &mut CleanSession<Pipe>,
    cells: &[Cell],
    count: usize,
) -> Result<(), Fail> {
    for cell in cells.iter().skip(count) {
        take_step(alloc, came, session, cell)?;
    }
    Ok(())
}

/// Takes the steps behind this many cells with a session that has begun, and ends it.
fn take_session(
    alloc: Global,
    came: &mut Vec<u8>,
    mut session: CleanSession<Pipe>,
    cells: &[Cell],
    count: usize,
) -> Result<(), Fail> {
    take_steps(alloc, came, &mut session, cells, count)?;
    let live = session.live();
    push_end(alloc, came, live, &session.shut(), cells)
}

/// What comes of a driver that doesn't announce `clean`.
fn uncleaned(alloc: Global, pipe: &Pipe) -> Result<Vec<u8>, AllocError> {
    let mut came = Vec::from_slice(alloc, b"no clean ")?;
    came.extend_from_slice(pipe.end_word())?;
    Ok(came)
}

/// What comes of a case of the kind `clean`.
pub fn cleaned(alloc: Global, cells: &[Cell]) -> Result<Vec<u8>, Fail> {
    let (pipe, count) = pipe_of(alloc, cells)?;
    match CleanSession::begin(alloc, pipe) {
        CleanBegun::Live(session) => {
            let mut came = Vec::new(alloc);
            take_session(alloc, &mut came, session, cells, count)?;
            Ok(came)
        }
        CleanBegun::NoClean(pipe) => Ok(uncleaned(alloc, &pipe)?),
        CleanBegun::Broken(pipe, cause) => Ok(broken(alloc, cause, &pipe)?),
        CleanBegun::NoMemory(_) => Err(Fail::from(AllocError)),
    }
}
