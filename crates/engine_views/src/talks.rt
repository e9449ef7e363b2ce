//! Checkouts with one filter driver in memory: what becomes of the paths, the notes of the talk, how each path changed
//! hands, and what each start was sent. All that is the text of a case, the same whatever the number of workers.
use crate::left::{Left, push_content, push_run};
use checkout_core::Event;
use edge_kit::{DriverSeen, SessionSeen, StartOutcome};
use std::string::String;
use std::test::Fail;

/// Adds what the driver's talk has, if the event is a note of it.
fn push_note(seen: &mut String, event: Event) -> Result<(), Fail> {
    match event {
        Event::Claim { .. } | Event::Close { .. } | Event::HandBack { .. } => {}
        Event::Opened { .. } => seen.push_str("open\n")?,
        Event::OpenFailed { path, cause } => writeln!(seen, "{path} {cause:?}")?,
        Event::Answered { path, reply } => writeln!(seen, "{path} {reply:?}")?,
        Event::Named { path } => writeln!(seen, "{path} named")?,
        Event::Listed { reply, .. } => writeln!(seen, "list {reply:?}")?,
        Event::Redone { path, reply } => writeln!(seen, "{path} again {reply:?}")?,
        Event::Shut { .. } => seen.push_str("shut\n")?,
    }
    Ok(())
}

/// How a path changes hands.
fn step_of(event: Event, path: u32) -> &'static str {
    match event {
        Event::HandBack { path: of } if of == path => " back",
        Event::Claim { path: of, .. } if of == path => " claim",
        Event::Close { path: of, .. } if of == path => " close",
        _ => "",
    }
}

/// Adds a line of how the path changed hands.
pub fn push_steps(seen: &mut String, history: &[Event], path: u32) -> Result<(), Fail> {
    write!(seen, "path {path}")?;
    for event in history {
        seen.push_str(step_of(*event, path))?;
    }
    seen.push_str("\n")?;
    Ok(())
}

/// Adds what a session was sent, and whether it was shut.
fn push_session(seen: &mut String, session: &SessionSeen) -> Result<(), Fail> {
    seen.push_str(if session.shut { "shut " } else { "open " })?;
    push_content(seen, session.sent.as_slice())?;
    seen.push_str("\n")?;
    Ok(())
}

/// Adds a driver that was started, and its starts.
fn push_driver(seen: &mut String, driver: &DriverSeen) -> Result<(), Fail> {
    seen.push_str("driver\n")?;
    for start in driver.starts.as_slice() {
        match &start.outcome {
            StartOutcome::Failed => seen.push_str("fails\n")?,
            StartOutcome::Session(session) => push_session(seen, session)?,
        }
    }
    Ok(())
}

/// Appends the output, the status and the files, the notes of the talk, how each path changed hands, and what each
/// start was sent.
pub fn push_talks(seen: &mut String, left: &Left<'_>) -> Result<(), Fail> {
    push_run(seen, left)?;
    for event in left.history {
        push_note(seen, *event)?;
    }
    for path in 0..left.paths {
        push_steps(seen, left.history, path)?;
    }
    for driver in left.drivers {
        push_driver(seen, driver)?;
    }
    Ok(())
}
