//! What standard error says, beside the report, of files that weren't written or read, of objects and an index that
//! weren't kept, and of drivers that don't speak the protocol.
use byte_path::quote_path;
use edge_adapters::{ErrorCount, ReturnedDriver, WriteErrors};
use std::alloc::{AllocError, Global};
use std::io;

/// The system's words for an error, without its number.
fn words_of(alloc: Global, error: &io::Error) -> Result<String, AllocError> {
    let text = format!(in alloc; "{error}")?;
    match text.as_str().split_once(" (os error ") {
        Some((words, _)) => String::from_str(alloc, words),
        None => text.clone(),
    }
}

/// What a count of paths is of.
fn unit(paths: u64) -> &'static str {
    if paths == 1 { "path" } else { "paths" }
}

fn shown(alloc: Global, path: &[u8]) -> Result<String, AllocError> {
    match String::from_utf8(quote_path(alloc, path)?) {
        Ok(text) => Ok(text),
        Err(_) => Ok(String::new(alloc)),
    }
}

/// Says of an error how many paths had it, and which was the first.
fn show_error(rt: HostRuntime, count: &ErrorCount) -> Result<(), AllocError> {
    let words = words_of(rt.alloc(), &count.error)?;
    let (paths, unit) = (count.paths, unit(count.paths));
    match &count.first {
        Some(first) => {
            let first = shown(rt.alloc(), first.as_slice())?;
            let _ = eprintln!(rt; "{paths} {unit}: {words} (the first: {first})");
        }
        None => {
            let _ = eprintln!(rt; "{paths} {unit}: {words}");
        }
    }
    Ok(())
}

/// Says why files weren't written or read: each error once, with the number of its paths and the first of them.
pub fn show_errors(rt: HostRuntime, errors: &WriteErrors) {
    for count in errors.counts() {
        let _ = show_error(rt, count);
    }
    let others = errors.others();
    if others > 0 {
        let unit = unit(others);
        let _ = eprintln!(rt; "{others} {unit}: other errors");
    }
}

fn show_fault(rt: HostRuntime, error: &io::Error) -> Result<(), AllocError> {
    let words = words_of(rt.alloc(), error)?;
    let _ = eprintln!(rt; "not kept: {words}");
    Ok(())
}

/// Says why objects and the index of a check-in weren't kept.
pub fn show_unkept(rt: HostRuntime, error: Option<&io::Error>) {
    if let Some(error) = error {
        let _ = show_fault(rt, error);
    }
}

/// Bytes in double quotes, escaped as in the report.
fn in_quotes(alloc: Global, bytes: &[u8]) -> Result<String, AllocError> {
    let text = shown(alloc, bytes)?;
    if text.as_str().starts_with('"') {
        return Ok(text);
    }
    format!(in alloc; "\"{text}\"")
}

/// What stands before the first line end.
fn first_line(bytes: &[u8]) -> &[u8] {
    bytes
        .split(|byte| *byte == b'\n' || *byte == b'\r')
        .next()
        .unwrap_or(bytes)
}

fn show_driver(rt: HostRuntime, driver: &ReturnedDriver) -> Result<(), AllocError> {
    let command = in_quotes(rt.alloc(), driver.command.as_slice())?;
    let wrote = in_quotes(rt.alloc(), first_line(&driver.front))?;
    let _ = eprintln!(rt; "driver {command} wrote {wrote}");
    Ok(())
}

/// Says of each driver that began with no packet what it wrote.
pub fn show_drivers(rt: HostRuntime, drivers: &[ReturnedDriver]) {
    for driver in drivers {
        if !driver.front.is_empty() {
            let _ = show_driver(rt, driver);
        }
    }
}
