//! The paths of a check-in that failed, by its report.
use byte_path::{Bytes, QuoteFault, unquote};
use edge_kit::{SendFault, Sink};
use std::alloc::{AllocError, Global};

/// A sink for the report of a check-in, which keeps the paths that failed, in their order.
#[derive(Drop)]
pub struct FailureSink<O: Sink + Drop> {
    alloc: Global,
    out: O,
    pub failed: Vec<Bytes>,
}

/// The path that a line says has failed, as it is shown.
fn shown_in(line: &[u8]) -> Option<&[u8]> {
    let rest = line.strip_prefix(b"failed ".as_slice())?;
    let end = rest.iter().position(|byte| *byte == b' ')?;
    let (_, behind) = rest.split_at_checked(end)?;
    behind.strip_prefix(b" ".as_slice())
}

/// A path by how a report shows it, if a report does so.
fn path_of(alloc: Global, shown: &[u8]) -> Result<Option<Bytes>, AllocError> {
    if shown.first() != Some(&b'"') {
        return Ok(Some(Bytes::copy_of(alloc, shown)?));
    }
    match unquote(alloc, shown) {
        Ok((path, _)) => Ok(Some(path)),
        Err(QuoteFault::Unclosed | QuoteFault::BadEscape) => Ok(None),
        Err(QuoteFault::NoMemory) => Err(AllocError),
    }
}

/// Appends the path that a line says has failed.
fn push_failed(alloc: Global, failed: &mut Vec<Bytes>, line: &[u8]) -> Result<(), AllocError> {
    let Some(shown) = shown_in(line) else {
        return Ok(());
    };
    if let Some(path) = path_of(alloc, shown)? {
        failed.push(path)?;
    }
    Ok(())
}

/// Appends the paths that these lines say have failed.
fn push_failures(alloc: Global, failed: &mut Vec<Bytes>, lines: &[u8]) -> Result<(), AllocError> {
    for line in lines.split(|byte| *byte == b'\n') {
        push_failed(alloc, failed, line)?;
    }
    Ok(())
}

impl<O: Sink + Drop> FailureSink<O> {
    /// A sink that hands the report on to `out`.
    pub fn new(alloc: Global, out: O) -> FailureSink<O> {
        FailureSink {
            alloc,
            out,
            failed: Vec::new(alloc),
        }
    }
}

impl<O: Sink + Drop> Sink for FailureSink<O> {
    ghost seen = { λ s. O.seen s.out };

    fn write(&mut self, piece: &[u8]) -> Result<(), SendFault> {
        push_failures(self.alloc, &mut self.failed, piece)?;
        self.out.write(piece)
    }
}
