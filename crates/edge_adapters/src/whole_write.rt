//! A piece, written whole.
use edge_kit::SendFault;
use std::io::{ErrorKind, Write};

/// Writes the whole piece. `OutOfMemory` says that nothing was written: after a first part of the piece it is another
/// failure.
pub fn write_whole<W: Write>(out: &mut W, piece: &[u8]) -> Result<(), ErrorKind> {
    let mut rest = piece;
    for _ in 0..u64::MAX {
        if rest.is_empty() {
            return Ok(());
        }
        match out.write(rest) {
            Ok(0) => return Err(ErrorKind::WriteZero),
            Ok(taken) => (_, rest) = rest.split_at(taken),
            Err(error) => match error.kind() {
                ErrorKind::Interrupted => {}
                ErrorKind::OutOfMemory if rest.len() < piece.len() => return Err(ErrorKind::Other),
                kind => return Err(kind),
            },
        }
    }
    Err(ErrorKind::Other)
}

/// How a write that ended like this is told.
pub fn told(kind: ErrorKind) -> SendFault {
    match kind {
        ErrorKind::OutOfMemory => SendFault::NoMemory,
        _ => SendFault::Failed,
    }
}
