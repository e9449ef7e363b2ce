//! A file, read whole and within a limit.
ghost use Rattle.edge_kit.specs.Told.{Untold, Takes};

use edge_kit::TakeFault;
use std::alloc::Global;
use std::fs::{File, metadata};
use std::io;
use std::io::{ErrorKind, Read};

fn fault_of(error: &io::Error) -> TakeFault {
    match error.kind() {
        ErrorKind::OutOfMemory => TakeFault::NoMemory,
        _ => TakeFault::Failed,
    }
}

/// Opens the regular file at a path, and returns it with its length. Anything else, such as a FIFO or a device, is a
/// fault and isn't opened, since opening or reading it may wait forever. If something is put in the file's place
/// between the look and the opening, that is opened.
fn open_regular(rt: HostRuntime, path: &str) -> io::Result<(File, u64)> {
    let found = metadata(&rt, path)?;
    if !found.is_file() {
        return Err(io::Error::from(ErrorKind::InvalidInput));
    }
    Ok((File::open(&rt, path)?, found.len()))
}

/// The whole file at a path, or `None` if nothing is there. Anything else that keeps it from being read is a fault. A
/// file that is longer than the limit isn't read.
pub fn read_whole(
    rt: HostRuntime,
    alloc: Global,
    path: &str,
    limit: u64,
) -> Result<Option<Vec<u8>>, TakeFault>
    ensures { Takes Untold limit result }
{
    let (file, len) = match open_regular(rt, path) {
        Ok(opened) => opened,
        Err(error) if error.kind() == ErrorKind::NotFound => return Ok(None),
        Err(error) => return Err(fault_of(&error)),
    };
    if len > limit {
        return Err(TakeFault::TooLong);
    }
    // One byte more than the file, so that its end is seen without growing.
    let room = len.saturating_add(1);
    let mut bytes = Vec::with_capacity(alloc, room as usize)?;
    if let Err(error) = file.take(limit.saturating_add(1)).read_to_end(&mut bytes) {
        return Err(fault_of(&error));
    }
    if bytes.len() as u64 > limit {
        return Err(TakeFault::TooLong);
    }
    Ok(Some(bytes))
}
