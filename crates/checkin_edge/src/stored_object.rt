//! Whether an object's file has the object.
use crate::folder_keep::ObjectForm;
use edge_adapters::read_whole;
use edge_kit::TakeFault;
use inflate::{InflateFault, inflate};
use std::fs::symlink_metadata;
use std::io;
use std::io::ErrorKind;

/// How many bytes a file may have beside twice those of its object. A longer one isn't read.
const MOST_BESIDE: u64 = 1024;

/// Whether a file is at the path. A link is none.
fn is_file(rt: HostRuntime, path: &str) -> io::Result<bool> {
    match symlink_metadata(&rt, path) {
        Ok(found) => Ok(found.is_file()),
        Err(error) if error.kind() == ErrorKind::NotFound => Ok(false),
        Err(error) => Err(error),
    }
}

/// The bytes of a file, or nothing where it can't be read or is too long for an object of this length.
fn file_bytes(rt: HostRuntime, path: &str, len: usize) -> io::Result<Vec<u8>> {
    let limit = (len as u64).saturating_mul(2).saturating_add(MOST_BESIDE);
    match read_whole(rt, rt.alloc(), path, limit) {
        Ok(Some(bytes)) => Ok(bytes),
        Ok(None) | Err(TakeFault::Failed | TakeFault::TooLong) => Ok(Vec::new(rt.alloc())),
        Err(TakeFault::NoMemory) => Err(io::Error::from(ErrorKind::OutOfMemory)),
    }
}

/// Whether the bytes are one zlib stream of the object and nothing else.
fn is_stream_of(rt: HostRuntime, stream: &[u8], raw: &[u8]) -> io::Result<bool> {
    let mut content = Vec::new(rt.alloc());
    match inflate(rt.alloc(), stream, &mut content, raw.len()) {
        Ok(used) => Ok(used == stream.len() && content.as_slice() == raw),
        Err(InflateFault::NoMemory) => Err(io::Error::from(ErrorKind::OutOfMemory)),
        Err(_) => Ok(false),
    }
}

/// Whether the file at the path has the object with these bytes, and no other byte.
pub fn has_object(rt: HostRuntime, form: ObjectForm, path: &str, raw: &[u8]) -> io::Result<bool> {
    if !is_file(rt, path)? {
        return Ok(false);
    }
    let bytes = file_bytes(rt, path, raw.len())?;
    match form {
        ObjectForm::Plain => Ok(bytes.as_slice() == raw),
        ObjectForm::Zlib => is_stream_of(rt, bytes.as_slice(), raw),
    }
}
