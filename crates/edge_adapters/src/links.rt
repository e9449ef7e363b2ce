//! Links by their texts, which may have any bytes but NUL: `std` makes and reads those alone that are UTF-8.
use std::alloc::Global;
use std::io;
use std::io::{Error, ErrorKind};

/// How many bytes are asked for: one more than the text of a link has at most (PATH_MAX with its end).
const ROOM: usize = 4096;

/// Makes a link with this text where nothing is. What it leads to isn't looked at.
pub fn make_link(text: &[u8], path: &str) -> io::Result<()> {
    if os::symlink(text, path.as_bytes()) < 0 {
        return Err(Error::from_raw_os_error(os::errno()));
    }
    Ok(())
}

/// The text of the link at the path.
pub fn link_text(alloc: Global, path: &str) -> io::Result<Vec<u8>> {
    let mut text = vec![in alloc; 0u8; ROOM]?;
    let count = os::readlink(path.as_bytes(), text.as_mut_slice());
    if count < 0 {
        return Err(Error::from_raw_os_error(os::errno()));
    }
    let len = count as usize;
    if len >= ROOM {
        return Err(Error::from(ErrorKind::InvalidFilename));
    }
    text.truncate(len);
    Ok(text)
}
