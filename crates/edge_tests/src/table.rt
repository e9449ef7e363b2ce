//! Tables with one literal a row.
//!
//! The check goes through each literal of a program, and most of all through nested ones, so a row
//! is one literal.
use edge_kit::{Blob, Repo, TakeFault};
use std::process::Abort;

/// What stands before this character, and what stands behind it.
pub fn cut(text: &str, at: char) -> (&str, &str) {
    match text.split_once(at) {
        Some(parts) => parts,
        None => (text, ""),
    }
}

/// The row is so. This is the one place that shows a row.
pub fn is_right(rt: &impl Abort, is_so: bool, row: &[u8]) {
    assert!(rt; is_so, "{row:?}");
}

/// What a letter stands for: `i` the index, `c` the configuration, `a` the attributes, `u` the user's, and
/// else the object of this name.
pub fn read_part<R: Repo>(
    repo: &mut R,
    part: u8,
    name: &[u8; 20],
    limit: u64,
) -> Result<Option<Vec<u8>>, TakeFault> {
    match part {
        b'i' => repo.index_bytes(limit),
        b'c' => repo.config_bytes(limit),
        b'a' => repo.info_attributes(limit),
        b'u' => repo.base_attributes(limit),
        _ => {
            let mut blob = repo.blob(name)?;
            let taken = blob.take_all(limit);
            repo.take_back(blob);
            taken
        }
    }
}

/// Whether a read gives `=` and these bytes, `.` nothing, `l` more than its limit, or `x` a
/// failure.
pub fn is_read(taken: Result<Option<Vec<u8>>, TakeFault>, want: &[u8]) -> bool {
    match (taken, want) {
        (Ok(Some(bytes)), [b'=', wanted @ ..]) => bytes.as_slice() == wanted,
        (Ok(None), [b'.']) => true,
        (Err(TakeFault::TooLong), [b'l']) => true,
        (Err(TakeFault::Failed), [b'x']) => true,
        _ => false,
    }
}
