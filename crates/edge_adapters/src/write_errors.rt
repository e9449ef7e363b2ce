//! Why files of a worktree couldn't be written.
use byte_path::Bytes;
use std::alloc::{AllocError, Global};
use std::io;

/// How many different errors are kept.
const MOST: usize = 8;

/// An error of the system, and at how many paths it came.
#[derive(Drop)]
pub struct ErrorCount {
    pub error: io::Error,
    pub paths: u64,
    /// The first of these paths, if there was memory to keep it.
    pub first: Option<Bytes>,
}

/// The first error of each path that had one. Of many different errors only the first are kept.
#[derive(Drop)]
pub struct WriteErrors {
    alloc: Global,
    counts: Vec<ErrorCount>,
    others: u64,
}

fn is_same(one: &io::Error, other: &io::Error) -> bool {
    one.raw_os_error() == other.raw_os_error() && one.kind() == other.kind()
}

impl WriteErrors {
    pub fn new(alloc: Global) -> WriteErrors {
        WriteErrors {
            alloc,
            counts: Vec::new(alloc),
            others: 0,
        }
    }

    /// Takes the room for all errors that are kept.
    pub fn reserve(&mut self) -> Result<(), AllocError> {
        self.counts.reserve(MOST)
    }

    /// Counts the error of a path. After `reserve` it needs memory for the first path of an error alone, and does
    /// without.
    pub fn add(&mut self, error: &io::Error, path: &[u8]) {
        for count in self.counts.iter_mut() {
            if is_same(&count.error, error) {
                count.paths = count.paths.saturating_add(1);
                return;
            }
        }
        if !self.keep(error, path) {
            self.others = self.others.saturating_add(1);
        }
    }

    /// Keeps the error of its first path, if there is room.
    fn keep(&mut self, error: &io::Error, path: &[u8]) -> bool {
        if self.counts.len() >= MOST {
            return false;
        }
        let count = ErrorCount {
            error: *error,
            paths: 1,
            first: Bytes::copy_of(self.alloc, path).ok(),
        };
        self.counts.push(count).is_ok()
    }

    /// The errors that are kept, in the order in which they first came.
    pub fn counts(&self) -> &[ErrorCount] {
        self.counts.as_slice()
    }

    /// At how many paths another error came.
    pub fn others(&self) -> u64 {
        self.others
    }
}
