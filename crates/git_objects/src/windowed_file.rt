//! Files of which a part is kept in memory.
ghost use Rattle.std.specs.Prelude.{OnOk, vec_len, length, ◌≤◌};

use crate::fault::ObjectsFault;
use crate::placed_file::PlacedFile;
use std::alloc::{AllocError, Global};

/// How many bytes are read at once where those before them weren't wanted.
const SMALL: u64 = 16 << 10;

/// How many bytes are read at once where what is wanted follows what was read.
const LARGE: u64 = 256 << 10;

/// A file that is read by position, and the part of it that was read last.
#[derive(Drop)]
pub struct WindowedFile {
    alloc: Global,
    file: PlacedFile,
    // where the part begins, and how many of the bytes it has
    start: u64,
    count: usize,
    bytes: Vec<u8>,
}

impl WindowedFile {
    /// A file of which nothing was read.
    pub fn new(alloc: Global, file: PlacedFile) -> WindowedFile {
        WindowedFile {
            alloc,
            file,
            start: 0,
            count: 0,
            bytes: Vec::new(alloc),
        }
    }

    /// Whether the part has so many bytes from a place on.
    fn has(&self, place: u64, count: u64) -> bool {
        match place.checked_sub(self.start) {
            Some(before) => before.saturating_add(count) <= self.count as u64,
            None => false,
        }
    }

    /// Whether a place is in the part or right behind it.
    fn follows(&self, place: u64) -> bool {
        match place.checked_sub(self.start) {
            Some(before) => before <= self.count as u64,
            None => false,
        }
    }

    /// Makes room for so many bytes. What a large part took is given back.
    fn make_room(&mut self, size: usize) -> Result<(), AllocError>
        ensures { OnOk result (size ≤ vec_len self.new.bytes) }
    {
        if size as u64 <= LARGE && self.bytes.len() as u64 > LARGE {
            self.bytes = Vec::new(self.alloc);
        }
        if self.bytes.len() < size {
            self.bytes.resize(size, 0)?;
        }
        Ok(())
    }

    /// Reads from a place on: so many bytes at least, or up to the end of the file.
    fn read(&mut self, place: u64, least: u64) -> Result<(), ObjectsFault> {
        let size = if self.follows(place) { LARGE } else { SMALL };
        let size = least.max(size).min(self.file.len.saturating_sub(place)) as usize;
        self.count = 0;
        self.make_room(size)?;
        self.file
            .read_into(&mut self.bytes.as_mut_slice()[..size], place)?;
        self.start = place;
        self.count = size;
        Ok(())
    }

    /// Has the bytes from a place on in the part: so many, or those up to the end of the file if it comes first.
    pub fn cover(&mut self, place: u64, most: u64) -> Result<(), ObjectsFault> {
        let count = most.min(self.file.len.saturating_sub(place));
        if self.has(place, count) {
            return Ok(());
        }
        self.read(place, count)
    }

    /// The bytes of the part from a place on, at most so many.
    pub fn part(&self, place: u64, most: u64) -> &[u8]
        ensures { length result.now ≤ most }
    {
        let Some(before) = place.checked_sub(self.start) else {
            return &[];
        };
        let read = self.bytes.get(..self.count).unwrap_or(&[]);
        let behind = read.get(before as usize..).unwrap_or(&[]);
        let (front, _) = behind.split_at((most as usize).min(behind.len()));
        front
    }

    /// Gives back what the part takes.
    pub fn let_go(&mut self) {
        self.count = 0;
        self.bytes = Vec::new(self.alloc);
    }
}
