//! What an index is to tell of the files that were read.
use byte_path::Bytes;
use edge_adapters::LeafPlace;
use git_index::Stat;
use std::alloc::{AllocError, Global};

/// What an index is to tell of each file that was read, in turn, if that is asked for.
#[derive(Drop)]
pub struct LookedFiles {
    is_asked: bool,
    stats: Vec<(Bytes, Stat)>,
}

impl LookedFiles {
    /// Nothing yet.
    pub fn new(alloc: Global, is_asked: bool) -> LookedFiles {
        LookedFiles {
            is_asked,
            stats: Vec::new(alloc),
        }
    }

    /// Makes room for one file more.
    pub fn reserve(&mut self) -> Result<(), AllocError> {
        if self.is_asked {
            self.stats.reserve(1)?;
        }
        Ok(())
    }

    /// Adds a file, for which there is room.
    pub fn add(&mut self, place: LeafPlace, stat: Stat) {
        if self.is_asked {
            let _ = self.stats.push((place.into_path(), stat));
        }
    }

    /// The files by their paths.
    pub fn stats(&self) -> &[(Bytes, Stat)] {
        self.stats.as_slice()
    }
}
