//! Files of which some are long, without their bytes.
ghost use Rattle.edge_kit.specs.Told.{Untold};

use byte_path::Bytes;
use checkin_paths::{Files, MemoryFiles};
use edge_kit::TakeFault;

/// Files in memory, and the paths of some with how many bytes they have. One that isn't longer than the limit is taken
/// as the file in memory.
#[derive(Drop)]
pub struct LongFiles {
    pub files: MemoryFiles,
    pub long: Vec<(Bytes, u32)>,
}

impl Files for LongFiles {
    ghost told = { λ f path. Untold };

    ghost seen = { λ f. ⟦<MemoryFiles as Files>⟧.seen f.files };

    fn take(&mut self, path: &str, limit: u64) -> Result<Option<Vec<u8>>, TakeFault> {
        for (long, size) in self.long.as_slice() {
            if long.as_slice() == path.as_bytes() && u64::from(*size) > limit {
                return Err(TakeFault::TooLong);
            }
        }
        self.files.take(path, limit)
    }

    fn failed_by_kind(&self) -> bool {
        self.files.failed_by_kind()
    }
}
