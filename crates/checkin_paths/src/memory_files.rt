//! Files in memory.
ghost use Rattle.std.specs.Prelude.{◌≡◌, [], Some, false, ◌<◌};
ghost use Rattle.std.specs.List.{list_any};
ghost use Rattle.std.specs.Str.{bytes_eq};
ghost use Rattle.edge_kit.specs.Told.{Takes};
ghost use Rattle.checkin_paths.specs.Memory.{first_file, file_told};
ghost use Rattle.checkin_paths.specs.Outside.{no_files_failed};

use crate::files::Files;
use byte_path::Bytes;
use edge_kit::{TakeFault, TreeFile};
use std::alloc::Global;

/// The files of a worktree in memory, which tell all that they hold.
#[derive(Drop)]
pub struct MemoryFiles {
    alloc: Global,
    files: Vec<TreeFile>,
    fails: Vec<Bytes>,
    faults: u64,
    failed: Vec<Bytes>,
}

fn fails_at(fails: &[Bytes], path: &[u8]) -> bool
    ensures { result ≡ list_any (λ f. bytes_eq f path.now) fails.now }
{
    fails.iter().any(|fail| fail.as_slice() == path)
}

/// A copy of the first file with that path, within a limit.
fn first_file(
    alloc: Global,
    files: &[TreeFile],
    path: &[u8],
    limit: u64,
) -> Result<Option<Vec<u8>>, TakeFault>
    ensures { Takes (first_file files.now path.now) limit result }
{
    let mut rest = files;
    'files: while let Some((file, behind)) = rest.split_first() {
        if file.path.as_slice() == path {
            let bytes = file.bytes.as_slice();
            if bytes.len() as u64 > limit {
                return Err(TakeFault::TooLong);
            }
            return Ok(Some(Vec::from_slice(alloc, bytes)?));
        }
        rest = behind;
    }
    Ok(None)
}

impl MemoryFiles {
    /// These files. Of two with one path the first counts. At the paths of `fails` each call fails.
    pub fn new(alloc: Global, files: Vec<TreeFile>, fails: Vec<Bytes>) -> MemoryFiles
        ensures told { ⟦<MemoryFiles as Files>⟧.told result ≡ file_told files.items fails.items }
        ensures seen { ⟦<MemoryFiles as Files>⟧.seen result ≡ no_files_failed }
    {
        MemoryFiles {
            alloc,
            files,
            fails,
            faults: 0,
            failed: Vec::new(alloc),
        }
    }
}

impl Files for MemoryFiles {
    ghost told = { λ f. file_told f.files.items f.fails.items };

    // it has no kinds
    ghost seen = { λ f. record { faults = f.faults; failed = f.failed.items; by_kind = false; of_other_kind = [] } };

    fn take(&mut self, path: &str, limit: u64) -> Result<Option<Vec<u8>>, TakeFault> {
        let name = Bytes::copy_of(self.alloc, path.as_bytes())?;
        self.failed.reserve(1)?;
        if fails_at(&self.fails, path.as_bytes()) {
            let _ = self.failed.push(name);
            self.faults = self.faults.saturating_add(1);
            return Err(TakeFault::Failed);
        }
        match first_file(self.alloc, &self.files, path.as_bytes(), limit) {
            Ok(found) => Ok(found),
            Err(TakeFault::TooLong) => Err(TakeFault::TooLong),
            // a copy ends early for want of memory alone
            Err(TakeFault::Failed | TakeFault::NoMemory) => Err(TakeFault::NoMemory),
        }
    }

    fn failed_by_kind(&self) -> bool {
        false
    }
}
