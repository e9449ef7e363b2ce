//! Files that are read by position.
ghost use Rattle.std.specs.Prelude.{IfOk, vec_len, length, ◌≡◌, ◌≤◌};

use crate::fault::ObjectsFault;
use crate::open_files::OpenFiles;
use std::alloc::Global;
use std::fs::metadata;
use std::io;
use std::io::ErrorKind;
use std::os::unix::fs::FileExt;
use std::sync::Arc;

/// A regular file that is read by position. It is opened with the first read, and may be closed between two.
#[derive(Drop)]
pub struct PlacedFile {
    alloc: Global,
    files: Arc<OpenFiles, Global>,
    pub path: String,
    pub len: u64,
}

impl PlacedFile {
    /// The regular file at a path. Anything else is a fault and is never opened, since that may wait forever.
    pub fn find(
        rt: HostRuntime,
        files: &Arc<OpenFiles, Global>,
        path: String,
    ) -> io::Result<PlacedFile> {
        let found = metadata(&rt, path.as_str())?;
        if !found.is_file() {
            return Err(io::Error::from(ErrorKind::InvalidInput));
        }
        Ok(PlacedFile {
            alloc: rt.alloc(),
            files: Arc::try_clone(files)?,
            path,
            len: found.len(),
        })
    }

    /// The bytes from a place on: so many, or those up to the end of the file if it comes first.
    pub fn read(&self, place: u64, most: u64) -> Result<Vec<u8>, ObjectsFault>
        ensures { IfOk result (λ bytes. vec_len bytes ≤ most) }
    {
        let count = most.min(self.len.saturating_sub(place));
        let mut bytes = Vec::from_elem(self.alloc, 0u8, count as usize)?;
        self.read_into(bytes.as_mut_slice(), place)?;
        Ok(bytes)
    }

    /// Fills bytes with those from a place on.
    pub fn read_into(&self, bytes: &mut [u8], place: u64) -> Result<(), ObjectsFault>
        ensures { length bytes.new ≡ length bytes.old }
    {
        let file = self.files.file_at(self.path.as_str())?;
        file.read_exact_at(bytes, place)?;
        Ok(())
    }
}
