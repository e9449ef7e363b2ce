//! The files of packs, of which few are open at once.
use std::alloc::{AllocError, Global};
use std::fs::{File, read};
use std::io;
use std::sync::{Arc, Mutex};

/// How many files are open at most where the system tells no limit.
const USUAL: usize = 64;

/// The fewest files that may be open at once, a pack and its index.
const FEWEST: usize = 2;

/// The most files that are open at once, however many the system allows.
const MOST: usize = 1024;

/// A file that is open.
#[derive(Drop)]
struct OpenFile {
    path: String,
    file: Arc<File, Global>,
}

/// The open files of packs, for all threads that read objects of a repository. Those that were used last stay open, at
/// most a quarter as many as the system lets this program open.
#[derive(Drop)]
pub struct OpenFiles {
    rt: HostRuntime,
    most: usize,
    // the one that was used last is first
    open: Mutex<Vec<OpenFile>>,
}

/// How many files the system lets this program open, if it tells (proc_pid_limits(5)).
fn limit_of(rt: HostRuntime) -> Option<usize> {
    let limits = String::from_utf8(read(&rt, "/proc/self/limits").ok()?).ok()?;
    let line = limits
        .as_str()
        .lines()
        .find(|line| line.starts_with("Max open files"))?;
    line.split_whitespace().nth(3)?.parse::<usize>().ok()
}

/// Takes out the file at this path, if it is open.
fn taken(open: &mut Vec<OpenFile>, path: &str) -> Option<OpenFile> {
    let place = open.iter().position(|it| it.path.as_str() == path)?;
    Some(open.remove(place))
}

impl OpenFiles {
    /// None is open.
    pub fn new(rt: HostRuntime) -> OpenFiles {
        let most = match limit_of(rt) {
            Some(limit) => (limit / 4).clamp(FEWEST, MOST),
            None => USUAL,
        };
        OpenFiles {
            rt,
            most,
            open: Mutex::new(Vec::new(rt.alloc())),
        }
    }

    /// Opens a file that isn't shared.
    fn opened(&self, path: &str) -> io::Result<Arc<File, Global>> {
        let file = File::open(&self.rt, path)?;
        Ok(Arc::new(self.rt.alloc(), file)?)
    }

    /// Puts a file in front, and lets go of the one that wasn't used for longest if too many are open.
    fn put(
        &self,
        open: &mut Vec<OpenFile>,
        path: &str,
        file: &Arc<File, Global>,
    ) -> Result<(), AllocError> {
        let path = String::from_str(self.rt.alloc(), path)?;
        let file = Arc::try_clone(file)?;
        if open.len() >= self.most {
            open.pop();
        }
        open.insert(0, OpenFile { path, file })?;
        Ok(())
    }

    /// The open file at a path. While another thread is at the list, the file is opened for this one alone, since none
    /// waits for another.
    pub fn file_at(&self, path: &str) -> io::Result<Arc<File, Global>> {
        let Some(mut open) = self.open.try_lock() else {
            return self.opened(path);
        };
        if let Some(used) = taken(&mut open, path) {
            let file = Arc::try_clone(&used.file)?;
            open.insert(0, used)?;
            return Ok(file);
        }
        let file = self.opened(path)?;
        self.put(&mut open, path, &file)?;
        Ok(file)
    }
}
