//! A folder for what git is to write.
use crate::keeper::Keeper;
use git_answers::GitFault;
use std::alloc::{AllocError, Global};
use std::env::temp_dir;
use std::fs::{DirBuilder, remove_dir_all};
use std::io::ErrorKind;
use std::os::unix::fs::DirBuilderExt;
use std::{io, process};

/// What a shell does with a folder: it makes it, says so by a byte, waits for the end of its input and removes the
/// folder. That end comes however this program ends. Signals that a terminal sends to both don't end the shell.
const KEEPING: &str =
    "trap '' HUP INT QUIT PIPE TERM; mkdir -m 700 -- \"$1\" || exit 1; echo; read -r _; \
                       rm -rf -- \"$1\" || { sleep 1; rm -rf -- \"$1\"; }";

/// A folder that this user alone can read. It is removed when it is dropped, and when a signal ends the program.
pub struct Scratch {
    rt: HostRuntime,
    // none where there is no shell: a signal then leaves the folder
    keeper: Option<Keeper>,
    pub path: String,
}

/// The variable that names the folder for temporary files.
const VARIABLE: &str = "TMPDIR";

/// The folder for temporary files where no variable names one.
const OTHERWISE: &str = "/tmp";

/// How many names are tried.
const TRIES: u32 = 1000;

fn make_private(rt: HostRuntime, path: &str) -> io::Result<()> {
    let mut builder = DirBuilder::new();
    builder.mode(0o700);
    builder.create(&rt, path)
}

/// The folder for temporary files: `TMPDIR`, or else `/tmp`, also where the variable is empty.
fn base_of(rt: HostRuntime, alloc: Global) -> io::Result<String> {
    let base = format!(in alloc; "{}", temp_dir(&rt)?.display())?;
    if base.is_empty() {
        return Ok(String::from_str(alloc, OTHERWISE)?);
    }
    Ok(base)
}

/// Why a folder for temporary files couldn't be made, by the system's error.
pub fn scratch_fault(rt: HostRuntime, alloc: Global, error: io::Error) -> GitFault {
    match base_of(rt, alloc) {
        Ok(base) => GitFault::of_scratch(base, error),
        Err(error) => match String::from_str(alloc, VARIABLE) {
            Ok(name) => GitFault::of_scratch(name, error),
            Err(_) => GitFault::NoMemory,
        },
    }
}

impl Scratch {
    /// Makes a folder in the folder for temporary files, under a name that was free.
    pub fn make(rt: HostRuntime, alloc: Global) -> io::Result<Scratch> {
        let base = base_of(rt, alloc)?;
        let id = process::id(rt.process());
        for number in 0..TRIES {
            let path = format!(in alloc; "{base}/siuwbren-{id}-{number}")?;
            match Scratch::at(rt, alloc, path) {
                Err(error) if error.kind() == ErrorKind::AlreadyExists => {}
                made => return made,
            }
        }
        Err(io::Error::from(ErrorKind::AlreadyExists))
    }

    /// Makes the folder at a path. Where no shell does it, it tells why.
    fn at(rt: HostRuntime, alloc: Global, path: String) -> io::Result<Scratch> {
        if let Ok(Some(keeper)) = Keeper::start(rt, alloc, KEEPING, path.as_str()) {
            let keeper = Some(keeper);
            return Ok(Scratch { rt, keeper, path });
        }
        make_private(rt, path.as_str())?;
        Ok(Scratch {
            rt,
            keeper: None,
            path,
        })
    }

    /// The path of what has this name in the folder.
    pub fn path_of(&self, alloc: Global, name: &str) -> Result<String, AllocError> {
        format!(in alloc; "{}/{name}", self.path)
    }
}

impl Drop for Scratch {
    fn drop(self) {
        let Scratch { rt, keeper, path } = self;
        match keeper {
            Some(keeper) => keeper.end(),
            None => {
                let _ = remove_dir_all(&rt, path.as_str());
            }
        }
    }
}
