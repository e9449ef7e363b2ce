//! A file that gets its name once it is whole.
use file_stat::{Sharing, share_file, share_folder};
use std::alloc::Global;
use std::fs::{File, OpenOptions, create_dir_all, remove_file, rename};
use std::io::{ErrorKind, Write};
use std::os::unix::fs::OpenOptionsExt;
use std::{io, process};

/// How many names are tried.
const TRIES: u32 = 1000;

/// A new file under a name of its own. It is removed when it is dropped, unless it got another name.
pub struct NewFile {
    rt: HostRuntime,
    path: String,
    file: File,
    is_named: bool,
}

/// Makes a file where nothing is, with this mode less the umask, and never through a link.
fn create_new(rt: HostRuntime, path: &str, mode: u32) -> io::Result<File> {
    OpenOptions::new()
        .write(true)
        .create_new(true)
        .mode(mode)
        .open(&rt, path)
}

impl NewFile {
    /// Makes a file under a name that begins like this and was free.
    fn make(rt: HostRuntime, alloc: Global, begin: &str, mode: u32) -> io::Result<NewFile> {
        let id = process::id(rt.process());
        for number in 0..TRIES {
            let path = format!(in alloc; "{begin}{id}_{number}")?;
            match create_new(rt, path.as_str(), mode) {
                Ok(file) => {
                    return Ok(NewFile {
                        rt,
                        path,
                        file,
                        is_named: false,
                    });
                }
                Err(error) if error.kind() == ErrorKind::AlreadyExists => {}
                Err(error) => return Err(error),
            }
        }
        Err(io::Error::from(ErrorKind::AlreadyExists))
    }

    /// Writes the bytes, and gives the file this name in place of the file that has it. Nothing is synced.
    fn end(mut self, path: &str, bytes: &[u8]) -> io::Result<()> {
        self.file.write_all(bytes)?;
        rename(&self.rt, self.path.as_str(), path)?;
        self.is_named = true;
        Ok(())
    }
}

impl Drop for NewFile {
    fn drop(self) {
        let NewFile {
            rt,
            path,
            file,
            is_named,
        } = self;
        drop(file);
        if !is_named {
            let _ = remove_file(&rt, path.as_str());
        }
    }
}

/// The folder of a new object, and who else may use that and its files.
#[derive(Clone, Copy)]
pub struct ObjectFolder<'a> {
    pub path: &'a str,
    pub sharing: Sharing,
}

/// The permissions of an object's file, before the umask.
const OF_OBJECT: u32 = 0o444;

/// Makes the file of an object in a folder, under a name that begins like this. The folder is made first if it isn't
/// there.
fn make_in(
    rt: HostRuntime,
    alloc: Global,
    folder: ObjectFolder<'_>,
    begin: &str,
) -> io::Result<NewFile> {
    // twice, since `git gc` may remove the folder while it is empty
    for _ in 0..2 {
        match NewFile::make(rt, alloc, begin, OF_OBJECT) {
            Err(error) if error.kind() == ErrorKind::NotFound => {
                create_dir_all(&rt, folder.path)?;
                share_folder(rt, folder.path, folder.sharing)?;
            }
            made => return made,
        }
    }
    NewFile::make(rt, alloc, begin, OF_OBJECT)
}

/// Writes a file that nobody may change into a folder under this name, all or nothing. The name that the file has first
/// is one that `git prune` removes if it is left over.
pub fn write_once(
    rt: HostRuntime,
    alloc: Global,
    folder: ObjectFolder<'_>,
    path: &str,
    bytes: &[u8],
) -> io::Result<()> {
    let within = folder.path;
    let begin = format!(in alloc; "{within}/tmp_obj_")?;
    let made = make_in(rt, alloc, folder, begin.as_str())?;
    share_file(&made.file, folder.sharing)?;
    made.end(path, bytes)
}

/// Writes a file in place of the one at this path, all or nothing.
pub fn replace_file(rt: HostRuntime, alloc: Global, path: &str, bytes: &[u8]) -> io::Result<()> {
    let begin = format!(in alloc; "{path}_")?;
    NewFile::make(rt, alloc, begin.as_str(), 0o666)?.end(path, bytes)
}
