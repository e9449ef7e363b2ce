//! The file for the journal of a checkout.
ghost use Rattle.checkout_engine.specs.Checkout.{HasWholeRun};

use checkout_engine::Checkout;
use edge_adapters::remove_own;
use journal_run::print_journal;
use std::alloc::AllocError;
use std::fs::{File, OpenOptions};
use std::io;
use std::io::{ErrorKind, Write};

/// A new file for the journal of a checkout. It is made before the checkout, so that a place where none can be is told
/// in time. When it is dropped without its whole journal, it is removed.
pub struct JournalFile {
    rt: HostRuntime,
    /// What standard error says first of it.
    title: String,
    path: String,
    file: File,
    is_whole: bool,
}

fn new_file(rt: HostRuntime, path: &str) -> io::Result<File> {
    OpenOptions::new()
        .write(true)
        .create_new(true)
        .open(&rt, path)
}

/// Says why no file can be made, unless memory ran out.
fn refuse(
    rt: HostRuntime,
    title: &str,
    error: &io::Error,
) -> Result<Option<JournalFile>, AllocError> {
    match error.kind() {
        ErrorKind::OutOfMemory => return Err(AllocError),
        ErrorKind::AlreadyExists => {
            let _ = eprintln!(rt; "{title}: the file exists");
        }
        _ => {
            let _ = eprintln!(rt; "{title}: {error}");
        }
    }
    Ok(None)
}

impl JournalFile {
    /// Makes the file where nothing is. If none can be there, standard error says why.
    pub fn make(
        rt: HostRuntime,
        title: String,
        path: String,
    ) -> Result<Option<JournalFile>, AllocError> {
        match new_file(rt, path.as_str()) {
            Ok(file) => Ok(Some(JournalFile {
                rt,
                title,
                path,
                file,
                is_whole: false,
            })),
            Err(error) => refuse(rt, title.as_str(), &error),
        }
    }

    /// Writes the whole journal. If it can't be written, standard error says why.
    fn write(&mut self, journal: &[u8]) {
        match self.file.write_all(journal) {
            Ok(()) => self.is_whole = true,
            Err(error) => {
                let title = &self.title;
                let _ = eprintln!(self.rt; "{title}: {error}");
            }
        }
    }

    /// Writes the journal of a checkout that is done. If it can't be written, standard error says why.
    pub fn end(mut self, end: &Checkout)
        requires { HasWholeRun end.now }
    {
        let Checkout::Done(run) = end else {
            return;
        };
        match print_journal(self.rt.alloc(), run) {
            Ok(journal) => self.write(&journal),
            Err(AllocError) => {
                let title = &self.title;
                let _ = eprintln!(self.rt; "{title}: out of memory");
            }
        }
    }
}

impl Drop for JournalFile {
    fn drop(self) {
        let JournalFile {
            rt,
            title: _,
            path,
            file,
            is_whole,
        } = self;
        if !is_whole {
            let _ = remove_own(rt, &file, path.as_str());
        }
    }
}
