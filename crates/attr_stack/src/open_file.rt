//! The attribute files of all folders, opened at once.
ghost use Rattle.std.specs.Prelude.{◌≡◌, IfOk};
ghost use Rattle.std.specs.Option.{option_map};
ghost use Rattle.std.specs.Str.{bytes_eq};
ghost use Rattle.attr_stack.specs.Pairs.{file_of};

use crate::files::FileAt;
use attr_line::AttrFile;
use byte_path::Bytes;
use std::alloc::{AllocError, Global};
use std::marker::Model;

/// The attribute file of a folder with its rows. Contracts see no difference.
#[derive(Drop)]
pub struct OpenFile {
    folder: Bytes,
    file: AttrFile,
}

impl Model for OpenFile {
    ghost use Rattle.attr_stack.specs.declared.files.FileAt.{FileAt};

    ghost Value = { FileAt };

    ghost view = { λ f. record { folder = f.folder; file = f.file } };
}

impl OpenFile {
    fn of(alloc: Global, at: &FileAt) -> Result<OpenFile, AllocError>
        ensures { IfOk result (λ file. file ≡ at.now) }
    {
        let folder = Bytes::copy_of(alloc, at.folder.as_slice())?;
        let file = at.file.open(alloc)?;
        Ok(OpenFile { folder, file })
    }

    fn is_of(&self, folder: &[u8]) -> bool
        ensures { result ≡ bytes_eq self.now.folder folder.now }
    {
        self.folder.as_slice() == folder
    }

    fn file(&self) -> &AttrFile
        ensures { result.now ≡ self.now.file }
    {
        &self.file
    }
}

/// The files of all folders with their rows.
pub fn opened(alloc: Global, files: &[FileAt]) -> Result<Vec<OpenFile>, AllocError>
    ensures { IfOk result (λ copies. copies.items ≡ files.now) }
{
    let mut copies = Vec::with_capacity(alloc, files.len())?;
    for at in files {
        copies.push_reserved(OpenFile::of(alloc, at)?);
    }
    Ok(copies)
}

/// The opened file of a folder.
pub fn open_file_of<'a>(files: &'a [OpenFile], folder: &[u8]) -> Option<&'a AttrFile>
    ensures { option_map (λ x. x.now) result ≡ file_of files.now folder.now }
{
    let at = files.iter().find(|at| at.is_of(folder))?;
    Some(at.file())
}
