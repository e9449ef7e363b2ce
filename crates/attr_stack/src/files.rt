//! The attribute files of a repository, by folder.
ghost use Rattle.std.specs.Prelude.{◌≡◌};
ghost use Rattle.std.specs.Option.{option_map};
ghost use Rattle.attr_stack.specs.Pairs.{file_of};

use attr_line::{AttrContent, AttrFile};
use byte_path::{Bytes, Items};

/// The attribute file of a folder.
#[derive(Drop)]
pub struct FileAt {
    /// The folder from the top, without a `/` at its end. The top folder is the empty text.
    pub folder: Bytes,
    pub file: AttrContent,
}

/// The attribute files that stand outside the index (gitattributes(5)).
#[derive(Drop)]
pub struct OuterFiles {
    /// `info/attributes`, which decides before the files of the index.
    pub info: AttrFile,
    /// The system's and the user's files as one, which decides after them.
    pub base: AttrFile,
}

/// The attribute files of a repository.
#[derive(Drop)]
pub struct AttrFiles {
    /// `info/attributes`, which reaches every path before the others.
    pub info: AttrFile,
    /// The system's and the user's files (`core.attributesFile`) as one, which reach every path after the others.
    pub base: AttrFile,
    /// The files of the folders, in any order, one for a folder.
    pub files: Items<FileAt>,
}

/// The attribute file of a folder.
pub fn file_of<'a>(files: &'a [FileAt], folder: &[u8]) -> Option<&'a AttrContent>
    ensures { option_map (λ x. x.now) result ≡ file_of files.now folder.now }
{
    let at = files.iter().find(|at| at.folder.as_slice() == folder)?;
    Some(&at.file)
}
