ghost use Rattle.std.specs.Prelude.{◌≡◌, Ok, Some};
ghost use Rattle.tree_encoding.specs.Named.{encoding_name, encoding_named};
ghost use Rattle.tree_encoding.specs.Encode.{OneContent};

use thiserror::Error;

/// An encoding of the worktree other than UTF-8 (gitattributes(5), "working-tree-encoding").
#[derive(Clone, Copy, Debug, PartialEq, Eq)]
pub enum Encoding {
    /// `UTF-16`: a mark and little-endian units. The byte order and the mark are this project's choice.
    Utf16,
    Utf16Le,
    Utf16Be,
    /// A mark and little-endian units.
    Utf16LeBom,
    /// `UTF-32`: a mark and little-endian units. The byte order and the mark are this project's choice.
    Utf32,
    Utf32Le,
    Utf32Be,
}

/// A state that names none of the encodings.
#[derive(Error, Clone, Copy, Debug)]
#[error("the encoding isn't known")]
pub struct UnknownEncoding;

impl Encoding {
    /// The encoding's name, as an attribute gives it.
    pub fn name(self) -> &'static str
        ensures { result.now ≡ encoding_name self }
    {
        match self {
            Encoding::Utf16 => "UTF-16",
            Encoding::Utf16Le => "UTF-16LE",
            Encoding::Utf16Be => "UTF-16BE",
            Encoding::Utf16LeBom => "UTF-16LE-BOM",
            Encoding::Utf32 => "UTF-32",
            Encoding::Utf32Le => "UTF-32LE",
            Encoding::Utf32Be => "UTF-32BE",
        }
    }
}

/// The law that the name of an encoding names it. It does nothing.
pub fn name_names_encoding(encoding: Encoding)
    ensures { encoding_named (encoding_name encoding) ≡ Ok (Some encoding) }
{}

/// The law that two contents which an encoding makes equal are equal, for each of the eight encodings. It does nothing.
pub fn one_content()
    ensures { OneContent }
{}
