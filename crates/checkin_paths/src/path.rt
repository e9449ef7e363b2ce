//! What is done with a path on its way back.
use byte_path::{Bytes, ObjectId};
use eol_convert::Action;
use tree_encoding::Encoding;

/// The filter driver that cleans the content of a path.
#[derive(Clone, Copy)]
pub struct PathDriver {
    /// Its place among the drivers of the configuration.
    pub place: usize,
    /// Whether a path fails that it refuses. If not, the content stays as it is.
    pub required: bool,
}

/// How a file's content is stored.
#[derive(Clone, Copy)]
pub struct Storing {
    /// The driver that cleans it first, if one does.
    pub driver: Option<PathDriver>,
    /// Whether the keyword `$Id$` is undone.
    pub ident: bool,
    pub action: Action,
    /// The encoding, or `None` for UTF-8.
    pub encoding: Option<Encoding>,
}

/// What is done with a path.
#[derive(Clone, Copy)]
pub enum Way {
    /// Its entry stays: a checkout skips the path, or its name isn't text.
    Kept,
    /// Its encoding is unknown.
    UnknownEncoding,
    /// Its filter driver is required, and has no way to clean a content.
    NoProcess,
    /// Its file is stored, as it is for a link.
    Stored(Storing),
}

/// A path of the index: its object is that of its entry with the lowest stage.
#[derive(Drop)]
pub struct CheckinPath {
    pub path: Bytes,
    pub object: ObjectId,
    pub way: Way,
}
