//! What came of a line.
use crate::file::AttrRow;

/// Why a line is skipped.
#[derive(Clone, Copy)]
pub enum LineFault {
    /// It has 2,048 bytes or more.
    Long,
    /// Its pattern begins with `!`.
    Negative,
    /// A name is bad.
    Name,
    /// A macro, in a file where none is allowed.
    Place,
}

/// What a line says.
#[derive(Drop)]
pub enum Outcome {
    /// Nothing: it is empty or a comment.
    Nothing,
    Row(AttrRow),
    Skip(LineFault),
}
