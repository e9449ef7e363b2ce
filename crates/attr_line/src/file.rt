//! The rows of an attribute file, and how many lines of it were skipped.
use crate::state::AttrState;
use byte_path::{Bytes, Items};

/// An attribute and what a line says of it.
#[derive(Drop)]
pub struct Pair {
    pub name: Bytes,
    pub state: AttrState,
}

/// A line that counts. If it has no pairs, a rule says nothing, but a macro is still a macro.
#[derive(Drop)]
pub enum AttrRow {
    /// The pairs of the paths that match a pattern.
    Rule { pattern: Bytes, pairs: Items<Pair> },
    /// What a macro stands for if it is set.
    Macro { name: Bytes, pairs: Items<Pair> },
}

/// How many lines were skipped, by what is wrong with them. Each count stops at 4,294,967,295.
#[derive(Clone, Copy)]
pub struct Skipped {
    /// Lines of 2,048 bytes or more without their end, comments included.
    pub long: u32,
    /// Patterns that begin with `!`.
    pub negative: u32,
    /// Bad names of attributes or macros.
    pub name: u32,
    /// Macros in a file where none is allowed.
    pub place: u32,
}

/// An attribute file: its rows in the order of its lines.
#[derive(Drop)]
pub struct AttrFile {
    pub rows: Items<AttrRow>,
    pub skipped: Skipped,
}
