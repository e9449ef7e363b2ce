//! Rows as values.
/// What a cell of a path's row holds.
#[derive(Clone, Copy)]
pub enum CellValue<'a> {
    Word(&'a str),
    /// No word: `-` on a line, `null` in an object.
    Absent,
    /// Whether something holds: its word or `-` on a line, `true` or `false` in an object.
    Flag { word: &'a str, is_set: bool },
    /// A name of any bytes, which a line quotes as a path.
    Name(&'a [u8]),
}

/// A cell of a path's row, with its key in an object.
#[derive(Clone, Copy)]
pub struct Cell<'a> {
    pub key: &'a str,
    pub value: CellValue<'a>,
}

/// A number of a total, with its key in an object.
#[derive(Clone, Copy)]
pub struct Count<'a> {
    pub key: &'a str,
    pub number: u64,
}

/// The row of a path.
#[derive(Clone, Copy)]
pub struct PathRow<'a> {
    pub cells: &'a [Cell<'a>],
    pub path: &'a [u8],
    /// Whether the row tells of a failure.
    pub has_failed: bool,
}

/// A row of a report or a plan.
#[derive(Clone, Copy)]
pub enum Row<'a> {
    Path(PathRow<'a>),
    /// A word, and the numbers that belong to it.
    Total {
        word: &'a str,
        counts: &'a [Count<'a>],
    },
    /// A word and its number.
    Number {
        word: &'a str,
        number: u64,
    },
    /// The words that say why a repository is refused.
    Refusal(&'a [u8]),
}
