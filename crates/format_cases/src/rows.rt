//! Rows of a report or a plan in each form.
use case_kit::{Words, found, given, number_of, parted, unknown};
use reports::{Cell, CellValue, Count, PathRow, ReportForm, Row, spelled};
use std::alloc::Global;
use std::test::Fail;

const FORMS: Words<ReportForm> = &[
    (b"text", ReportForm::Text),
    (b"nul", ReportForm::Nul),
    (b"json", ReportForm::Json),
    (b"failures", ReportForm::Failures),
];

/// What a cell holds.
#[derive(Clone, Copy)]
enum Held {
    Word,
    Absent,
    Set,
    Unset,
    Name,
}

const HELD: Words<Held> = &[
    (b"word", Held::Word),
    (b"absent", Held::Absent),
    (b"set", Held::Set),
    (b"unset", Held::Unset),
    (b"name", Held::Name),
];

/// What kind of row the first line tells of.
#[derive(Clone, Copy)]
enum Kind {
    Path,
    Failed,
    Total,
    Number,
    Refusal,
}

const KINDS: Words<Kind> = &[
    (b"path", Kind::Path),
    (b"failed", Kind::Failed),
    (b"total", Kind::Total),
    (b"number", Kind::Number),
    (b"refusal", Kind::Refusal),
];

fn word_of(bytes: &[u8]) -> Result<&str, Fail> {
    str::from_utf8(bytes).map_err(|_| unknown(bytes))
}

/// The cell of a line: its key, what it holds, and its text.
fn cell_of(line: &[u8]) -> Result<Cell<'_>, Fail> {
    let (key, rest) = parted(line);
    let (held, text) = parted(rest);
    let value = match found(HELD, held)? {
        Held::Word => CellValue::Word(word_of(text)?),
        Held::Absent => CellValue::Absent,
        Held::Set => CellValue::Flag {
            word: word_of(text)?,
            is_set: true,
        },
        Held::Unset => CellValue::Flag {
            word: word_of(text)?,
            is_set: false,
        },
        Held::Name => CellValue::Name(text),
    };
    Ok(Cell {
        key: word_of(key)?,
        value,
    })
}

/// The number of a line, with its key.
fn count_of(line: &[u8]) -> Result<Count<'_>, Fail> {
    let (key, number) = parted(line);
    Ok(Count {
        key: word_of(key)?,
        number: u64::from(number_of(number)?),
    })
}

/// The row of a path with these lines of cells.
fn path_row(
    alloc: Global,
    form: ReportForm,
    path: &[u8],
    has_failed: bool,
    lines: &[u8],
) -> Result<Vec<u8>, Fail> {
    let mut cells = Vec::new(alloc);
    for line in lines.split(|byte| *byte == b'\n') {
        cells.push(cell_of(line)?)?;
    }
    let row = Row::Path(PathRow {
        cells: &cells,
        path,
        has_failed,
    });
    given(spelled(alloc, form, &row))
}

/// The row of a word with these lines of numbers.
fn total_row(alloc: Global, form: ReportForm, word: &[u8], lines: &[u8]) -> Result<Vec<u8>, Fail> {
    let mut counts = Vec::new(alloc);
    for line in lines.split(|byte| *byte == b'\n') {
        counts.push(count_of(line)?)?;
    }
    let row = Row::Total {
        word: word_of(word)?,
        counts: &counts,
    };
    given(spelled(alloc, form, &row))
}

/// What stands before the first LF, and what stands behind it.
fn first_line(text: &[u8]) -> (&[u8], &[u8]) {
    match text.iter().position(|byte| *byte == b'\n') {
        Some(at) => {
            let (line, rest) = text.split_at(at);
            (line, rest.strip_prefix(b"\n").unwrap_or(rest))
        }
        None => (text, &[]),
    }
}

/// A row in a form. Its first line is its kind and its text; a line follows for each of its cells or numbers.
pub fn formed(alloc: Global, form: &[u8], row: &[u8]) -> Result<Vec<u8>, Fail> {
    let form = found(FORMS, form)?;
    let (head, lines) = first_line(row);
    let (kind, text) = parted(head);
    match found(KINDS, kind)? {
        Kind::Path => path_row(alloc, form, text, false, lines),
        Kind::Failed => path_row(alloc, form, text, true, lines),
        Kind::Total => total_row(alloc, form, text, lines),
        Kind::Number => {
            let number = u64::from(number_of(lines)?);
            let word = word_of(text)?;
            given(spelled(alloc, form, &Row::Number { word, number }))
        }
        Kind::Refusal => given(spelled(alloc, form, &Row::Refusal(text))),
    }
}
