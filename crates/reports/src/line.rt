//! Rows as lines, in memory.
ghost use Rattle.std.specs.Prelude.{◌≡◌, ◌∷◌, ◌++◌, [], IfOk, OnOk, map};
ghost use Rattle.std.specs.Fmt.{decimal};
ghost use Rattle.byte_path.specs.Characters.{nul, space, line_feed};
ghost use Rattle.byte_path.specs.Quote.{quoted};
ghost use Rattle.reports.specs.Fields.{shown, field_of, number_of};
ghost use Rattle.reports.specs.Lines.{word_of, front_of, numbers_of, refusal_front};

use crate::row::{Cell, CellValue, Count, PathRow};
use byte_path::quote_path;
use std::alloc::{AllocError, Global};

fn push_quoted(alloc: Global, text: &mut Vec<u8>, name: &[u8]) -> Result<(), AllocError>
    ensures { OnOk result (text.new.items ≡ text.old.items ++ quoted name.now) }
{
    let shown = quote_path(alloc, name)?;
    text.extend_from_slice(&shown)?;
    Ok(())
}

/// Appends what a cell says.
fn push_word(alloc: Global, text: &mut Vec<u8>, value: &CellValue<'_>) -> Result<(), AllocError>
    ensures { OnOk result (text.new.items ≡ text.old.items ++ word_of (shown value.now)) }
{
    match *value {
        CellValue::Word(word) => text.extend_from_slice(word.as_bytes()),
        CellValue::Absent => text.extend_from_slice(b"-"),
        CellValue::Flag { word, is_set: true } => text.extend_from_slice(word.as_bytes()),
        CellValue::Flag { is_set: false, .. } => text.extend_from_slice(b"-"),
        CellValue::Name(name) => push_quoted(alloc, text, name),
    }
}

/// The words of cells, with a space after each.
fn front_of(alloc: Global, cells: &[Cell<'_>]) -> Result<Vec<u8>, AllocError>
    ensures { IfOk result (λ v. v.items ≡ front_of (map field_of cells.now)) }
{
    let mut text = Vec::new(alloc);
    for cell in cells {
        push_word(alloc, &mut text, &cell.value)?;
        text.push(b' ')?;
    }
    Ok(text)
}

/// The line of a path, with the path quoted.
pub fn quoted_line(alloc: Global, row: &PathRow<'_>) -> Result<Vec<u8>, AllocError>
    ensures { IfOk result (λ v. v.items ≡ front_of (map field_of row.now.cells.now) ++ (quoted row.now.path.now ++ line_feed ∷ [])) }
{
    let mut text = front_of(alloc, row.cells)?;
    push_quoted(alloc, &mut text, row.path)?;
    text.push(b'\n')?;
    Ok(text)
}

/// The line of a path that ends in NUL, with the path as it is.
pub fn nul_line(alloc: Global, row: &PathRow<'_>) -> Result<Vec<u8>, AllocError>
    ensures { IfOk result (λ v. v.items ≡ front_of (map field_of row.now.cells.now) ++ (row.now.path.now ++ nul ∷ [])) }
{
    let mut text = front_of(alloc, row.cells)?;
    text.extend_from_slice(row.path)?;
    text.push(b'\0')?;
    Ok(text)
}

/// Appends a space and a number.
fn push_number(alloc: Global, text: &mut Vec<u8>, number: u64) -> Result<(), AllocError>
    ensures { OnOk result (text.new.items ≡ text.old.items ++ space ∷ decimal number) }
{
    let spaced = format!(in alloc; " {number}")?;
    text.extend_from_slice(spaced.as_bytes())?;
    Ok(())
}

/// The line of a word and its numbers, with this end.
pub fn total_line(
    alloc: Global,
    word: &str,
    counts: &[Count<'_>],
    end: u8,
) -> Result<Vec<u8>, AllocError>
    ensures { IfOk result (λ v. v.items ≡ word.now ++ (numbers_of (map number_of counts.now) ++ end ∷ [])) }
{
    let mut text = Vec::from_slice(alloc, word.as_bytes())?;
    for count in counts {
        push_number(alloc, &mut text, count.number)?;
    }
    text.push(end)?;
    Ok(text)
}

/// The line of a word and its number, with this end.
pub fn number_line(alloc: Global, word: &str, number: u64, end: u8) -> Result<Vec<u8>, AllocError>
    ensures { IfOk result (λ v. v.items ≡ word.now ++ (space ∷ (decimal number ++ end ∷ []))) }
{
    let mut text = Vec::from_slice(alloc, word.as_bytes())?;
    push_number(alloc, &mut text, number)?;
    text.push(end)?;
    Ok(text)
}

/// The line of a refusal, with this end.
pub fn refusal_line(alloc: Global, words: &[u8], end: u8) -> Result<Vec<u8>, AllocError>
    ensures { IfOk result (λ v. v.items ≡ refusal_front ++ (words.now ++ end ∷ [])) }
{
    let mut text = Vec::from_slice(alloc, b"refused ")?;
    text.extend_from_slice(words)?;
    text.push(end)?;
    Ok(text)
}
