//! The forms of a report.
ghost use Rattle.std.specs.Prelude.{◌≡◌, IfOk, map};
ghost use Rattle.reports.specs.Forms.{path_row, total_row, number_row, refusal_row, spelled};
ghost use Rattle.reports.specs.Fields.{field_of, number_of};

use crate::line::{nul_line, number_line, quoted_line, refusal_line, total_line};
use crate::object::{number_object, path_object, refusal_object, total_object};
use crate::row::{Count, PathRow, Row};
use std::alloc::{AllocError, Global};

/// How the rows of a report or a plan are written.
#[derive(Clone, Copy, Debug, PartialEq, Eq)]
pub enum ReportForm {
    /// A line for each row.
    Text,
    /// The lines with NUL at their ends, and with paths that aren't quoted.
    Nul,
    /// A JSON object on a line for each row.
    Json,
    /// The lines of failures and refusals alone.
    Failures,
}

/// The row of a path in a form.
#[tactic(auto, unfolding(crate::specs::Forms::path_row))]
fn path_row(alloc: Global, form: ReportForm, row: &PathRow<'_>) -> Result<Vec<u8>, AllocError>
    ensures { IfOk result (λ v. v.items
        ≡ path_row form (map field_of row.now.cells.now) row.now.has_failed row.now.path.now) }
{
    match form {
        ReportForm::Text => quoted_line(alloc, row),
        ReportForm::Nul => nul_line(alloc, row),
        ReportForm::Json => path_object(alloc, row),
        ReportForm::Failures if row.has_failed => quoted_line(alloc, row),
        ReportForm::Failures => Ok(Vec::new(alloc)),
    }
}

/// A word and its numbers in a form.
#[tactic(auto, unfolding(crate::specs::Forms::total_row))]
fn total_row(
    alloc: Global,
    form: ReportForm,
    word: &str,
    counts: &[Count<'_>],
) -> Result<Vec<u8>, AllocError>
    ensures { IfOk result (λ v. v.items
        ≡ total_row form word.now (map number_of counts.now)) }
{
    match form {
        ReportForm::Text => total_line(alloc, word, counts, b'\n'),
        ReportForm::Nul => total_line(alloc, word, counts, b'\0'),
        ReportForm::Json => total_object(alloc, word, counts),
        ReportForm::Failures => Ok(Vec::new(alloc)),
    }
}

/// A word and its number in a form.
#[tactic(auto, unfolding(crate::specs::Forms::number_row))]
fn number_row(
    alloc: Global,
    form: ReportForm,
    word: &str,
    number: u64,
) -> Result<Vec<u8>, AllocError>
    ensures { IfOk result (λ v. v.items ≡ number_row form word.now number) }
{
    match form {
        ReportForm::Text => number_line(alloc, word, number, b'\n'),
        ReportForm::Nul => number_line(alloc, word, number, b'\0'),
        ReportForm::Json => number_object(alloc, word, number),
        ReportForm::Failures => Ok(Vec::new(alloc)),
    }
}

/// A refusal in a form.
#[tactic(auto, unfolding(crate::specs::Forms::refusal_row))]
fn refusal_row(alloc: Global, form: ReportForm, words: &[u8]) -> Result<Vec<u8>, AllocError>
    ensures { IfOk result (λ v. v.items ≡ refusal_row form words.now) }
{
    match form {
        ReportForm::Text | ReportForm::Failures => refusal_line(alloc, words, b'\n'),
        ReportForm::Nul => refusal_line(alloc, words, b'\0'),
        ReportForm::Json => refusal_object(alloc, words),
    }
}

/// A row as a form spells it, which may be no bytes.
pub fn spelled(alloc: Global, form: ReportForm, row: &Row<'_>) -> Result<Vec<u8>, AllocError>
    ensures { IfOk result (λ v. v.items ≡ spelled form row.now) }
{
    match *row {
        Row::Path(row) => path_row(alloc, form, &row),
        Row::Total { word, counts } => total_row(alloc, form, word, counts),
        Row::Number { word, number } => number_row(alloc, form, word, number),
        Row::Refusal(words) => refusal_row(alloc, form, words),
    }
}
