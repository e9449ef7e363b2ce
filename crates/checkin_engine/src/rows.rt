//! The report of a check-in as rows.
ghost use Rattle.std.specs.Prelude.{◌≡◌, ◌∷◌, [], false, IfOk, length, min};
ghost use Rattle.reports.specs.Fields.{number_of, numbered};
ghost use Rattle.reports.specs.Forms.{path_row};
ghost use Rattle.checkin_paths.specs.declared.fate.Fate.TheVariants.{Changed, Failed};
ghost use Rattle.checkin_engine.specs.Rows.{state_field, fate_row, numbers_row, done_row, checkin_rows};

use crate::report::{changed_count, failed_count, gone_count, kept_count, same_count};
use byte_path::ObjectId;
use checkin_paths::{CheckinCause, CheckinPath, Fate};
use reports::{Cell, CellValue, Count, PathRow, ReportForm, Row, Rows, spelled};
use std::alloc::{AllocError, Global};

/// The row of a path with this state alone.
fn plain_row(
    alloc: Global,
    form: ReportForm,
    path: &[u8],
    state: &'static str,
) -> Result<Vec<u8>, AllocError>
    ensures { IfOk result (λ v. v.items ≡ path_row form (state_field state.now ∷ []) false path.now) }
{
    let cells = [Cell {
        key: "state",
        value: CellValue::Word(state),
    }];
    let row = PathRow {
        cells: &cells,
        path,
        has_failed: false,
    };
    spelled(alloc, form, &Row::Path(row))
}

/// The row of a path whose object is another.
fn changed_row(
    alloc: Global,
    form: ReportForm,
    path: &[u8],
    name: ObjectId,
) -> Result<Vec<u8>, AllocError>
    ensures { IfOk result (λ v. v.items ≡ fate_row form path.now (Changed name)) }
{
    let digits = hex::encode(alloc, &name)?;
    let cells = [
        Cell {
            key: "state",
            value: CellValue::Word("changed"),
        },
        Cell {
            key: "object",
            value: CellValue::Word(digits.as_str()),
        },
    ];
    let row = PathRow {
        cells: &cells,
        path,
        has_failed: false,
    };
    spelled(alloc, form, &Row::Path(row))
}

/// The row of a path that failed.
fn failed_row(
    alloc: Global,
    form: ReportForm,
    path: &[u8],
    cause: CheckinCause,
) -> Result<Vec<u8>, AllocError>
    ensures { IfOk result (λ v. v.items ≡ fate_row form path.now (Failed cause)) }
{
    let cells = [
        Cell {
            key: "state",
            value: CellValue::Word("failed"),
        },
        Cell {
            key: "cause",
            value: CellValue::Word(cause.word()),
        },
    ];
    let row = PathRow {
        cells: &cells,
        path,
        has_failed: true,
    };
    spelled(alloc, form, &Row::Path(row))
}

/// The row of a path that came to this fate, in a form.
fn fate_row(alloc: Global, form: ReportForm, path: &[u8], fate: Fate) -> Result<Vec<u8>, AllocError>
    ensures { IfOk result (λ v. v.items ≡ fate_row form path.now fate) }
{
    match fate {
        Fate::Same => plain_row(alloc, form, path, "same"),
        Fate::Changed(name) => changed_row(alloc, form, path, name),
        Fate::Gone => plain_row(alloc, form, path, "gone"),
        Fate::Kept => plain_row(alloc, form, path, "kept"),
        Fate::Failed(cause) => failed_row(alloc, form, path, cause),
    }
}

fn count(key: &'static str, number: usize) -> Count<'static>
    ensures { number_of result ≡ numbered key.now number }
{
    Count {
        key,
        number: number as u64,
    }
}

/// The row of the numbers, in a form.
fn numbers_row(
    alloc: Global,
    form: ReportForm,
    same: usize,
    changed: usize,
    gone: usize,
    kept: usize,
    failed: usize,
) -> Result<Vec<u8>, AllocError>
    ensures { IfOk result (λ v. v.items ≡ numbers_row form same changed gone kept failed) }
{
    let counts = [
        count("same", same),
        count("changed", changed),
        count("gone", gone),
        count("kept", kept),
        count("failed", failed),
    ];
    let row = Row::Total {
        word: "done",
        counts: &counts,
    };
    spelled(alloc, form, &row)
}

/// The row of the numbers of these fates, in a form.
#[tactic(auto, unfolding(crate::specs::Rows::done_row))]
fn done_row(alloc: Global, form: ReportForm, fates: &[Fate]) -> Result<Vec<u8>, AllocError>
    ensures { IfOk result (λ v. v.items ≡ done_row form fates.now) }
{
    let same = same_count(fates);
    let changed = changed_count(fates);
    let gone = gone_count(fates);
    let kept = kept_count(fates);
    let failed = failed_count(fates);
    numbers_row(alloc, form, same, changed, gone, kept, failed)
}

/// The report of a check-in: a row for each path with its fate, and the row of the numbers.
#[derive(Clone, Copy)]
pub struct CheckinReport<'a> {
    pub paths: &'a [CheckinPath],
    pub fates: &'a [Fate],
}

impl<'a> Rows for CheckinReport<'a> {
    ghost rows = { λ report form. checkin_rows form report.paths.now report.fates.now };

    #[tactic(auto, using(crate::proofs::RowPlaces::rows_length))]
    fn count(&self) -> usize {
        self.paths.len().min(self.fates.len()) + 1
    }

    fn row(&self, alloc: Global, form: ReportForm, place: usize) -> Result<Vec<u8>, AllocError> {
        match self.paths.get(place) {
            Some(path) => match self.fates.get(place) {
                Some(fate) => fate_row(alloc, form, path.path.as_slice(), *fate),
                None => done_row(alloc, form, self.fates),
            },
            None => done_row(alloc, form, self.fates),
        }
    }
}
