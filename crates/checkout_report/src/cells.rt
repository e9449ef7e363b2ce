//! The cells of the report's rows.
ghost use Rattle.std.specs.Prelude.{◌≡◌, IfOk};
ghost use Rattle.reports.specs.Fields.{shown, number_of, numbered};
ghost use Rattle.checkout_report.specs.Rows.{mark_shown, cause_shown, tells_failure, report_row, numbers_row};

use crate::words::{is_unencoded, word_of};
use checkout_core::Verdict;
use edge_kit::Mark;
use reports::{Cell, CellValue, Count, PathRow, ReportForm, Row, spelled};
use std::alloc::{AllocError, Global};

/// The mark of a file: none, `x` for an executable one, `l` for a link.
pub fn mark_value(mark: Mark) -> CellValue<'static>
    ensures { shown result ≡ mark_shown mark }
{
    match mark {
        Mark::Plain => CellValue::Absent,
        Mark::Executable => CellValue::Word("x"),
        Mark::LinkText => CellValue::Word("l"),
    }
}

/// The cause of a path's word, if it has one.
fn cause_value(verdict: Verdict) -> CellValue<'static>
    ensures { shown result ≡ cause_shown verdict }
{
    match verdict {
        Verdict::Written { .. } | Verdict::NoMemory => CellValue::Absent,
        Verdict::Unfiltered { cause, .. } => CellValue::Word(cause.word()),
        Verdict::Failed(cause) => CellValue::Word(cause.word()),
        Verdict::Skipped(cause) => CellValue::Word(cause.word()),
    }
}

/// Whether a path has no file because it failed or because memory ran out.
fn tells_failure(verdict: Verdict) -> bool
    ensures { result ≡ tells_failure verdict }
{
    matches!(verdict, Verdict::Failed(_) | Verdict::NoMemory)
}

/// The row of a path with this mark, in a form.
pub fn report_row(
    alloc: Global,
    form: ReportForm,
    path: &[u8],
    mark: Mark,
    verdict: Verdict,
) -> Result<Vec<u8>, AllocError>
    ensures { IfOk result (λ v. v.items ≡ report_row form path.now mark verdict) }
{
    let cells = [
        Cell {
            key: "state",
            value: CellValue::Word(word_of(verdict)),
        },
        Cell {
            key: "mark",
            value: mark_value(mark),
        },
        Cell {
            key: "unencoded",
            value: CellValue::Flag {
                word: "unencoded",
                is_set: is_unencoded(verdict),
            },
        },
        Cell {
            key: "cause",
            value: cause_value(verdict),
        },
    ];
    let row = Row::Path(PathRow {
        cells: &cells,
        path,
        has_failed: tells_failure(verdict),
    });
    spelled(alloc, form, &row)
}

fn count(key: &'static str, number: usize) -> Count<'static>
    ensures { number_of result ≡ numbered key.now number }
{
    Count {
        key,
        number: number as u64,
    }
}

/// The row of the numbers in a form.
pub fn numbers_row(
    alloc: Global,
    form: ReportForm,
    written: usize,
    unfiltered: usize,
    failed: usize,
    skipped: usize,
) -> Result<Vec<u8>, AllocError>
    ensures { IfOk result (λ v. v.items ≡ numbers_row form written unfiltered failed skipped) }
{
    let counts = [
        count("written", written),
        count("unfiltered", unfiltered),
        count("failed", failed),
        count("skipped", skipped),
    ];
    let row = Row::Total {
        word: "done",
        counts: &counts,
    };
    spelled(alloc, form, &row)
}
