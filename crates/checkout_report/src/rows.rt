//! The report as rows.
ghost use Rattle.std.specs.Prelude.{◌≡◌, IfOk, length, min};
ghost use Rattle.checkout_report.specs.Rows.{done_row, report_rows};

use crate::cells::{numbers_row, report_row};
use crate::report::{ReportPath, failed_count, skipped_count, unfiltered_count, written_count};
use checkout_core::Verdict;
use reports::{ReportForm, Rows};
use std::alloc::{AllocError, Global};

/// The row of the numbers of these verdicts, in a form.
#[tactic(auto, unfolding(crate::specs::Rows::done_row))]
pub fn done_row(
    alloc: Global,
    form: ReportForm,
    verdicts: &[Verdict],
) -> Result<Vec<u8>, AllocError>
    ensures { IfOk result (λ v. v.items ≡ done_row form verdicts.now) }
{
    let written = written_count(verdicts);
    let unfiltered = unfiltered_count(verdicts);
    let failed = failed_count(verdicts);
    let skipped = skipped_count(verdicts);
    numbers_row(alloc, form, written, unfiltered, failed, skipped)
}

/// The report of a checkout: a row for each path with its verdict, and the row of the numbers.
#[derive(Clone, Copy)]
pub struct Report<'a> {
    pub paths: &'a [ReportPath],
    pub verdicts: &'a [Verdict],
}

impl<'a> Rows for Report<'a> {
    ghost rows = { λ report form. report_rows form report.paths.now report.verdicts.now };

    #[tactic(auto, using(crate::proofs::RowPlaces::rows_length))]
    fn count(&self) -> usize {
        self.paths.len().min(self.verdicts.len()) + 1
    }

    fn row(&self, alloc: Global, form: ReportForm, place: usize) -> Result<Vec<u8>, AllocError> {
        match self.paths.get(place) {
            Some(path) => match self.verdicts.get(place) {
                Some(verdict) => report_row(alloc, form, path.path.as_slice(), path.mark, *verdict),
                None => done_row(alloc, form, self.verdicts),
            },
            None => done_row(alloc, form, self.verdicts),
        }
    }
}
