//! The report of a run, row by row.
ghost use Rattle.std.specs.Prelude.{◌≡◌, length, map};
ghost use Rattle.run_report.specs.Rows.{run_rows};

use checkout_core::Verdict;
use checkout_plan::PathPlan;
use checkout_report::{done_row, report_row, reports_are_rows};
use reports::{ReportForm, Rows};
use std::alloc::{AllocError, Global};

/// The report of a run: a row for each path of the plan with its verdict, and the row of the numbers.
#[derive(Clone, Copy)]
pub struct RunReport<'a> {
    pub paths: &'a [PathPlan],
    pub verdicts: &'a [Verdict],
}

impl<'a> Rows for RunReport<'a> {
    ghost rows = { λ report form. run_rows form report.paths.now report.verdicts.now };

    fn count(&self) -> usize {
        reports_are_rows();
        self.paths.len().min(self.verdicts.len()) + 1
    }

    fn row(&self, alloc: Global, form: ReportForm, place: usize) -> Result<Vec<u8>, AllocError> {
        reports_are_rows();
        match self.paths.get(place) {
            Some(path) => match self.verdicts.get(place) {
                Some(verdict) => {
                    report_row(alloc, form, path.path.as_slice(), path.mark, *verdict)
                }
                None => done_row(alloc, form, self.verdicts),
            },
            None => done_row(alloc, form, self.verdicts),
        }
    }
}
