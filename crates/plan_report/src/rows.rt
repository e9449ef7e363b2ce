//! The plan as rows.
ghost use Rattle.std.specs.Prelude.{◌≡◌, IfOk, length};
ghost use Rattle.reports.specs.Fields.{shown, field, field_of};
ghost use Rattle.plan_report.specs.Rows.{plan_row, skipped_row, plan_rows};

use crate::cells::{
    driver_value, encoding_value, ends_value, need_value, shown_conversion, state_word,
};
use checkout_plan::{PathPlan, Plan};
use checkout_report::mark_value;
use reports::{Cell, CellValue, PathRow, ReportForm, Row, Rows, spelled};
use settings_view::Driver;
use std::alloc::{AllocError, Global};

fn cell<'a>(key: &'a str, value: CellValue<'a>) -> Cell<'a>
    ensures { field_of result ≡ field key.now (shown value.entry) }
{
    Cell { key, value }
}

/// The row of a path in a form.
fn plan_row(
    alloc: Global,
    form: ReportForm,
    drivers: &[Driver],
    path: &PathPlan,
) -> Result<Vec<u8>, AllocError>
    ensures { IfOk result (λ v. v.items ≡ plan_row form drivers.now path.now) }
{
    let conversion = shown_conversion(path.start, path.conversion);
    let ident = CellValue::Flag {
        word: "ident",
        is_set: conversion.ident,
    };
    let cells = [
        cell("state", CellValue::Word(state_word(path.start))),
        cell("mark", mark_value(path.mark)),
        cell("ends", ends_value(conversion.action.ends())),
        cell("ident", ident),
        cell("encoding", encoding_value(conversion.encoding)),
        cell("need", need_value(path.start)),
        cell("driver", driver_value(drivers, path.start)),
    ];
    let row = Row::Path(PathRow {
        cells: &cells,
        path: path.path.as_slice(),
        has_failed: false,
    });
    spelled(alloc, form, &row)
}

/// The row of how many attribute lines were skipped, in a form.
fn skipped_row(alloc: Global, form: ReportForm, skipped: u64) -> Result<Vec<u8>, AllocError>
    ensures { IfOk result (λ v. v.items ≡ skipped_row form skipped) }
{
    let row = Row::Number {
        word: "skipped-lines",
        number: skipped,
    };
    spelled(alloc, form, &row)
}

/// A plan, row by row: a row for each path, and that of the attribute lines that were skipped.
#[derive(Clone, Copy)]
pub struct PlanRows<'a> {
    pub plan: &'a Plan,
}

impl<'a> Rows for PlanRows<'a> {
    ghost rows = { λ rows form. plan_rows form rows.plan.now };

    fn count(&self) -> usize {
        self.plan.paths.as_slice().len() + 1
    }

    fn row(&self, alloc: Global, form: ReportForm, place: usize) -> Result<Vec<u8>, AllocError> {
        let plan = self.plan;
        match plan.paths.as_slice().get(place) {
            Some(path) => plan_row(alloc, form, plan.drivers.as_slice(), path),
            None => skipped_row(alloc, form, plan.skipped_lines),
        }
    }
}
