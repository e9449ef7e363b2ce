//! The rows of a report, in one piece or one by one.
ghost use Rattle.std.specs.Prelude.{◌≡◌, ◌<◌, ◌++◌, ℕ, List, IfOk, OnOk, Some, length, slice_get};
ghost use Rattle.edge_kit.specs.Seen.{SinkSeen, Writes};
ghost use Rattle.reports.specs.declared.form.ReportForm.{ReportForm};
ghost use Rattle.reports.specs.Written.{joined, WritesRows};

use crate::form::ReportForm;
use edge_kit::{SendFault, Sink};
use std::alloc::{AllocError, Global};

/// The rows of a report, one after the other.
pub trait Rows {
    /// Each row, as a form spells it.
    ghost rows: { Self → ReportForm → List (List ℕ) };

    /// How many rows there are, in each form.
    fn count(&self) -> usize
        ensures { (form : ReportForm) → length (rows self.now form) ≡ result };

    /// The row at a place, in a form. It may be no bytes.
    fn row(&self, alloc: Global, form: ReportForm, place: usize) -> Result<Vec<u8>, AllocError>
        requires { place < length (rows self.now form) }
        ensures { IfOk result (λ v. slice_get (rows self.now form) place ≡ Some v.items) };
}

/// All rows in a form, in one piece.
#[tactic(auto, using(crate::proofs::Joined::joined_more))]
pub fn joined_rows<R: Rows>(
    alloc: Global,
    form: ReportForm,
    rows: &R,
) -> Result<Vec<u8>, AllocError>
    ensures { IfOk result (λ v. v.items ≡ joined (R.rows rows.now form)) }
{
    let mut text = Vec::new(alloc);
    for place in 0..rows.count() {
        let row = rows.row(alloc, form, place)?;
        text.extend_from_slice(&row)?;
    }
    Ok(text)
}

/// Writes a row, unless it is no bytes.
fn write_row<O: Sink>(out: &mut O, row: &[u8]) -> Result<(), SendFault>
    ensures { Writes row.now (O.seen out.old) (O.seen out.new) result }
{
    if row.is_empty() {
        return Ok(());
    }
    out.write(row)
}

/// Writes the rows in a form, each in one piece. A row of no bytes is no write.
pub fn write_rows<R: Rows, O: Sink>(
    alloc: Global,
    form: ReportForm,
    rows: &R,
    out: &mut O,
) -> Result<(), SendFault>
    ensures { WritesRows (R.rows rows.now form) (O.seen out.old) (O.seen out.new) result }
{
    for place in 0..rows.count() {
        let row = rows.row(alloc, form, place)?;
        match write_row(out, &row) {
            Ok(()) => {}
            Err(fault) => return Err(fault),
        }
    }
    Ok(())
}
