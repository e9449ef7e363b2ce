//! Writes a text to the sink, in one piece or row by row.
ghost use Rattle.std.specs.Prelude.{◌≡◌};
ghost use Rattle.exit_status.specs.Said.{Says, SaysRows, Unsaid, cut_off, said};

use crate::status::ExitStatus;
use edge_kit::{SendFault, Sink};
use reports::{ReportForm, Rows, write_rows};
use std::alloc::Global;

/// The status of a text that the sink cut off, and that has this one if it is written whole.
fn cut_off(status: ExitStatus) -> ExitStatus
    ensures { result ≡ cut_off status }
{
    match status {
        ExitStatus::OutOfMemory => ExitStatus::OutOfMemory,
        _ => ExitStatus::OutputNotWritten,
    }
}

/// The status after a write, which is this one if the text is written whole.
fn said(written: Result<(), SendFault>, status: ExitStatus) -> ExitStatus
    ensures { result ≡ said written status }
{
    match written {
        Ok(()) => status,
        Err(SendFault::NoMemory) => ExitStatus::OutOfMemory,
        Err(SendFault::Failed) => cut_off(status),
    }
}

/// Says a text in one piece: the status is this one if the text is written whole.
pub fn say<O: Sink>(out: &mut O, text: &[u8], status: ExitStatus) -> ExitStatus
    ensures { Says Unsaid text.now status (O.seen out.old) (O.seen out.new) result }
{
    said(out.write(text), status)
}

/// Says rows in a form, one by one: the status is this one if they are written whole.
pub fn say_rows<R: Rows, O: Sink>(
    alloc: Global,
    form: ReportForm,
    rows: &R,
    out: &mut O,
    status: ExitStatus,
) -> ExitStatus
    ensures { SaysRows (R.rows rows.now form) status (O.seen out.old) (O.seen out.new) result }
{
    said(write_rows(alloc, form, rows, out), status)
}
