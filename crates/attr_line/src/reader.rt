//! A whole attribute file, line by line.
ghost use Rattle.std.specs.Prelude.{◌≡◌, ◌++◌, IfOk, OnOk, option_to_list};
ghost use Rattle.attr_line.specs.File.{attributes_at, row_of};
ghost use Rattle.attr_line.specs.Seen.{with_fault, with_outcome};

use crate::file::{AttrFile, AttrRow, Skipped};
use crate::line::line_of;
use crate::outcome::{LineFault, Outcome};
use bstr::ByteSlice;
use byte_path::{Items, unmarked};
use std::alloc::{AllocError, Global};

/// What was read of a file.
#[derive(Drop)]
struct Reader {
    rows: Vec<AttrRow>,
    skipped: Skipped,
}

/// The counts with one line more.
fn with_fault(skipped: Skipped, fault: LineFault) -> Skipped
    ensures { result ≡ with_fault skipped fault }
{
    match fault {
        LineFault::Long => Skipped {
            long: skipped.long.saturating_add(1),
            ..skipped
        },
        LineFault::Negative => Skipped {
            negative: skipped.negative.saturating_add(1),
            ..skipped
        },
        LineFault::Name => Skipped {
            name: skipped.name.saturating_add(1),
            ..skipped
        },
        LineFault::Place => Skipped {
            place: skipped.place.saturating_add(1),
            ..skipped
        },
    }
}

impl Reader {
    /// Adds what the next line says.
    fn take(&mut self, outcome: Outcome) -> Result<(), AllocError>
        ensures rows { OnOk result (self.new.rows.items ≡ self.old.rows.items ++ option_to_list (row_of outcome)) }
        ensures skipped { OnOk result (self.new.skipped ≡ with_outcome self.old.skipped outcome) }
    {
        match outcome {
            Outcome::Nothing => {}
            Outcome::Row(row) => self.rows.push(row)?,
            Outcome::Skip(fault) => self.skipped = with_fault(self.skipped, fault),
        }
        Ok(())
    }
}

/// The rows of an attribute file in the order of its lines, and how many lines were skipped (gitattributes(5),
/// "DESCRIPTION").
///
/// A line is skipped and counted if it is too long, has a bad name or a negative pattern, or defines a macro in a file
/// that isn't `top`. A count stops at 4,294,967,295. The time is linear in the bytes.
#[tactic(auto, unfolding(crate::specs::File::attributes_at))]
pub fn read_attributes(alloc: Global, file: &[u8], top: bool) -> Result<AttrFile, AllocError>
    ensures { IfOk result (λ f. f ≡ attributes_at file.now top) }
{
    let mut reader = Reader {
        rows: Vec::new(alloc),
        skipped: Skipped {
            long: 0,
            negative: 0,
            name: 0,
            place: 0,
        },
    };
    'lines: for line in unmarked(file).lines() {
        reader.take(line_of(alloc, top, line)?)?;
    }
    Ok(AttrFile {
        rows: Items::from_vec(reader.rows),
        skipped: reader.skipped,
    })
}
