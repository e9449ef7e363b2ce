//! What is known of the report of a run.
ghost use Rattle.run_report.specs.Rows.{FirstRowsAreLines};

use checkout_report::reports_are_rows;
use reports::first_rows_are_a_part;

/// The rows of the text are the report, and the first of them are its first lines.
pub fn first_rows_are_lines()
    ensures { FirstRowsAreLines }
{
    reports_are_rows();
    first_rows_are_a_part();
}
