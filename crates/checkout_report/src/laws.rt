//! What is known of a report's rows.
ghost use Rattle.checkout_report.specs.Rows.{ReportsAreRows};

use reports::fronts_grow;

/// Which row stands at each place of a report. The rows of the text, one behind the other, are the report.
pub fn reports_are_rows()
    ensures { ReportsAreRows }
{
    fronts_grow();
}
