//! What a plan's rows say together.
ghost use Rattle.plan_report.specs.Rows.{TextIsPlan};

use checkout_report::reports_are_rows;
use reports::fronts_grow;

/// The rows of the text, one behind the other, are the plan's lines.
pub fn text_is_plan()
    ensures { TextIsPlan }
{
    fronts_grow();
    reports_are_rows();
}
