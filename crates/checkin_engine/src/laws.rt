//! What two check-ins have in common, and what is known of a report's rows.
ghost use Rattle.checkin_engine.specs.Rows.{CheckinsAreRows};
ghost use Rattle.checkin_engine.specs.EqualTurns.{EqualTurns, SameFilesAskAlike};

use clean_drivers::equal_sessions_give_equal_answers;

/// The law that equal sessions give equal turns: in two check-ins over the same paths, drivers and bytes, whose
/// sessions have equal outputs, each driver gives the same answers, where no link failed. It does nothing.
pub fn equal_sessions_give_equal_turns()
    ensures { EqualTurns }
{
    equal_sessions_give_equal_answers();
}

/// The law that the same files ask alike: in two check-ins over the same paths and files, where all is told and nothing
/// fails, each path's driver is asked for the same bytes, or in both for none. It does nothing.
pub fn same_files_ask_alike()
    ensures { SameFilesAskAlike }
{}

/// How many rows a report has. The rows of the text, one behind the other, are the report. It does nothing.
pub fn checkins_are_rows()
    ensures { CheckinsAreRows }
{}
