//! What follows from the contracts of a checkout.
ghost use Rattle.checkout_engine.specs.Alike.{MemoryTellsAll, WorkersChangeNothing, SettingsChangeNothing};
ghost use Rattle.checkout_engine.specs.Alike.{ActorsAreNumbered, OnePlan, TalksDecide, TalksHaveMemory};
ghost use Rattle.checkout_engine.specs.Given.{WrittenIsGiven};
ghost use Rattle.checkout_engine.specs.PlannedPaths.{PlannedPathsAreSized};
ghost use Rattle.checkout_engine.specs.Rehearsed.{RehearsalsAreAlike};
ghost use Rattle.checkout_engine.specs.Said.{PlansSayText, EndsSayText};
ghost use Rattle.checkout_engine.specs.SameFaults.{SameFaultsChangeNothing};

use checkout_paths::drivers_are_in_use;
use core_laws::laws;
use driver_line::{
    a_path_gets_one_content, equal_outputs_give_equal_talks, equal_sessions_give_equal_talks,
};
use git_index::{one_reading, paths_are_ordered};
use plan_report::text_is_plan;
use run_report::first_rows_are_lines;

/// In the form of a text, the plan's lines are said.
pub(crate) fn plans_say_text()
    ensures { PlansSayText }
{
    text_is_plan();
}

/// In the form of a text, the report is said line by line.
pub(crate) fn ends_say_text()
    ensures { EndsSayText }
{
    first_rows_are_lines();
}

/// The number of workers changes nothing: two checkouts of one repository with the same drivers, in which no leaf and
/// no link failed and memory was left for each path, have the same plan, verdicts, files and report, with any two
/// numbers of workers.
pub fn workers_change_nothing()
    // by the words
    ensures words { WorkersChangeNothing }
    // by the settings and the threshold too
    ensures settings { SettingsChangeNothing }
{
    one_reading();
    paths_are_ordered();
    equal_outputs_give_equal_talks();
    a_path_gets_one_content();
}

/// What the drivers say decides the rest: two such checkouts have the same plan, verdicts, files and report if for each
/// driver what it writes is told of each start, or each of its paths heard the same in both.
pub fn talks_decide()
    ensures { TalksDecide }
{
    one_reading();
    paths_are_ordered();
    equal_outputs_give_equal_talks();
    a_path_gets_one_content();
}

/// Where memory was left for each path, no path of a driver heard that it ran out.
pub fn talks_have_memory()
    ensures { TalksHaveMemory }
{}

/// Where leaves or links failed, the verdicts and the reports of two checkouts of one repository are equal if their
/// sessions, their failed starts and the counts of their leaves are, with any two numbers of workers, and memory was
/// left for each path. So is the file of each path whose leaf didn't fail.
pub fn same_faults_change_nothing()
    ensures { SameFaultsChangeNothing }
{
    one_reading();
    paths_are_ordered();
    equal_sessions_give_equal_talks();
    a_path_gets_one_content();
}

/// The forms in memory tell all that the law on the number of workers asks to be told of a repository and a spawner.
pub fn memory_tells_all()
    ensures { MemoryTellsAll }
{}

/// A repository that tells all that it holds has one plan, so the command `plan` shows the plan of its checkout.
pub fn a_told_repository_has_one_plan()
    ensures { OnePlan }
{
    one_reading();
}

/// What `run` needs of drivers to be done can be met: what is told of their starts gives all their paths if a checkout
/// that was not disturbed wrote all of these.
pub fn written_paths_are_given()
    ensures { WrittenIsGiven }
{}

/// A rehearsal has one line: two with the same seed and as many paths that wrote their line wrote the same.
pub fn rehearsals_are_alike()
    ensures { RehearsalsAreAlike }
{
    one_reading();
    paths_are_ordered();
    equal_outputs_give_equal_talks();
    a_path_gets_one_content();
}

/// No actor but the workers and the desks of a checkout makes an entry of its history, also where its report is cut off
/// or memory ran out for a path.
pub fn actors_are_numbered()
    ensures { ActorsAreNumbered }
{
    drivers_are_in_use();
    laws::a_history_keeps_its_size();
    laws::own_entries_tell_what_is_in_hand();
}

/// Each path of a plan that is read and written is text of 1 to 4,096 bytes, and each object's name has 20 bytes.
pub fn planned_paths_are_sized()
    ensures { PlannedPathsAreSized }
{}
