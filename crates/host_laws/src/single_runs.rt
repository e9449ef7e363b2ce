//! The laws of a checkout whose driver is a command that runs once for each content.
ghost use Rattle.host_laws.specs.SingleRuns.{SingleRunsAreHeard};
ghost use Rattle.host_laws.specs.RunsAlike.{RunsChangeNothing};
ghost use Rattle.host_laws.specs.RunsGive.{SingleRunsGiveAll};

use crate::laws::{kept_runs_have_memory, kept_runs_serve};
use checkout_engine::{planned_paths_are_sized, talks_decide, talks_have_memory};
use driver_line::a_path_gets_one_content;

/// A checkout writes for a driver that is a command the output that the command gave, if the spawner of single runs
/// keeps their sessions and tells the runs, and memory was left for each path. It refuses a path whose request is over
/// the limit since its session broke, and any other only with an error.
pub fn single_runs_are_heard()
    ensures { SingleRunsAreHeard }
{
    kept_runs_have_memory();
    kept_runs_serve();
    a_path_gets_one_content();
    planned_paths_are_sized();
    talks_have_memory();
}

/// The number of workers changes nothing over spawners of single runs: two checkouts of one repository that tells all,
/// with the same runs, in which no leaf and no link failed and memory was left for each path, have the same plan,
/// verdicts, files and report.
pub fn workers_change_nothing_over_runs()
    ensures { RunsChangeNothing }
{
    kept_runs_have_memory();
    kept_runs_serve();
    planned_paths_are_sized();
    talks_decide();
    talks_have_memory();
}

/// A driver that is a command gives all its paths if the run for each is told to end well within its limit. So a
/// checkout that has all else that it needs is done.
pub fn single_runs_give_all()
    ensures { SingleRunsGiveAll }
{
    kept_runs_have_memory();
    kept_runs_serve();
}
