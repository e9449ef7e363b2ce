//! The paths of an index, or why a check-in stops before it looks at a file.
ghost use Rattle.std.specs.Prelude.{◌≡◌};
ghost use Rattle.settings_view.specs.declared.fault.SettingFault.TheVariants.{NoMemory as Wanting};
ghost use Rattle.checkout_sources.specs.declared.stop.Stop.TheVariants as stop;
ghost use Rattle.checkin_paths.specs.ReadPaths.{IsSound, PathsOf, ReadsPaths};

use crate::path::CheckinPath;
use crate::paths::planned_paths;
use byte_path::Items;
use checkout_plan::places_start;
use checkout_sources::{PlannedIndex, Stop, read_planned_index};
use edge_kit::Repo;
use git_index::{Index, entries_can_stand, paths_are_ordered};
use settings_view::{Driver, SettingFault, cleaning_drivers};
use std::alloc::Global;

/// An index and its paths.
#[derive(Drop)]
pub struct PathsRead {
    pub index: Index,
    /// The drivers of the configuration, as they clean contents.
    pub drivers: Items<Driver>,
    pub paths: Vec<CheckinPath>,
}

/// The stop for a fault that is want of memory.
fn stop_of(fault: SettingFault) -> Stop
    requires { fault ≡ Wanting }
    ensures { result ≡ stop.NoMemory }
{
    match fault {
        SettingFault::NoMemory => Stop::NoMemory,
        _ => unreachable!(),
    }
}

/// The paths of what was read. Its settings could be read, so nothing but memory can be wanting for the drivers.
fn paths_of(alloc: Global, planned: PlannedIndex) -> Result<PathsRead, Stop>
    requires { IsSound planned.config }
    ensures { PathsOf planned result }
{
    let PlannedIndex {
        index,
        config,
        plan,
    } = planned;
    let drivers = match cleaning_drivers(alloc, &config) {
        Ok(drivers) => drivers,
        Err(fault) => return Err(stop_of(fault)),
    };
    let Ok(paths) = planned_paths(alloc, drivers.as_slice(), plan.paths.as_slice()) else {
        return Err(Stop::NoMemory);
    };
    Ok(PathsRead {
        index,
        drivers,
        paths,
    })
}

/// The paths of a repository's index. The blobs of its attribute files are given back.
pub fn read_paths<R: Repo>(alloc: Global, repo: &mut R) -> Result<PathsRead, Stop>
    ensures told { R.told repo.new ≡ R.told repo.old }
    ensures reads { ReadsPaths (R.told repo.old) (R.seen repo.old) (R.seen repo.new) result }
{
    entries_can_stand();
    paths_are_ordered();
    places_start();
    let planned = read_planned_index(alloc, repo)?;
    paths_of(alloc, planned)
}
