//! What is done with each path of a plan.
ghost use Rattle.std.specs.Prelude.{◌≡◌, IfOk};
ghost use Rattle.checkin_paths.specs.PlannedWays.{planned_way, planned_path, planned_paths};

use crate::path::{CheckinPath, Way};
use crate::ways::{driven_way, storing_of, way_for};
use byte_path::Bytes;
use checkout_plan::PathPlan;
use settings_view::Driver;
use std::alloc::{AllocError, Global};

/// What is done with a path, by its plan and the drivers that clean.
fn planned_way(drivers: &[Driver], path: &PathPlan) -> Way
    ensures { result ≡ planned_way drivers.now path.now }
{
    let way = driven_way(drivers, path.driver, storing_of(path.conversion));
    way_for(path.start, way)
}

/// The path of a plan as it is checked in.
fn planned_path(
    alloc: Global,
    drivers: &[Driver],
    path: &PathPlan,
) -> Result<CheckinPath, AllocError>
    ensures { IfOk result (λ p. p ≡ planned_path drivers.now path.now) }
{
    let object = path.object;
    Ok(CheckinPath {
        path: Bytes::copy_of(alloc, path.path.as_slice())?,
        object,
        way: planned_way(drivers, path),
    })
}

/// The paths of a plan as they are checked in, by the drivers that clean.
pub fn planned_paths(
    alloc: Global,
    drivers: &[Driver],
    plan: &[PathPlan],
) -> Result<Vec<CheckinPath>, AllocError>
    ensures { IfOk result (λ paths. paths.items ≡ planned_paths drivers.now plan.now) }
{
    let mut paths = Vec::with_capacity(alloc, plan.len())?;
    for path in plan {
        paths.push(planned_path(alloc, drivers, path)?)?;
    }
    Ok(paths)
}
