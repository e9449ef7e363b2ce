//! The drivers in use, and their numbers.
ghost use Rattle.std.specs.Prelude.{◌≡◌, ℕ, ◌<◌, ◌||◌, ◌++◌, IfOk, List, map, length, false};
ghost use Rattle.std.specs.Prelude.{slice_index_or, get_or};
ghost use Rattle.checkout_plan.specs.declared.path_plan.PathPlan.{PathPlan};
ghost use Rattle.checkout_plan.specs.Paths.{is_desk_of, used_from};
ghost use Rattle.checkout_plan.specs.Seen.{AreUsed, AreNumbers, renumbered};

use crate::number::number_of;
use crate::path_plan::PathPlan;
use byte_path::{Bytes, Items};
use checkout_core::Start;
use settings_view::Driver;
use std::alloc::{AllocError, Global};

/// Notes the driver of a path that begins like this.
fn note(used: &mut [bool], start: Start)
    ensures { (k : ℕ) → k < length used.old
        → get_or used.new k false ≡ (get_or used.old k false || is_desk_of k start) }
{
    if let Start::Desk { driver, .. } = start {
        let place = driver as usize;
        if place < used.len() {
            used[place] = true;
        }
    }
}

/// Which of the drivers the paths ask for. `count` is how many drivers there are.
pub fn used_of(alloc: Global, count: usize, paths: &[PathPlan]) -> Result<Vec<bool>, AllocError>
    ensures length { IfOk result (λ used. length used.items ≡ count) }
    ensures used { IfOk result (λ used. AreUsed used.items paths.now) }
{
    let mut used = vec![in alloc; false; count]?;
    for path in paths {
        note(&mut used, path.start);
    }
    Ok(used)
}

fn copy_of(alloc: Global, driver: &Driver) -> Result<Driver, AllocError>
    ensures { IfOk result (λ copy. copy ≡ driver.now) }
{
    let process = match &driver.process {
        Some(process) => Some(Bytes::copy_of(alloc, process.as_slice())?),
        None => None,
    };
    Ok(Driver {
        name: Bytes::copy_of(alloc, driver.name.as_slice())?,
        process,
        required: driver.required,
    })
}

/// The drivers that are in use.
pub fn in_use(alloc: Global, drivers: &[Driver], used: &[bool]) -> Result<Vec<Driver>, AllocError>
    requires { length used.now ≡ length drivers.now }
    ensures { IfOk result (λ kept. (paths : List PathPlan)
        → AreUsed used.now paths → kept.items ≡ used_from 0 paths drivers.now) }
{
    let mut kept = Vec::new(alloc);
    for (place, driver) in drivers.iter().enumerate() {
        if used[place] {
            kept.push(copy_of(alloc, driver)?)?;
        }
    }
    Ok(kept)
}

/// The number of each driver: how many before it are in use.
pub fn numbers_of(alloc: Global, used: &[bool]) -> Result<Vec<u32>, AllocError>
    ensures length { IfOk result (λ numbers. length numbers.items ≡ length used.now) }
    ensures numbers { IfOk result (λ numbers. (paths : List PathPlan)
        → AreUsed used.now paths → AreNumbers numbers.items paths) }
{
    let mut numbers = Vec::with_capacity(alloc, used.len())?;
    let mut count = 0usize;
    for is_used in used {
        numbers.push(number_of(count)?)?;
        if *is_used {
            count += 1;
        }
    }
    Ok(numbers)
}

/// Numbers the driver of a path among those in use.
fn renumber(path: &mut PathPlan, numbers: &[u32])
    ensures { path.new ≡ renumbered numbers.now path.old }
{
    if let Start::Desk { driver, required } = path.start {
        let number = numbers.get(driver as usize).copied().unwrap_or(driver);
        path.start = Start::Desk {
            driver: number,
            required,
        };
    }
}

fn renumber_all(paths: &mut [PathPlan], numbers: &[u32])
    ensures { paths.new ≡ map (renumbered numbers.now) paths.old }
{
    for path in paths.iter_mut() {
        renumber(path, numbers);
    }
}

/// The paths with their drivers numbered among those in use.
pub fn numbered(mut paths: Vec<PathPlan>, numbers: &[u32]) -> Items<PathPlan>
    ensures { result ≡ map (renumbered numbers.now) paths.items }
{
    renumber_all(&mut paths, numbers);
    Items::from_vec(paths)
}
