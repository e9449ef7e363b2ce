//! What is done with a file by its filter driver (gitattributes(5), "filter").
ghost use Rattle.std.specs.Prelude.{◌≡◌};
ghost use Rattle.checkout_plan.specs.Paths.{start_at, start_of};
ghost use Rattle.checkin_paths.specs.Paths.{way_by};
ghost use Rattle.checkin_paths.specs.PlannedWays.{storing_of, failed_way, closed_way, way_for};

use crate::path::{PathDriver, Storing, Way};
use checkout_core::{FailCause, Start, Verdict};
use convert_plan::Conversion;
use settings_view::Driver;

/// How a content is stored without a driver.
pub fn storing_of(conversion: Conversion) -> Storing
    ensures { result ≡ storing_of conversion }
{
    Storing {
        driver: None,
        ident: conversion.ident,
        action: conversion.action,
        encoding: conversion.encoding,
    }
}

/// What is done with a file that this driver has.
fn driver_way(place: usize, driver: &Driver, storing: Storing) -> Way
    ensures { result ≡ way_by (start_at place driver.now) storing }
{
    match (&driver.process, driver.required) {
        (Some(_), required) => Way::Stored(Storing {
            driver: Some(PathDriver { place, required }),
            ..storing
        }),
        (None, true) => Way::NoProcess,
        (None, false) => Way::Stored(storing),
    }
}

/// What is done with a file whose driver stands at this place, if it has one.
pub fn driven_way(drivers: &[Driver], place: Option<u32>, storing: Storing) -> Way
    ensures { result ≡ way_by (start_of drivers.now place) storing }
{
    let Some(place) = place else {
        return Way::Stored(storing);
    };
    match drivers.get(place as usize) {
        Some(driver) => driver_way(place as usize, driver, storing),
        None => Way::Stored(storing),
    }
}

/// The way of a path that fails in a checkout: this one, if it fails there for its driver alone.
fn failed_way(cause: FailCause, way: Way) -> Way
    ensures { result ≡ failed_way cause way }
{
    match cause {
        FailCause::NameNotText => Way::Kept,
        FailCause::UnknownEncoding => Way::UnknownEncoding,
        _ => way,
    }
}

/// The way of a path that a checkout closes: one that it skips stays.
fn closed_way(verdict: Verdict, way: Way) -> Way
    ensures { result ≡ closed_way verdict way }
{
    match verdict {
        Verdict::Skipped(_) => Way::Kept,
        Verdict::Failed(cause) => failed_way(cause, way),
        _ => way,
    }
}

/// The way of a path that begins so: this one, unless a checkout closes it for something else than its driver.
pub fn way_for(start: Start, way: Way) -> Way
    ensures { result ≡ way_for start way }
{
    match start {
        Start::Done(verdict) => closed_way(verdict, way),
        Start::Pool | Start::Desk { .. } => way,
    }
}
