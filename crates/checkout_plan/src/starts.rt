//! The filter driver of a path, and how it makes the path begin (gitattributes(5), "filter").
ghost use Rattle.std.specs.Prelude.{◌≡◌, IfOk, List};
ghost use Rattle.settings_view.specs.declared.view.Driver.{Driver};
ghost use Rattle.checkout_plan.specs.Paths.{start_at, start_of, filter_place, PlacesStart};
ghost use Rattle.checkout_plan.specs.Seen.{ArePlaces};

use crate::number::number_of;
use attr_line::AttrState;
use checkout_core::{FailCause, Start, Verdict};
use settings_view::Driver;
use std::alloc::{AllocError, Global};
use std::collections::BTreeMap;

/// The places of drivers in the settings, by their names.
pub type Places<'a> = BTreeMap<&'a [u8], u32>;

/// How a path of that driver begins.
fn start_at(place: u32, driver: &Driver) -> Start
    ensures { result ≡ start_at place driver.now }
{
    match (&driver.process, driver.required) {
        (Some(_), required) => Start::Desk {
            driver: place,
            required,
        },
        (None, true) => Start::Done(Verdict::Failed(FailCause::NoProcess)),
        (None, false) => Start::Pool,
    }
}

/// How a path begins whose driver stands at that place. Without a driver any actor takes it.
pub fn start_of(drivers: &[Driver], place: Option<u32>) -> Start
    ensures { result ≡ start_of drivers.now place }
{
    let Some(place) = place else {
        return Start::Pool;
    };
    match drivers.get(place as usize) {
        Some(driver) => start_at(place, driver),
        None => Start::Pool,
    }
}

/// The places of the settings' drivers. Of two drivers with one name the first counts.
pub fn places_of(alloc: Global, drivers: &[Driver]) -> Result<Places<'_>, AllocError>
    ensures { IfOk result (λ places. ArePlaces places drivers.now) }
{
    let mut places = BTreeMap::new(alloc);
    let mut rest = drivers;
    while let Some((driver, before)) = rest.split_last() {
        let place = number_of(before.len())?;
        places.insert(driver.name.as_slice(), place)?;
        rest = before;
    }
    Ok(places)
}

/// The place of a path's driver, by the state of the path's `filter`.
pub fn filter_place(places: &Places<'_>, filter: &AttrState) -> Option<u32>
    ensures { (drivers : List Driver) → ArePlaces places.now drivers → result ≡ filter_place drivers filter.now }
{
    match filter {
        AttrState::Value(name) => places.get(name.as_slice()).copied(),
        AttrState::Set | AttrState::Unset | AttrState::Unspecified => None,
    }
}

/// The law that a path begins by the place of its driver: how it begins by its `filter` is how it begins whose driver
/// stands there. It does nothing.
pub fn places_start()
    ensures { PlacesStart }
{}
