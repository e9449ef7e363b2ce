//! What a filter driver makes of the bytes of a file.
ghost use Rattle.std.specs.Prelude.{◌≡◌, ◌≤◌, ◌<◌, ◌+◌, ◌^◌, length};
ghost use Rattle.clean_drivers.specs.Drivers.{drivers_seen, lines_out};
ghost use Rattle.checkin_paths.specs.CleanedFiles.{cleaning, text_at};
ghost use Rattle.checkin_paths.specs.Looks.{AnswersFor, CleansFile, IsAskableBy};

use crate::path::{CheckinPath, PathDriver};
use byte_path::Bytes;
use clean_drivers::{CleanDrivers, CleanFault, Question, clean};
use edge_kit::Spawner;
use one_shot::Once;
use settings_view::Driver;
use std::alloc::Global;

/// A path that is looked at, and the drivers of the configuration.
#[derive(Clone, Copy)]
pub struct Visit<'a> {
    pub drivers: &'a [Driver],
    pub path: &'a CheckinPath,
}

/// What runs the driver at a place.
fn text_at(drivers: &[Driver], place: usize) -> &[u8]
    ensures { result.now ≡ text_at drivers.now place }
{
    match drivers.get(place) {
        Some(driver) => match &driver.process {
            Some(text) => text.as_slice(),
            None => &[],
        },
        None => &[],
    }
}

/// What a driver's answer comes to: one that isn't required and refuses the bytes leaves them.
fn given(
    alloc: Global,
    required: bool,
    bytes: Vec<u8>,
    answer: Result<Bytes, CleanFault>,
) -> Result<Vec<u8>, CleanFault>
    ensures { AnswersFor required bytes.items answer result }
{
    match answer {
        Ok(cleaned) => match Vec::from_slice(alloc, cleaned.as_slice()) {
            Ok(copy) => Ok(copy),
            Err(_) => Err(CleanFault::NoMemory),
        },
        Err(CleanFault::Refused(why)) => {
            if required {
                Err(CleanFault::Refused(why))
            } else {
                Ok(bytes)
            }
        }
        Err(CleanFault::NoMemory) => Err(CleanFault::NoMemory),
    }
}

/// What the bytes of a path's file are cleaned to, or why its driver refused them. Without a driver they stay.
pub fn clean_file<P: Spawner, O: Once>(
    alloc: Global,
    lines: &mut CleanDrivers<P::Starter>,
    spawner: &mut P,
    once: &mut O,
    visit: &Visit<'_>,
    driver: Option<PathDriver>,
    bytes: Vec<u8>,
) -> Result<Vec<u8>, CleanFault>
    requires askable { IsAskableBy (length lines.old.lines) visit.now.path.now.path driver }
    requires few { lines.old.asked + 1 < 2 ^ 32 }
    ensures starts { P.told spawner.new ≡ P.told spawner.old }
    ensures runs { O.told once.new ≡ O.told once.old }
    ensures cleans { CleansFile (cleaning visit.now.drivers.now (P.told spawner.old) (O.told once.old))
        visit.now.path.now.path driver bytes.items
        (drivers_seen lines.old.lines (P.seen spawner.old) (O.faults once.old))
        (drivers_seen lines.new.lines (P.seen spawner.new) (O.faults once.new)) result }
    ensures asked { lines.new.asked ≤ lines.old.asked + 1 }
    ensures places { length lines.new.lines ≡ length lines.old.lines }
    ensures out { (P.seen spawner.new).out + lines_out lines.old.lines
        ≡ (P.seen spawner.old).out + lines_out lines.new.lines }
{
    let Some(driver) = driver else {
        return Ok(bytes);
    };
    let question = Question {
        driver: driver.place,
        text: text_at(visit.drivers, driver.place),
        path: visit.path.path.as_slice(),
        content: &bytes,
    };
    let answer = clean(lines, spawner, once, &question);
    given(alloc, driver.required, bytes, answer)
}
