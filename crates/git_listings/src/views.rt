//! What a configuration says of a checkout.
use case_kit::{push_all, shown};
use git_config::read_config;
use settings_view::{Driver, SettingFault, Settings, settings};
use std::alloc::{AllocError, Global};
use std::test::Fail;

/// What runs a driver after `=`, if something does.
fn process_of(driver: &Driver) -> (&[u8], &[u8]) {
    match &driver.process {
        Some(process) => (b"=", process.as_slice()),
        None => (b"", b""),
    }
}

/// Appends a driver as its name, `=` and what runs it if something does, and `!` if it is required.
fn push_driver(list: &mut Vec<u8>, driver: &Driver) -> Result<(), AllocError> {
    let (equals, process) = process_of(driver);
    let end: &[u8] = if driver.required { b"!;" } else { b";" };
    push_all(list, &[driver.name.as_slice(), equals, process, end])
}

/// Line ends, workers and threshold.
fn numbers_of(alloc: Global, settings: &Settings) -> Result<Vec<u8>, AllocError> {
    let text = format!(in alloc;
        "{:?} {:?} {} {} ",
        settings.autocrlf, settings.eol, settings.workers, settings.threshold
    )?;
    Vec::from_slice(alloc, text.as_bytes())
}

/// The settings: line ends, workers, threshold, and the drivers.
fn listed(alloc: Global, settings: &Settings) -> Result<Vec<u8>, AllocError> {
    let mut list = numbers_of(alloc, settings)?;
    for driver in settings.drivers.as_slice() {
        push_driver(&mut list, driver)?;
    }
    Ok(list)
}

/// What came of settings.
fn told(alloc: Global, came: Result<Settings, SettingFault>) -> Result<Vec<u8>, AllocError> {
    match came {
        Ok(settings) => listed(alloc, &settings),
        Err(fault) => shown(alloc, fault),
    }
}

/// The settings of a file, or their fault.
pub fn viewed(alloc: Global, text: &[u8]) -> Result<Vec<u8>, Fail> {
    let came = settings(alloc, &read_config(alloc, text)?);
    Ok(told(alloc, came)?)
}
