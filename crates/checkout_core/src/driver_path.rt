//! A path, seen together with its driver.
use crate::driver::DriverState;
use crate::path::Path;

/// A path of a driver, and the driver's state.
#[derive(Clone, Copy)]
pub(crate) struct DriverPath {
    pub(crate) path: Path,
    pub(crate) driver: u32,
    pub(crate) required: bool,
    pub(crate) state: DriverState,
}
