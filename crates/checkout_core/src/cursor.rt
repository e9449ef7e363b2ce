//! Where a driver's unasked and delayed paths are, so that a step looks at none in vain.
use crate::path::PathState;

/// Where the paths of one driver are. It is kept beside them.
#[derive(Clone, Copy)]
pub(crate) struct Cursor {
    /// No path of the driver below this one is unasked.
    pub(crate) unasked: u32,
    /// Its delayed and named paths are from this one on,
    pub(crate) first: u32,
    /// and before this one.
    pub(crate) end: u32,
    /// How many of its paths are named.
    pub(crate) named: u32,
    /// The lowest turn of its named paths.
    pub(crate) turn: u32,
}
