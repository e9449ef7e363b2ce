//! What a step changes.
use crate::driver::DriverState;
use crate::path::PathState;

/// What happens to a driver's delayed and named paths.
#[derive(Clone, Copy)]
pub enum Sweep {
    Keep,
    /// Each is heard as lost.
    Lose,
    /// Each is heard as out of memory.
    OutOfMemory,
}

/// What a step changes.
#[derive(Clone, Copy)]
pub enum Effect {
    Moves {
        path: u32,
        state: PathState,
    },
    Switches {
        driver: u32,
        state: DriverState,
        sweep: Sweep,
    },
    /// The sweep leaves out the path that moves.
    Both {
        path: u32,
        state: PathState,
        driver: u32,
        next: DriverState,
        sweep: Sweep,
    },
}
