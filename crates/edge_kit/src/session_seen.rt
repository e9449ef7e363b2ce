//! What came of the starts of a driver in memory.
use byte_path::{Bytes, Items};

/// A session that ended.
#[derive(Drop)]
pub struct SessionSeen {
    /// The bytes that were sent to the driver.
    pub sent: Bytes,
    /// The bytes that were taken from its output.
    pub taken: Bytes,
    /// How often its link failed.
    pub faults: u64,
    /// How often its link met an end of input.
    pub ends: u64,
    /// Whether its input was closed and its end was then waited for.
    pub shut: bool,
}

/// What came of a start that didn't run out of memory.
#[derive(Drop)]
pub enum StartOutcome {
    Session(SessionSeen),
    Failed,
}

/// A start, or its session when that ended, and how many starts before it ran out of memory.
#[derive(Drop)]
pub struct StartSeen {
    pub out_of_memory: u64,
    pub outcome: StartOutcome,
}

/// A driver whose starter was given back: what came of its starts, in order.
#[derive(Drop)]
pub struct DriverSeen {
    pub command: Bytes,
    pub starts: Items<StartSeen>,
    /// How many starts after the last of these ran out of memory.
    pub out_of_memory: u64,
}
