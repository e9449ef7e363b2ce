//! What a driver in memory does.
use byte_path::{Bytes, Items};

/// How a link in memory gives its output, and which of its calls fail.
#[derive(Clone, Copy)]
pub struct LinkScript {
    /// A read gives at most this many bytes. 0 counts as 1.
    pub piece: u32,
    /// How many sends come before the one that fails, if one is to fail.
    pub fail_send: Option<u32>,
    /// How many reads come before the one that fails, if one is to fail.
    pub fail_read: Option<u32>,
}

/// One start of a driver in memory, and its session.
#[derive(Drop)]
pub struct SessionScript {
    /// Whether the start gives a session.
    pub starts: bool,
    /// All that the driver writes in it.
    pub output: Bytes,
    /// A read gives at most this many bytes. 0 counts as 1.
    pub piece: u32,
    /// The number of the send that fails, counted from 0, if one is to fail.
    pub fail_send: Option<u32>,
    /// The number of the read that fails, counted from 0, if one is to fail.
    pub fail_read: Option<u32>,
}

/// A driver in memory: its command, and its starts in order.
#[derive(Drop)]
pub struct DriverScript {
    pub command: Bytes,
    pub sessions: Items<SessionScript>,
}
