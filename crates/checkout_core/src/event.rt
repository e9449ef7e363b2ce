use crate::verdict::Own;
use filter_words::{BreakCause, Caps, ListReply, Reply};

/// Why a driver's session isn't open.
#[derive(Clone, Copy, Debug, PartialEq, Eq)]
pub enum OpenCause {
    /// The driver's command could not be started.
    NotStarted,
    Broken(BreakCause),
    NoMemory,
}

/// One step of a checkout, made by one actor. Paths, drivers and actors are numbered from 0.
#[derive(Clone, Copy, Debug, PartialEq, Eq)]
pub enum Event {
    /// The actor takes a waiting path.
    Claim { path: u32, actor: u32 },
    /// The actor ends a path, with the path's own outcome.
    Close { path: u32, actor: u32, own: Own },
    /// The driver's session is open, and the driver announced these capabilities.
    Opened { driver: u32, caps: Caps },
    /// The session for this path could not be opened.
    OpenFailed { path: u32, cause: OpenCause },
    /// The path's driver answered the first request for it.
    Answered { path: u32, reply: Reply },
    /// The driver's list names this delayed path.
    Named { path: u32 },
    /// The driver's list has ended.
    Listed { driver: u32, reply: ListReply },
    /// The path's driver answered the second request for it.
    Redone { path: u32, reply: Reply },
    /// A path that its driver refused waits for any actor, to be written without the driver.
    HandBack { path: u32 },
    /// The driver's session is shut after its last path.
    Shut { driver: u32 },
}
