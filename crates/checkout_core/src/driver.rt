//! The state of a driver.
use filter_words::Caps;

/// An open session of a driver.
#[derive(Clone, Copy)]
pub struct OpenSession {
    pub caps: Caps,
    /// The path for which it was opened.
    pub first: u32,
    /// A path was delayed in it.
    pub any_delayed: bool,
    /// A list is being noted.
    pub noting_list: bool,
}

/// The state of a driver.
#[derive(Clone, Copy)]
pub enum DriverState {
    /// No session is open.
    Off,
    On(OpenSession),
    /// It answered `abort`, and isn't asked again.
    Aborted,
    /// Its last session is shut.
    Done,
}
