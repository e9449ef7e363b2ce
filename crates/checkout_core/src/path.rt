use crate::verdict::{FilterCause, Verdict};

/// How a path begins.
#[derive(Clone, Copy)]
pub enum Start {
    /// Any actor may take it.
    Pool,
    /// Its driver converts it. If the driver is required, its refusal is a failure.
    Desk { driver: u32, required: bool },
    /// Its verdict was decided before.
    Done(Verdict),
}

/// What a driver's answers say of a path.
#[derive(Clone, Copy)]
pub enum Heard {
    Got,
    Refused(FilterCause),
    /// It was delayed, and its session ended before its content came.
    Lost,
    /// There was no memory for it.
    OutOfMemory,
}

/// The state of a path.
#[derive(Clone, Copy)]
pub enum PathState {
    /// For any actor to take. There is a cause if its driver handed it back.
    Waiting(Option<FilterCause>),
    /// In the hands of this actor, with the cause that it had while it waited.
    Held(u32, Option<FilterCause>),
    /// Its driver wasn't asked yet.
    Unasked,
    /// Its driver will list it.
    Delayed,
    /// Its driver listed it at this turn, and will be asked for it again.
    Named(u32),
    Heard(Heard),
    Closed(Verdict),
}

/// A path: how it began, and its state.
#[derive(Clone, Copy)]
pub struct Path {
    pub start: Start,
    pub state: PathState,
}
