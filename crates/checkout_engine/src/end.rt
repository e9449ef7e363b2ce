//! How a checkout ends, and the run that it leaves.
ghost use Rattle.std.specs.Prelude.{◌≡◌};
ghost use Rattle.checkout_engine.specs.Checkout.{events_of};

use checkout_core::{Event, Verdict};
use checkout_plan::Plan;
use checkout_sources::Refusal;
use std::alloc::Global;

/// The run of a checkout over all paths of a plan.
#[derive(Drop)]
pub struct CheckoutRun {
    pub plan: Plan,
    /// How many workers there were.
    pub workers: u32,
    /// The verdict of each path.
    pub verdicts: Vec<Verdict>,
    /// The events of all actors, in the order in which they happened.
    pub history: Vec<Event>,
}

/// How a checkout ends.
#[derive(Drop)]
pub enum Checkout {
    /// Each path of the plan has a verdict.
    Done(CheckoutRun),
    /// The worktree isn't empty, and nothing was done.
    NotEmpty,
    /// The repository can't be checked out, and no file was touched.
    Refused(Refusal),
    /// A read failed before a file was touched.
    ReadFault,
    /// Memory ran out before the paths were done.
    NoMemory,
}

/// The events of the run that a checkout leaves, if there is one and it leaves one.
pub(crate) fn events_of(alloc: Global, end: Option<Checkout>) -> Vec<Event>
    ensures { result.items ≡ events_of end }
{
    match end {
        Some(Checkout::Done(run)) => run.history,
        _ => Vec::new(alloc),
    }
}
