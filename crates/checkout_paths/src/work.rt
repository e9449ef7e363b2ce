//! What a checkout is made with, and what it has to do.

use crate::workers::Pace;
use checkout_plan::PathPlan;
use edge_kit::Gate;
use settings_view::Driver;
use std::alloc::Global;
use std::sync::Wait;
use std::thread::Threads;

/// What a checkout is made with: the threads, the memory, and the gate that its workers and desks call.
#[derive(Drop)]
pub struct Means<'a, G: Gate, H: Threads + Wait + Sync> {
    pub rt: &'a H,
    pub alloc: Global,
    pub gate: &'a G,
}

/// The paths and the drivers of a plan, and how many workers write them.
#[derive(Clone, Copy)]
pub struct PlannedWork<'a> {
    pub paths: &'a [PathPlan],
    /// The drivers in use, in the order of their desks.
    pub drivers: &'a [Driver],
    pub pace: Pace,
}
