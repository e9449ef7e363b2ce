//! The state before the first event.
ghost use Rattle.std.specs.Prelude.{◌≡◌, ◌<◌, ◌≤◌, ◌^◌, length, map, replicate, IfOk};
ghost use Rattle.checkout_core.specs.States.{AreBelow, path_of, start, unclosed_count};
ghost use Rattle.checkout_core.specs.Cursors.{new_cursor};
ghost use Rattle.checkout_core.specs.declared.driver.DriverState.TheVariants.{Off};

use super::State;
use crate::cursor::Cursor;
use crate::driver::DriverState;
use crate::path::{Path, PathState, Start};
use std::alloc::{AllocError, Global};

/// The path as it begins.
fn path_of(start: &Start) -> Path
    ensures { result ≡ path_of start.now }
{
    let state = match *start {
        Start::Pool => PathState::Waiting(None),
        Start::Desk { .. } => PathState::Unasked,
        Start::Done(verdict) => PathState::Closed(verdict),
    };
    Path {
        start: *start,
        state,
    }
}

fn paths_of(alloc: Global, starts: &[Start]) -> Result<Vec<Path>, AllocError>
    ensures { IfOk result (λ v. v.items ≡ map path_of starts.now) }
{
    starts.iter().map(path_of).collect(alloc)
}

fn all_off(alloc: Global, drivers: u32) -> Result<Vec<DriverState>, AllocError>
    ensures { IfOk result (λ v. v.items ≡ replicate drivers Off) }
{
    Ok(vec![in alloc; DriverState::Off; drivers as usize]?)
}

fn new_cursors(alloc: Global, drivers: u32) -> Result<Vec<Cursor>, AllocError>
    ensures { IfOk result (λ v. v.items ≡ replicate drivers new_cursor) }
{
    let cursor = Cursor {
        unasked: 0,
        first: 0,
        end: 0,
        named: 0,
        turn: 0,
    };
    Ok(vec![in alloc; cursor; drivers as usize]?)
}

/// How many of the paths aren't closed.
fn unclosed_count(paths: &[Path]) -> u32
    requires { length paths.now < 2 ^ 32 }
    ensures { result ≡ unclosed_count paths.now }
{
    let mut count = 0;
    for path in paths {
        if !matches!(path.state, PathState::Closed(_)) {
            count += 1;
        }
    }
    count
}

impl State {
    /// The state before any event: each path as its start says, and each driver off.
    ///
    /// Worker w is actor w, and the desk of driver d is actor `workers + d`.
    pub fn start(
        alloc: Global,
        starts: Vec<Start>,
        workers: u32,
        drivers: u32,
    ) -> Result<State, AllocError>
        requires few_paths { length starts.items < 2 ^ 32 }
        requires below { AreBelow drivers starts.items }
        requires few_workers { workers ≤ 16 }
        requires few_drivers { drivers ≤ 16 }
        ensures { IfOk result (λ state. state ≡ start starts.items workers drivers) }
    {
        let paths = paths_of(alloc, starts.as_slice())?;
        let unclosed = unclosed_count(paths.as_slice());
        let states = all_off(alloc, drivers)?;
        let cursors = new_cursors(alloc, drivers)?;
        Ok(State {
            workers,
            drivers: states,
            cursors,
            paths,
            unclosed,
        })
    }
}
