//! What a step makes of the state: one path, one driver, and the cursors.
ghost use Rattle.std.specs.Prelude.{◌≡◌, ◌+◌, ◌<◌, ◌≤◌, ◌^◌, length, cond};
ghost use Rattle.checkout_core.specs.States.{is_closed};
ghost use Rattle.checkout_core.specs.Effects.{after, swept_path};
ghost use Rattle.checkout_core.specs.Cursors.{IsFollowable, IsWithin, CanFollow, cursor_after, delayed_after};
ghost use Rattle.checkout_core.specs.Cursors.{named_after, redone_after, all_swept, swept_paths};
ghost use Rattle.checkout_core.specs.declared.effect.Effect.TheVariants.{Moves, Switches, Both};
ghost use Rattle.checkout_core.specs.declared.effect.Sweep.TheVariants.{Keep};

use super::{State, is_at};
use crate::cursor::Cursor;
use crate::driver::DriverState;
use crate::effect::{Effect, Sweep};
use crate::path::{Heard, Path, PathState};

impl Cursor {
    /// The cursor after this path was delayed.
    fn delayed(self, path: u32) -> Cursor
        requires { path + 1 < 2 ^ 32 }
        ensures { result ≡ delayed_after self path }
    {
        if self.first < self.end {
            Cursor {
                first: self.first.min(path),
                end: self.end.max(path + 1),
                ..self
            }
        } else {
            Cursor {
                first: path,
                end: path + 1,
                ..self
            }
        }
    }

    /// The cursor after this path advanced.
    fn after(self, path: u32, was: PathState, state: PathState) -> Cursor
        requires { CanFollow self path was state }
        ensures { result ≡ cursor_after self path was state }
    {
        match (was, state) {
            (PathState::Unasked, PathState::Delayed) => self.delayed(path),
            (PathState::Delayed, PathState::Named(_)) => self.named(),
            (PathState::Named(_), PathState::Heard(_)) => self.redone(),
            _ => self,
        }
    }

    /// The cursor after one more path was named.
    fn named(self) -> Cursor
        requires { self.named + 1 < 2 ^ 32 }
        ensures { result ≡ named_after self }
    {
        Cursor {
            named: self.named + 1,
            turn: 0,
            ..self
        }
    }

    /// The cursor after the path of the lowest turn was asked for again.
    fn redone(self) -> Cursor
        requires some { 1 ≤ self.named }
        requires fits { self.turn + 1 < 2 ^ 32 }
        ensures { result ≡ redone_after self }
    {
        Cursor {
            named: self.named - 1,
            turn: self.turn + 1,
            ..self
        }
    }
}

/// 1 for a closed path, and 0 for any other.
fn closed_number(state: PathState) -> u32
    ensures { result ≡ cond (is_closed state) 1 0 }
{
    u32::from(matches!(state, PathState::Closed(_)))
}

/// The path after its driver's session ended like this.
fn swept_path(was: Path, driver: u32, sweep: Sweep) -> Path
    ensures { result ≡ swept_path driver sweep was }
{
    let pending = matches!(was.state, PathState::Delayed | PathState::Named(_));
    let state = match sweep {
        Sweep::Lose if pending && is_at(was.start, driver) => PathState::Heard(Heard::Lost),
        Sweep::OutOfMemory if pending && is_at(was.start, driver) => PathState::Heard(
            Heard::OutOfMemory,
        ),
        _ => was.state,
    };
    Path {
        start: was.start,
        state,
    }
}

/// Ends the driver's delayed and named paths, which are from `first` on and before `end`.
fn sweep_paths(paths: &mut [Path], driver: u32, sweep: Sweep, first: u32, end: u32)
    requires within { IsWithin paths.old driver first end }
    requires end_fits { end ≤ length paths.old }
    ensures { paths.new ≡ swept_paths driver sweep paths.old }
{
    for at in first..end {
        paths[at as usize] = swept_path(paths[at as usize], driver, sweep);
    }
}

impl State {
    /// Makes the change.
    pub(crate) fn apply(&mut self, effect: Effect)
        requires { IsFollowable self.old effect }
        ensures { self.new ≡ after self.old effect }
    {
        match effect {
            Effect::Moves { path, state } => self.settle(path, state),
            Effect::Switches {
                driver,
                state,
                sweep,
            } => {
                self.turn(driver, state);
                self.sweep(driver, sweep);
            }
            Effect::Both {
                path,
                state,
                driver,
                next,
                sweep,
            } => {
                self.advance(path, state, driver, next);
                self.sweep(driver, sweep);
            }
        }
    }

    fn settle(&mut self, path: u32, state: PathState)
        requires { IsFollowable self.old (Moves path state) }
        ensures { self.new ≡ after self.old (Moves path state) }
    {
        let was = self.paths[path as usize];
        self.paths[path as usize] = Path {
            start: was.start,
            state,
        };
        self.unclosed -= closed_number(state);
    }

    fn turn(&mut self, driver: u32, state: DriverState)
        requires { IsFollowable self.old (Switches driver state Keep) }
        ensures { self.new ≡ after self.old (Switches driver state Keep) }
    {
        self.drivers[driver as usize] = state;
    }

    fn advance(&mut self, path: u32, state: PathState, driver: u32, next: DriverState)
        requires { IsFollowable self.old (Both path state driver next Keep) }
        ensures { self.new ≡ after self.old (Both path state driver next Keep) }
    {
        let cursor = self.cursor(driver);
        let was = self.paths[path as usize];
        self.cursors[driver as usize] = cursor.after(path, was.state, state);
        self.paths[path as usize] = Path {
            start: was.start,
            state,
        };
        self.drivers[driver as usize] = next;
    }

    fn sweep(&mut self, driver: u32, sweep: Sweep)
        requires { driver < length self.old.drivers }
        ensures { self.new ≡ all_swept driver sweep self.old }
    {
        if matches!(sweep, Sweep::Keep) {
            return;
        }
        let cursor = self.cursor(driver);
        sweep_paths(
            self.paths.as_mut_slice(),
            driver,
            sweep,
            cursor.first,
            cursor.end,
        );
        self.cursors[driver as usize] = Cursor {
            unasked: cursor.unasked,
            first: 0,
            end: 0,
            named: 0,
            turn: 0,
        };
    }
}
