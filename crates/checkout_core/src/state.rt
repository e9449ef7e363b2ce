//! The state of a checkout: its paths and its drivers.
ghost use Rattle.std.specs.Prelude.{◌≡◌, ◌==◌, ◌+◌, ◌<◌, ◌≤◌, ◌^◌, ◌&&◌, nat_lt, length, ℕ, true, false, slice_get};
ghost use Rattle.std.specs.Prelude.{Some};
ghost use Rattle.checkout_core.specs.States.{Core, verdict_at, unclosed_count, is_at, is_unasked, lowest_unasked};
ghost use Rattle.checkout_core.specs.States.{none_below, none_of, named_count, is_named, is_named_below};
ghost use Rattle.checkout_core.specs.Cursors.{IsSound, asks, IsCursor, NamedThere, HoldsAt};
ghost use Rattle.checkout_core.specs.declared.path.Path.{Path};

mod apply;
mod start;

use crate::cursor::Cursor;
use crate::driver::DriverState;
use crate::path::{Path, PathState, Start};
use crate::verdict::Verdict;
use std::marker::Model;

/// The paths of a checkout and the drivers that convert them, as the events so far left them.
#[derive(Drop)]
pub struct State {
    workers: u32,
    drivers: Vec<DriverState>,
    /// One for each driver.
    cursors: Vec<Cursor>,
    paths: Vec<Path>,
    unclosed: u32,
}

impl Model for State {
    ghost Value = { Core };

    ghost view = { λ s. record { workers = s.workers; drivers = s.drivers.items; paths = s.paths.items } };

    ghost invariant = { λ s. IsSound s.workers s.paths.items s.drivers.items s.cursors.items s.unclosed };
}

/// Whether a path is one of this driver's.
fn is_at(start: Start, driver: u32) -> bool
    ensures { result ≡ is_at driver start }
{
    match start {
        Start::Desk { driver: own, .. } => driver == own,
        _ => false,
    }
}

/// Whether the driver still has to be asked for a path.
fn asks(path: &Path, driver: u32) -> bool
    ensures { result ≡ asks driver path.now }
{
    is_at(path.start, driver) && matches!(path.state, PathState::Unasked)
}

/// The first path from this one on that the driver has to be asked for, or the number of paths.
fn next_unasked(paths: &[Path], driver: u32, from: u32) -> u32
    requires few { length paths.now < 2 ^ 32 }
    requires within { from ≤ length paths.now }
    ensures range { (from ≤ result) × (result ≤ length paths.now) }
    ensures before { (p : ℕ) (r : Path) → from ≤ p → p < result → slice_get paths.now p ≡ Some r
        → asks driver r ≡ false }
    ensures found { result < length paths.now → HoldsAt (λ r. asks driver r) paths.now result }
{
    let end = paths.len() as u32;
    for at in from..end {
        if asks(&paths[at as usize], driver) {
            return at;
        }
    }
    end
}

impl State {
    /// The verdict of this path, or `None` if it isn't closed or there is no such path.
    pub fn verdict(&self, path: u32) -> Option<Verdict>
        ensures { result ≡ verdict_at self.now path }
    {
        match self.path_at(path)?.state {
            PathState::Closed(verdict) => Some(verdict),
            _ => None,
        }
    }

    /// How many paths aren't closed.
    pub fn unclosed(&self) -> u32
        ensures { result ≡ unclosed_count self.now.paths }
    {
        self.unclosed
    }

    /// The path with this number.
    pub(crate) fn path_at(&self, path: u32) -> Option<Path>
        ensures { result ≡ slice_get self.now.paths path }
    {
        self.paths.get(path as usize).copied()
    }

    /// The driver with this number.
    pub(crate) fn driver_at(&self, driver: u32) -> Option<DriverState>
        ensures { result ≡ slice_get self.now.drivers driver }
    {
        self.drivers.get(driver as usize).copied()
    }

    pub(crate) fn is_actor(&self, actor: u32) -> bool
        ensures { result ≡ nat_lt actor (self.now.workers + length self.now.drivers) }
    {
        (actor as usize) < self.workers as usize + self.drivers.len()
    }

    /// Whether this actor is the desk of the driver.
    pub(crate) fn is_desk(&self, actor: u32, driver: u32) -> bool
        ensures { result ≡ (actor == self.now.workers + driver) }
    {
        u64::from(actor) == u64::from(self.workers) + u64::from(driver)
    }

    fn cursor(&self, driver: u32) -> Cursor
        requires { driver < length self.now.drivers }
        ensures { IsCursor self.now driver result }
    {
        self.cursors[driver as usize]
    }

    /// The lowest path that the driver still has to be asked for.
    pub(crate) fn lowest_unasked(&mut self, driver: u32) -> Option<u32>
        requires { driver < length self.old.drivers }
        ensures same { self.new ≡ self.old }
        ensures lowest { result ≡ lowest_unasked driver self.old.paths }
    {
        let cursor = self.cursor(driver);
        let at = next_unasked(self.paths.as_slice(), driver, cursor.unasked);
        self.cursors[driver as usize] = Cursor {
            unasked: at,
            ..cursor
        };
        if (at as usize) < self.paths.len() {
            Some(at)
        } else {
            None
        }
    }

    /// Whether the driver has no path left to be asked for.
    pub(crate) fn all_asked(&mut self, driver: u32) -> bool
        requires { driver < length self.old.drivers }
        ensures same { self.new ≡ self.old }
        ensures asked { result ≡ none_of driver is_unasked self.old.paths }
    {
        self.lowest_unasked(driver).is_none()
    }

    /// Whether this path is the lowest that its driver still has to be asked for.
    pub(crate) fn is_next(&mut self, path: u32, driver: u32, was: Path) -> bool
        requires seated { driver < length self.old.drivers }
        requires there { slice_get self.old.paths path ≡ Some was }
        requires begun { is_at driver was.start ≡ true }
        ensures same { self.new ≡ self.old }
        ensures next { result ≡ (is_unasked was.state && none_below self.old driver path) }
    {
        match self.lowest_unasked(driver) {
            Some(lowest) => lowest == path,
            None => false,
        }
    }

    /// How many of the driver's paths are named.
    pub(crate) fn named_count(&self, driver: u32) -> u32
        requires { driver < length self.now.drivers }
        ensures { result ≡ named_count driver self.now.paths }
    {
        self.cursor(driver).named
    }

    /// Whether none of the driver's paths is named.
    pub(crate) fn none_named(&self, driver: u32) -> bool
        requires { driver < length self.now.drivers }
        ensures { result ≡ none_of driver is_named self.now.paths }
    {
        self.named_count(driver) == 0
    }

    /// Whether no path of the driver is named at a lower turn than this path.
    pub(crate) fn is_lowest_turn(&self, path: u32, driver: u32, turn: u32) -> bool
        requires seated { driver < length self.now.drivers }
        requires there { NamedThere self.now path driver turn }
        ensures { result ≡ none_of driver (is_named_below turn) self.now.paths }
    {
        turn == self.cursor(driver).turn
    }
}
