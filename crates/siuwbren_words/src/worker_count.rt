//! A number of workers.
ghost use Rattle.std.specs.Prelude.{◌≡◌, ◌≤◌};

use std::fmt;
use std::marker::Model;

/// A number of workers, from 1 to 16. Contracts see the number.
#[derive(Clone, Copy)]
pub struct WorkerCount {
    number: u32,
}

impl Model for WorkerCount {
    ghost use Rattle.std.specs.Prelude.{ℕ, ◌≤◌};

    ghost Value = { ℕ };

    ghost view = { λ c. c.number };

    ghost inverse = { λ n. record { number = n } };

    ghost invariant = { λ c. (1 ≤ c.number) × (c.number ≤ 16) };
}

impl WorkerCount {
    /// This number.
    pub(crate) fn new(number: u32) -> WorkerCount
        requires some { 1 ≤ number }
        requires few { number ≤ 16 }
        ensures { result ≡ number }
    {
        WorkerCount { number }
    }

    /// The number.
    pub fn number(self) -> u32
        ensures same { result ≡ self }
        ensures some { 1 ≤ result }
        ensures few { result ≤ 16 }
    {
        self.number
    }
}

impl fmt::Debug for WorkerCount {
    fn fmt<W: fmt::Write>(&self, f: &mut fmt::Formatter<W>) -> fmt::Result {
        write!(f, "{:?}", self.number)
    }
}
