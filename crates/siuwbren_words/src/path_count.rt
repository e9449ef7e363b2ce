//! A number of a rehearsal's paths.
ghost use Rattle.std.specs.Prelude.{◌≡◌, ◌≤◌};

use std::fmt;
use std::marker::Model;

/// A number of a rehearsal's paths, up to 99,999. Contracts see the number.
#[derive(Clone, Copy)]
pub struct PathCount {
    number: u32,
}

impl Model for PathCount {
    ghost use Rattle.std.specs.Prelude.{ℕ, ◌≤◌};

    ghost Value = { ℕ };

    ghost view = { λ c. c.number };

    ghost inverse = { λ n. record { number = n } };

    ghost invariant = { λ c. c.number ≤ 99999 };
}

impl PathCount {
    /// This number.
    pub(crate) fn new(number: u32) -> PathCount
        requires { number ≤ 99999 }
        ensures { result ≡ number }
    {
        PathCount { number }
    }

    /// The number, which is within the engine's limits.
    pub fn number(self) -> u32
        ensures same { result ≡ self }
        ensures few { result ≤ 99999 }
    {
        self.number
    }
}

impl fmt::Debug for PathCount {
    fn fmt<W: fmt::Write>(&self, f: &mut fmt::Formatter<W>) -> fmt::Result {
        write!(f, "{:?}", self.number)
    }
}
