//! What a value under the lock tells.
ghost use Rattle.std.specs.Prelude.{ℕ, List};

/// A value that keeps a history. Its members are for contracts alone, so none of them runs.
pub trait Kept {
    /// An entry of the history.
    type Entry;

    /// What is fixed when the lock is made.
    type Told;

    /// The entries, in order, each with the number of its seat.
    ghost history: { Self → List (ℕ × Self.Entry) };

    /// What the value is made for: the data that `make` fixes.
    ghost told: { Self → Self.Told };

    /// The value agrees with these data.
    ghost fits: { Self → Self.Told → Type 0 };
}
