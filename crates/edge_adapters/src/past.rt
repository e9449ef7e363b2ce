//! A list that contracts alone read.
ghost use Rattle.std.specs.Prelude.{◌≡◌, ◌++◌, ◌∷◌, []};
ghost use Rattle.edge_adapters.specs.Pasts.{items};

use std::snapshot::Snapshot;

/// What came before, in order. Contracts alone read it, so it takes no memory.
#[derive(Drop)]
pub enum Past<T> {
    Nothing,
    /// What came before the last, and the last.
    Then(Snapshot<Past<T>>, Snapshot<T>),
}

impl<T> Past<T> {
    /// Adds one more behind the others.
    pub fn push(&mut self, last: &T)
        ensures { items self.new ≡ items self.old ++ last.now ∷ [] }
    {
        *self = Past::Then(Snapshot::of(self), Snapshot::of(last));
    }
}
