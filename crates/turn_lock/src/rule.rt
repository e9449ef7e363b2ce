//! The rule that each use of the lock's table keeps, and what each step tells.
use crate::kept::Kept;
use crate::view::Knows;
use atomic_table::{Join, Play, Split, TableRule};
use std::snapshot::Snapshot;

pub struct Law;

impl<T: Kept> TableRule<Option<T>, Knows<T::Entry, T::Told>, Snapshot<T>> for Law {
    ghost use Rattle.turn_lock.specs.Rule.{Ruled, opened};

    ghost holds = { λ key. Ruled T.history T.fits (T.told key.value) };

    ghost first = { λ key. opened (T.told key.value) };
}

pub struct Try;

impl<T: Kept> Play<Option<T>, Knows<T::Entry, T::Told>> for Try {
    ghost use Rattle.turn_lock.specs.Rule.{tried};

    ghost then = { tried T.history T.fits };
}

pub struct Leave;

impl<T: Kept> Play<Option<T>, Knows<T::Entry, T::Told>> for Leave {
    ghost use Rattle.turn_lock.specs.Rule.{passed};

    ghost then = { passed T.history };
}

pub struct Cut;

impl<E, D> Split<Knows<E, D>> for Cut {
    ghost use Rattle.turn_lock.specs.Rule.{gave, newcomer};

    ghost left = { gave };

    ghost right = { newcomer };
}

pub struct Gather;

impl<E, D> Join<Knows<E, D>> for Gather {
    ghost use Rattle.turn_lock.specs.Rule.{joined};
    ghost use Rattle.turn_lock.specs.declared.view.Knows.TheVariants.{Spent};

    ghost both = { joined };

    ghost spent = { Spent };
}
