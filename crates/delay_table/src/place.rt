//! One place of a table.
ghost use Rattle.std.specs.Prelude.{◌≡◌, ◌≢◌, Some, MatchBool};
ghost use Rattle.delay_table.specs.Table.{is_pending};
ghost use Rattle.delay_table.specs.declared.place.Place.TheVariants.{Delayed, Listed};

/// The state of one name.
#[derive(Clone, Copy)]
pub enum Place {
    /// It wasn't delayed.
    Idle,
    /// The driver delayed it.
    Delayed,
    /// The driver listed it after that, so it can be asked for again.
    Listed,
    /// It was delivered, or given up.
    Done,
}

impl Place {
    /// Whether it is delayed or listed.
    pub(crate) fn is_pending(self) -> bool
        ensures { result ≡ is_pending (Some self) }
    {
        matches!(self, Place::Delayed | Place::Listed)
    }

    pub(crate) fn is_delayed(self) -> bool
        ensures { MatchBool result (self ≡ Delayed) (self ≢ Delayed) }
    {
        matches!(self, Place::Delayed)
    }

    pub(crate) fn is_listed(self) -> bool
        ensures { MatchBool result (self ≡ Listed) (self ≢ Listed) }
    {
        matches!(self, Place::Listed)
    }
}
