//! Laws of the definitions.
ghost use Rattle.attr_stack.specs.Decided.{IsDecidedByRule};

/// The law that the first pair of a name decides it, and that what the pair sets is read before the rest, however many
/// pairs that takes. It does nothing.
pub fn pairs_decide_by_rule()
    ensures { IsDecidedByRule }
{}
