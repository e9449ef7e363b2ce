//! What holds of the drivers of a plan.
ghost use Rattle.checkout_paths.specs.Cards.{DriversAreInUse};

/// Each driver that a path begins with is one of those in use, where each path at a desk has its driver. It does
/// nothing.
pub fn drivers_are_in_use()
    ensures { DriversAreInUse }
{}
