//! What follows from the contracts of a reading.
ghost use Rattle.checkout_sources.specs.CutShort.{ReadingsLeaveParts};

/// Where memory runs out once a plan is read, or at the line of a refusal, the repository is left as by a reading that
/// memory cut short. Where a reading is refused or cut short, no read of the repository failed.
pub fn readings_leave_parts()
    ensures { ReadingsLeaveParts }
{}
