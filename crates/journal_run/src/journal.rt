//! The journal of a run.
ghost use Rattle.std.specs.Prelude.{IfOk};
ghost use Rattle.checkout_engine.specs.Small.{IsSmall};
ghost use Rattle.journal_run.specs.Journals.{IsRunJournal};

use checkout_engine::CheckoutRun;
use checkout_paths::starts_of;
use std::alloc::{AllocError, Global};

/// The journal of a run: how its paths began, its workers and drivers, and all that happened.
pub fn print_journal(alloc: Global, run: &CheckoutRun) -> Result<Vec<u8>, AllocError>
    // The run of each checkout and of each rehearsal is.
    requires small { IsSmall run.now }
    ensures { IfOk result (λ text. IsRunJournal run.now text.items) }
{
    let starts = starts_of(alloc, run.plan.paths.as_slice())?;
    let drivers = run.plan.drivers.as_slice().len() as u32;
    journal_audit::print_journal(alloc, &starts, run.workers, drivers, &run.history)
}
