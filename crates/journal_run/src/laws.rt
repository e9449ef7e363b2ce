//! What follows of an answer. The functions do nothing.
ghost use Rattle.journal_run.specs.Laws.{OneFinding, RunsAreLegal, RehearsalsAreLegal, CheckoutsAreLegal};

use core_laws::laws;
use journal_audit::{journal_fits_audit, text_has_one_audit};

/// Of a file that is told one thing is found. So each answer of `journal_run` comes exactly where it is the file's.
pub fn a_file_has_one_finding()
    ensures { OneFinding }
{
    text_has_one_audit();
}

/// The audit of the journal of a complete run is Legal, with no path open, and it is small enough to be judged.
pub fn runs_are_legal()
    ensures { RunsAreLegal }
{
    laws::complete_is_none_unclosed();
    laws::a_history_is_short();
    journal_fits_audit();
}

/// The journal of a rehearsal, as `journal` writes it with status 0, passes `audit`.
pub fn rehearsals_are_legal()
    ensures { RehearsalsAreLegal }
{
    runs_are_legal();
}

/// The journal of a checkout that is done passes `audit`.
pub fn checkouts_are_legal()
    ensures { CheckoutsAreLegal }
{
    runs_are_legal();
}
