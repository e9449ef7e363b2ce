//! The audit of a file.
ghost use Rattle.std.specs.Prelude.{◌≡◌, ◌⊎◌, Err, IfOk, string_bytes};
ghost use Rattle.journal_run.specs.declared.finding.FindFault.TheVariants.{NoMemory, ReadFault};
ghost use Rattle.journal_run.specs.Findings.{finding_line, status_of, Finds};

use edge_kit::{Blob, TakeFault};
use exit_status::ExitStatus;
use journal_audit::{Audit, audit};
use std::alloc::{AllocError, Global};

/// The most bytes of a journal that is judged.
const TEXT_LIMIT: u64 = 67_108_864;

/// What is found of a file that is judged.
#[derive(Clone, Copy)]
pub enum Finding {
    /// There is no such file.
    Absent,
    /// It has more than 67,108,864 bytes.
    TooLarge,
    Audited(Audit),
}

/// Why nothing is found.
#[derive(Clone, Copy)]
pub enum FindFault {
    /// The file couldn't be read, and its count of faults rose.
    ReadFault,
    NoMemory,
}

impl From<AllocError> for FindFault {
    ghost from_gives = { λ _ fault. fault ≡ NoMemory };

    fn from(_: AllocError) -> Self {
        FindFault::NoMemory
    }
}

/// The status that goes with a finding.
pub fn status_of(finding: Finding) -> ExitStatus
    ensures { result ≡ status_of finding }
{
    match finding {
        Finding::Absent | Finding::TooLarge => ExitStatus::Refused,
        Finding::Audited(Audit::Unreadable { .. }) => ExitStatus::Refused,
        Finding::Audited(Audit::Illegal { .. }) => ExitStatus::DoneWithFailures,
        Finding::Audited(Audit::Legal { .. }) => ExitStatus::Done,
    }
}

/// The line that says what is found.
pub fn finding_line(alloc: Global, finding: Finding) -> Result<String, AllocError>
    ensures { IfOk result (λ s. string_bytes s ≡ finding_line finding) }
{
    match finding {
        Finding::Absent => String::from_str(alloc, "unreadable absent\n"),
        Finding::TooLarge => String::from_str(alloc, "unreadable too-large\n"),
        Finding::Audited(Audit::Unreadable { line }) => format!(in alloc; "unreadable {line}\n"),
        Finding::Audited(Audit::Illegal { line }) => format!(in alloc; "illegal {line}\n"),
        Finding::Audited(Audit::Legal { events, unclosed }) => {
            format!(in alloc; "legal {events} {unclosed}\n")
        }
    }
}

/// Reads a file and judges it.
pub fn find<B: Blob>(alloc: Global, file: &mut B) -> Result<Finding, FindFault>
    ensures told { B.told file.new ≡ B.told file.old }
    ensures kept { B.seen file.new ≡ record (B.seen file.old) { faults = (B.seen file.new).faults } }
    ensures still { (result ≡ Err ReadFault) ⊎ (B.seen file.new ≡ B.seen file.old) }
    ensures finds { Finds (B.told file.old) (B.seen file.old).faults (B.seen file.new).faults result }
{
    match file.take_all(TEXT_LIMIT) {
        Ok(Some(text)) => Ok(Finding::Audited(audit(alloc, &text)?)),
        Ok(None) => Ok(Finding::Absent),
        Err(TakeFault::TooLong) => Ok(Finding::TooLarge),
        Err(TakeFault::Failed) => Err(FindFault::ReadFault),
        Err(TakeFault::NoMemory) => Err(FindFault::NoMemory),
    }
}
