//! The words of a line of the report.
ghost use Rattle.std.specs.Prelude.{◌≡◌};
ghost use Rattle.checkout_report.specs.Report.{word_of, cause_of};
ghost use Rattle.checkout_report.specs.Rows.{is_unencoded};

use checkout_core::Verdict;

/// What happened to the path.
pub fn word_of(verdict: Verdict) -> &'static str
    ensures { result.now ≡ word_of verdict }
{
    match verdict {
        Verdict::Written { .. } => "written",
        Verdict::Unfiltered { .. } => "unfiltered",
        Verdict::Failed(_) => "failed",
        Verdict::NoMemory => "no-memory",
        Verdict::Skipped(_) => "skipped",
    }
}

/// Whether the content was left as it is because it isn't UTF-8.
pub fn is_unencoded(verdict: Verdict) -> bool
    ensures { result ≡ is_unencoded verdict }
{
    match verdict {
        Verdict::Written { unencoded } | Verdict::Unfiltered { unencoded, .. } => unencoded,
        Verdict::Failed(_) | Verdict::NoMemory | Verdict::Skipped(_) => false,
    }
}

/// The cause of the path's word.
pub fn cause_of(verdict: Verdict) -> &'static str
    ensures { result.now ≡ cause_of verdict }
{
    match verdict {
        Verdict::Written { .. } | Verdict::NoMemory => "-",
        Verdict::Unfiltered { cause, .. } => cause.word(),
        Verdict::Failed(cause) => cause.word(),
        Verdict::Skipped(cause) => cause.word(),
    }
}
