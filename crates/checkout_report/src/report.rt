ghost use Rattle.std.specs.Prelude.{◌≡◌, ◌++◌, ◌∷◌, IfOk, OnOk, length, count_by, string_bytes};
ghost use Rattle.checkout_report.specs.Report.{is_written, is_unfiltered, is_failed, is_skipped};
ghost use Rattle.checkout_report.specs.Report.{line_of, numbers_line, done_line, report_of};

use crate::laws::reports_are_rows;
use crate::rows::Report;
use byte_path::Bytes;
use checkout_core::Verdict;
use edge_kit::Mark;
use reports::{ReportForm, joined_rows};
use std::alloc::{AllocError, Global};

/// A path as the report shows it.
#[derive(Drop)]
pub struct ReportPath {
    pub path: Bytes,
    pub mark: Mark,
}

fn is_written(verdict: &Verdict) -> bool
    ensures { result ≡ is_written verdict.now }
{
    matches!(verdict, Verdict::Written { .. })
}

fn is_unfiltered(verdict: &Verdict) -> bool
    ensures { result ≡ is_unfiltered verdict.now }
{
    matches!(verdict, Verdict::Unfiltered { .. })
}

/// Whether the path of a verdict failed.
pub fn is_failed(verdict: &Verdict) -> bool
    ensures { result ≡ is_failed verdict.now }
{
    matches!(verdict, Verdict::Failed(_))
}

fn is_skipped(verdict: &Verdict) -> bool
    ensures { result ≡ is_skipped verdict.now }
{
    matches!(verdict, Verdict::Skipped(_))
}

/// How many paths were written.
pub fn written_count(verdicts: &[Verdict]) -> usize
    ensures { result ≡ count_by is_written verdicts.now }
{
    verdicts.iter().filter(|v| is_written(v)).count()
}

/// How many paths were written as their driver left them.
pub fn unfiltered_count(verdicts: &[Verdict]) -> usize
    ensures { result ≡ count_by is_unfiltered verdicts.now }
{
    verdicts.iter().filter(|v| is_unfiltered(v)).count()
}

/// How many paths failed.
pub fn failed_count(verdicts: &[Verdict]) -> usize
    ensures { result ≡ count_by is_failed verdicts.now }
{
    verdicts.iter().filter(|v| is_failed(v)).count()
}

/// How many paths were skipped.
pub fn skipped_count(verdicts: &[Verdict]) -> usize
    ensures { result ≡ count_by is_skipped verdicts.now }
{
    verdicts.iter().filter(|v| is_skipped(v)).count()
}

/// The report of a checkout: a line for each path with its verdict, and the line of the numbers.
///
/// A line is a word, a mark, a note, a cause and the quoted path, with a space between.
pub fn report_text(
    alloc: Global,
    paths: &[ReportPath],
    verdicts: &[Verdict],
) -> Result<Vec<u8>, AllocError>
    requires { length paths.now ≡ length verdicts.now }
    ensures { IfOk result (λ v. v.items ≡ report_of paths.now verdicts.now) }
{
    reports_are_rows();
    joined_rows(alloc, ReportForm::Text, &Report { paths, verdicts })
}
