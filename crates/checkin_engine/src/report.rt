//! The report of a check-in.
ghost use Rattle.std.specs.Prelude.{◌≡◌, IfOk, count_by};
ghost use Rattle.checkin_engine.specs.Report.{is_same, is_changed, is_gone, is_kept_fate, is_failed, report_of};
ghost use Rattle.std.specs.List.{list_any};

use crate::laws::checkins_are_rows;
use crate::rows::CheckinReport;
use checkin_paths::{CheckinPath, Fate};
use reports::{ReportForm, joined_rows};
use std::alloc::{AllocError, Global};

fn is_same(fate: &Fate) -> bool
    ensures { result ≡ is_same fate.now }
{
    matches!(fate, Fate::Same)
}

fn is_changed(fate: &Fate) -> bool
    ensures { result ≡ is_changed fate.now }
{
    matches!(fate, Fate::Changed(_))
}

fn is_gone(fate: &Fate) -> bool
    ensures { result ≡ is_gone fate.now }
{
    matches!(fate, Fate::Gone)
}

fn is_kept(fate: &Fate) -> bool
    ensures { result ≡ is_kept_fate fate.now }
{
    matches!(fate, Fate::Kept)
}

fn is_failed(fate: &Fate) -> bool
    ensures { result ≡ is_failed fate.now }
{
    matches!(fate, Fate::Failed(_))
}

/// Whether some path failed.
pub fn has_failed(fates: &[Fate]) -> bool
    ensures { result ≡ list_any is_failed fates.now }
{
    fates.iter().any(|fate| is_failed(fate))
}

/// How many paths have the objects of their entries.
pub fn same_count(fates: &[Fate]) -> usize
    ensures { result ≡ count_by is_same fates.now }
{
    fates.iter().filter(|fate| is_same(fate)).count()
}

/// How many paths have other objects.
pub fn changed_count(fates: &[Fate]) -> usize
    ensures { result ≡ count_by is_changed fates.now }
{
    fates.iter().filter(|fate| is_changed(fate)).count()
}

/// How many paths have no files.
pub fn gone_count(fates: &[Fate]) -> usize
    ensures { result ≡ count_by is_gone fates.now }
{
    fates.iter().filter(|fate| is_gone(fate)).count()
}

/// How many paths keep their entries.
pub fn kept_count(fates: &[Fate]) -> usize
    ensures { result ≡ count_by is_kept_fate fates.now }
{
    fates.iter().filter(|fate| is_kept(fate)).count()
}

/// How many paths failed.
pub fn failed_count(fates: &[Fate]) -> usize
    ensures { result ≡ count_by is_failed fates.now }
{
    fates.iter().filter(|fate| is_failed(fate)).count()
}

/// The report of a check-in: a line for each path, and the line of the numbers.
pub fn report_text(
    alloc: Global,
    paths: &[CheckinPath],
    fates: &[Fate],
) -> Result<Vec<u8>, AllocError>
    ensures { IfOk result (λ v. v.items ≡ report_of paths.now fates.now) }
{
    checkins_are_rows();
    joined_rows(alloc, ReportForm::Text, &CheckinReport { paths, fates })
}
