//! The words that ask for a journal, or for the audit of one.
ghost use Rattle.std.specs.Prelude.{◌≡◌, ◌-◌, ◌^◌, map, string_bytes, IfSome};
ghost use Rattle.byte_path.specs.Decimal.{decimal_within};
ghost use Rattle.journal_run.specs.Words.{names_journal, with_numbers, named_task, asked, HasFewPaths};

use byte_path::read_decimal;

/// What words ask for.
#[derive(Clone, Copy)]
pub enum JournalTask {
    /// The journal of a rehearsal of this many paths, up to 99,999.
    Rehearsal { seed: u64, paths: u32 },
    /// The audit of the file REPO.
    Audit,
}

/// Whether words ask for a journal or for an audit: whether the third is `journal` or `audit`.
pub fn is_journal(words: &[String]) -> bool
    ensures { result ≡ names_journal (map string_bytes words.now) }
{
    match words {
        [_, _, name, ..] => name.as_str() == "journal" || name.as_str() == "audit",
        _ => false,
    }
}

/// The rehearsal of two numbers.
fn rehearsal_of(seed: &str, paths: &str) -> Option<JournalTask>
    ensures { result ≡
        with_numbers (decimal_within seed.now (2 ^ 64 - 1)) (decimal_within paths.now 99999) }
{
    let seed = read_decimal(seed.as_bytes(), u64::MAX)?;
    let paths = read_decimal(paths.as_bytes(), 99_999)?;
    Some(JournalTask::Rehearsal {
        seed,
        paths: paths as u32,
    })
}

/// What a name and its tail ask for.
fn named_task(name: &str, tail: &[String]) -> Option<JournalTask>
    ensures { result ≡ named_task name.now (map string_bytes tail.now) }
{
    match tail {
        [] if name == "audit" => Some(JournalTask::Audit),
        [seed, paths] if name == "journal" => rehearsal_of(seed.as_str(), paths.as_str()),
        _ => None,
    }
}

/// What words ask for: `REPO TREE journal SEED PATHS` or `REPO TREE audit`. REPO and TREE may be any text.
pub fn task_of(words: &[String]) -> Option<JournalTask>
    ensures task { result ≡ asked words.now }
    ensures few { IfSome result HasFewPaths }
{
    match words {
        [_, _, name, tail @ ..] => named_task(name.as_str(), tail),
        _ => None,
    }
}
