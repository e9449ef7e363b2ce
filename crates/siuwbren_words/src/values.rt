//! The values of options and flags, and what is wrong with them.
ghost use Rattle.std.specs.Prelude.{◌≡◌, ◌^◌, ◌-◌, option_map, option_and_then};
ghost use Rattle.std.specs.Result.{result_ok};
ghost use Rattle.clap.specs.Words.{first_of, found_of, rows_of};
ghost use Rattle.byte_path.specs.Decimal.{decimal_within};
ghost use Rattle.siuwbren_words.specs.Values.{is_set, workers_of, text_form, other_form};
ghost use Rattle.siuwbren_words.specs.Values.{plan_form, report_form, progress_of};

use crate::command::ProgressChoice;
use crate::path_count::PathCount;
use crate::worker_count::WorkerCount;
use byte_path::read_decimal;
use clap::ArgMatches;
use reports::ReportForm;
use std::fmt;

/// A value that an option or a place can't have.
#[derive(Clone, Copy, Debug)]
pub enum Mistake<'a> {
    Workers(&'a str),
    /// The form of a checkout's report.
    Report(&'a str),
    /// The form of a plan.
    PlanReport(&'a str),
    /// `-z` with a form that has no lines of text.
    NulWith(&'a str),
    /// `--progress` and `--no-progress`.
    BothProgress,
    NoCommand,
    NoTree,
    NoSeed,
    NoPaths,
    NoFile,
    Seed(&'a str),
    Paths(&'a str),
}

impl fmt::Display for Mistake<'_> {
    fn fmt<W: fmt::Write>(&self, f: &mut fmt::Formatter<W>) -> fmt::Result {
        match self {
            Mistake::Workers(value) => {
                write!(f, "invalid value '{value}' for '--workers': 1 to 16")
            }
            Mistake::Report(value) => {
                write!(
                    f,
                    "invalid value '{value}' for '--report': text, json or none"
                )
            }
            Mistake::PlanReport(value) => {
                write!(f, "invalid value '{value}' for '--report': text or json")
            }
            Mistake::NulWith(value) => {
                write!(
                    f,
                    "the argument '-z' cannot be used with '--report {value}'"
                )
            }
            Mistake::BothProgress => f.write_str(
                "the argument '--progress' cannot be used with '--no-progress'",
            ),
            Mistake::NoCommand => f.write_str("the command is missing"),
            Mistake::NoTree => f.write_str("TREE is missing"),
            Mistake::NoSeed => f.write_str("SEED is missing"),
            Mistake::NoPaths => f.write_str("PATHS is missing"),
            Mistake::NoFile => f.write_str("FILE is missing"),
            Mistake::Seed(value) => write!(
                f,
                "invalid value '{value}' for 'SEED': 0 to 18446744073709551615"
            ),
            Mistake::Paths(value) => {
                write!(f, "invalid value '{value}' for 'PATHS': 0 to 99999")
            }
        }
    }
}

/// The value of an option or of a place.
pub fn value_of<'a>(matches: &ArgMatches<'a>, name: &str) -> Option<&'a str>
    ensures { option_map (λ text. text.now) result ≡ first_of name.now (rows_of (found_of matches.now)) }
{
    matches.get_str(name)
}

/// Whether a flag is given.
pub fn has_flag(matches: &ArgMatches<'_>, name: &str) -> bool
    ensures { result ≡ is_set (first_of name.now (rows_of (found_of matches.now))) }
{
    match value_of(matches, name) {
        Some(text) => text == "true",
        None => false,
    }
}

/// A number of workers: a decimal from 1 to 16.
pub fn workers_of(word: Option<&str>) -> Result<Option<WorkerCount>, Mistake<'_>>
    ensures { result_ok result ≡ workers_of (option_map (λ text. text.now) word.entry) }
{
    let Some(text) = word else {
        return Ok(None);
    };
    match read_decimal(text.as_bytes(), 16) {
        Some(number) if number >= 1 => Ok(Some(WorkerCount::new(number as u32))),
        _ => Err(Mistake::Workers(text)),
    }
}

/// The form of a text.
fn text_form(nul: bool) -> ReportForm
    ensures { result ≡ text_form nul }
{
    if nul {
        ReportForm::Nul
    } else {
        ReportForm::Text
    }
}

/// A form that isn't a text, which `-z` says nothing of.
fn other_form(word: &str, nul: bool, form: ReportForm) -> Result<ReportForm, Mistake<'_>>
    ensures { result_ok result ≡ other_form nul form }
{
    if nul {
        return Err(Mistake::NulWith(word));
    }
    Ok(form)
}

/// The form of a plan.
pub fn plan_form(word: Option<&str>, nul: bool) -> Result<ReportForm, Mistake<'_>>
    ensures { result_ok result ≡ plan_form (option_map (λ text. text.now) word.entry) nul }
{
    let Some(word) = word else {
        return Ok(text_form(nul));
    };
    match word {
        "text" => Ok(text_form(nul)),
        "json" => other_form(word, nul, ReportForm::Json),
        _ => Err(Mistake::PlanReport(word)),
    }
}

/// The form of a checkout's report.
pub fn report_form(word: Option<&str>, nul: bool) -> Result<ReportForm, Mistake<'_>>
    ensures { result_ok result ≡ report_form (option_map (λ text. text.now) word.entry) nul }
{
    let Some(word) = word else {
        return Ok(text_form(nul));
    };
    match word {
        "text" => Ok(text_form(nul)),
        "json" => other_form(word, nul, ReportForm::Json),
        "none" => other_form(word, nul, ReportForm::Failures),
        _ => Err(Mistake::Report(word)),
    }
}

/// Where progress is shown.
pub fn progress_of(
    shown: bool,
    hidden: bool,
    quiet: bool,
) -> Result<ProgressChoice, Mistake<'static>>
    ensures { result_ok result ≡ progress_of shown hidden quiet }
{
    match (shown, hidden) {
        (true, true) => Err(Mistake::BothProgress),
        (true, false) => Ok(ProgressChoice::Shown),
        (false, true) => Ok(ProgressChoice::Hidden),
        (false, false) if quiet => Ok(ProgressChoice::Hidden),
        (false, false) => Ok(ProgressChoice::OnTerminal),
    }
}

/// SEED: a decimal up to 2^64 - 1.
pub fn seed_of(word: Option<&str>) -> Result<u64, Mistake<'_>>
    ensures { result_ok result ≡ option_and_then (λ text. decimal_within text (2 ^ 64 - 1))
        (option_map (λ text. text.now) word.entry) }
{
    let Some(text) = word else {
        return Err(Mistake::NoSeed);
    };
    match read_decimal(text.as_bytes(), u64::MAX) {
        Some(seed) => Ok(seed),
        None => Err(Mistake::Seed(text)),
    }
}

/// PATHS: a decimal up to 99,999.
pub fn paths_of(word: Option<&str>) -> Result<PathCount, Mistake<'_>>
    ensures { result_ok result ≡ option_and_then (λ text. decimal_within text 99999)
        (option_map (λ text. text.now) word.entry) }
{
    let Some(text) = word else {
        return Err(Mistake::NoPaths);
    };
    match read_decimal(text.as_bytes(), 99_999) {
        Some(paths) => Ok(PathCount::new(paths as u32)),
        None => Err(Mistake::Paths(text)),
    }
}
