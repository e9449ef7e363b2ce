//! The tail of the words, after a command's name, read with `clap`.
ghost use Rattle.std.specs.Prelude.{◌≡◌, true, map, codes, string_bytes, IfOk};
ghost use Rattle.std.specs.List.{list_any};
ghost use Rattle.std.specs.Str.{bytes_eq};
ghost use Rattle.clap.specs.Words.{app_of, first_value, found_of, is_simple_and_free};
ghost use Rattle.checkout_words.specs.Tail.{is_plain_tail, plan_app, checkout_app, checkout_by, rehearse_app};
ghost use Rattle.checkout_words.specs.Tail.{rehearse_by, fault_of_kind, rows_in, Finds};
ghost use Rattle.checkout_words.specs.Words.{workers_command, checkout_command, plan_command, rehearse_command, Reads};

use crate::{Command, WordFault};
use byte_path::read_decimal;
use clap::error::ErrorKind;
use clap::{Arg, ArgMatches};
use std::alloc::{AllocError, Global};

/// Whether some word of a tail is `--`.
fn has_end(tail: &[String]) -> bool
    ensures { result ≡ list_any (λ word. bytes_eq (string_bytes word) (codes "--")) tail.now }
{
    tail.iter().any(|word| word.as_str() == "--")
}

/// Whether a tail has at most two words, and none of them is `--`.
///
/// No command takes a third word, and `clap` would take `--` for the end of the options.
pub(crate) fn is_plain_tail(tail: &[String]) -> bool
    ensures { result ≡ is_plain_tail (map string_bytes tail.now) }
{
    tail.len() <= 2 && !has_end(tail)
}

/// A command of `clap` that takes no word: it has no flag for help or the version.
fn tail_parser<'a>(alloc: Global) -> clap::Command<'a>
    ensures { app_of result ≡ plan_app }
{
    clap::Command::new(alloc, "tail")
        .no_binary_name(true)
        .disable_help_flag(true)
        .disable_version_flag(true)
}

/// A command of `clap` that takes `--workers N` or `--workers=N`.
fn checkout_parser<'a>(alloc: Global) -> Result<clap::Command<'a>, AllocError>
    ensures { IfOk result (λ parser. app_of parser ≡ checkout_app) }
{
    let workers = Arg::new(alloc, "workers").long("workers");
    tail_parser(alloc).arg(workers)
}

/// A command of `clap` that takes two words, SEED and PATHS.
fn rehearse_parser<'a>(alloc: Global) -> Result<clap::Command<'a>, AllocError>
    ensures { IfOk result (λ parser. app_of parser ≡ rehearse_app) }
{
    let seed = Arg::new(alloc, "seed").required(true);
    let paths = Arg::new(alloc, "paths").required(true);
    tail_parser(alloc).arg(seed)?.arg(paths)
}

/// Out of memory, or a refusal of the words.
fn fault_of_kind(kind: ErrorKind) -> WordFault
    ensures { result ≡ fault_of_kind kind }
{
    match kind {
        ErrorKind::OutOfMemory => WordFault::NoMemory,
        _ => WordFault::Usage,
    }
}

/// The arguments that a tail gives to a parser.
fn matches_in<'a>(
    parser: clap::Command<'a>,
    tail: &'a [String],
) -> Result<ArgMatches<'a>, WordFault>
    requires { is_simple_and_free (app_of parser) ≡ true }
    ensures { Finds (rows_in (app_of parser.entry) (map string_bytes tail.entry.now)) result }
{
    match parser.try_get_matches_from(tail) {
        Ok(matches) => Ok(matches),
        Err(error) => Err(fault_of_kind(error.kind())),
    }
}

/// A checkout with this many workers: a decimal from 1 to 16.
fn with_workers(text: &[u8]) -> Option<Command>
    ensures { result ≡ workers_command text.now }
{
    let workers = read_decimal(text, 16)?;
    if workers < 1 {
        return None;
    }
    Some(Command::Checkout {
        workers: Some(workers as u32),
    })
}

/// The checkout that the arguments of its tail give.
fn checkout_of(matches: &ArgMatches<'_>) -> Option<Command>
    ensures { result ≡ checkout_by (first_value (found_of matches.now) (codes "workers")) }
{
    match matches.get_str("workers") {
        Some(number) => with_workers(number.as_bytes()),
        None => Some(Command::Checkout { workers: None }),
    }
}

/// The rehearsal that the arguments of its tail give.
fn rehearsal_of(matches: &ArgMatches<'_>) -> Option<Command>
    ensures { result ≡ rehearse_by (first_value (found_of matches.now) (codes "seed"))
        (first_value (found_of matches.now) (codes "paths")) }
{
    let seed = matches.get_str("seed")?;
    let paths = matches.get_str("paths")?;
    let seed = read_decimal(seed.as_bytes(), u64::MAX)?;
    let paths = read_decimal(paths.as_bytes(), 99_999)?;
    Some(Command::Rehearse {
        seed,
        paths: paths as u32,
    })
}

/// A checkout's command, of its tail.
pub(crate) fn read_checkout(alloc: Global, tail: &[String]) -> Result<Command, WordFault>
    requires { is_plain_tail (map string_bytes tail.now) ≡ true }
    ensures { Reads (checkout_command (map string_bytes tail.now)) result }
{
    let matches = matches_in(checkout_parser(alloc)?, tail)?;
    checkout_of(&matches).ok_or(WordFault::Usage)
}

/// A plan's command, of its tail.
pub(crate) fn read_plan(alloc: Global, tail: &[String]) -> Result<Command, WordFault>
    requires { is_plain_tail (map string_bytes tail.now) ≡ true }
    ensures { Reads (plan_command (map string_bytes tail.now)) result }
{
    matches_in(tail_parser(alloc), tail)?;
    Ok(Command::Plan)
}

/// A rehearsal's command, of its tail.
pub(crate) fn read_rehearse(alloc: Global, tail: &[String]) -> Result<Command, WordFault>
    requires { is_plain_tail (map string_bytes tail.now) ≡ true }
    ensures { Reads (rehearse_command (map string_bytes tail.now)) result }
{
    let matches = matches_in(rehearse_parser(alloc)?, tail)?;
    rehearsal_of(&matches).ok_or(WordFault::Usage)
}
