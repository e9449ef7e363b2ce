//! Reads the words.
ghost use Rattle.std.specs.Prelude.{◌≡◌, map, option_map, string_bytes, true};
ghost use Rattle.clap.specs.Words.{app_of, found_of, is_simple_and_free, kind_of, rows_of};
ghost use Rattle.clap.specs.Words.{subcommand_rows_of};
ghost use Rattle.clap.specs.declared.error.kind.ErrorKind.TheVariants.{OutOfMemory};
ghost use Rattle.siuwbren_words.specs.Asked.{Gives, asked_in, asked_of};
ghost use Rattle.siuwbren_words.specs.Parser.{Finds, command_in, siuwbren_app};
ghost use Rattle.siuwbren_words.specs.declared.fault.UsageFault.TheVariants.{NoMemory};

use crate::command::Subcommand;
use crate::commands::command_of;
use crate::fault::UsageFault;
use crate::parser::siuwbren;
use crate::values::Mistake;
use clap::error::ErrorKind;
use clap::{ArgMatches, Error};
use std::alloc::{AllocError, Global};

/// How `clap` begins a line that says how an option that isn't known would be taken for a path.
const ADVICE: &str = "\n  tip: to pass ";

/// A text of `clap` without that line, and without the blank one before it.
fn without_advice(alloc: Global, text: String) -> Result<String, AllocError> {
    let Some((before, rest)) = text.split_once(ADVICE) else {
        return Ok(text);
    };
    let behind = match rest.split_once('\n') {
        Some((_, behind)) => behind,
        None => "",
    };
    let before = match before.strip_suffix("\n") {
        Some(whole) => whole,
        None => before,
    };
    format!(in alloc; "{before}\n{behind}")
}

/// A refusal of `clap` in its words.
fn words_of(alloc: Global, error: &Error) -> Result<String, AllocError> {
    let text = format!(in alloc; "{error}")?;
    without_advice(alloc, text)
}

/// What a refusal of `clap` comes to.
fn fault_of(alloc: Global, error: &Error) -> UsageFault
    ensures { kind_of error.now ≡ OutOfMemory → result ≡ NoMemory }
{
    let kind = error.kind();
    if kind == ErrorKind::OutOfMemory {
        return UsageFault::NoMemory;
    }
    let Ok(text) = words_of(alloc, error) else {
        return UsageFault::NoMemory;
    };
    match kind {
        ErrorKind::DisplayHelp | ErrorKind::DisplayVersion => UsageFault::Wish(text),
        _ => UsageFault::Wrong(text),
    }
}

/// What a mistake comes to.
fn wrong(alloc: Global, mistake: &Mistake<'_>) -> UsageFault {
    match format!(in alloc; "error: {mistake}\n\nFor more information, try '--help'.\n") {
        Ok(text) => UsageFault::Wrong(text),
        Err(_) => UsageFault::NoMemory,
    }
}

/// The arguments that words give to a parser.
fn matches_in<'a>(
    alloc: Global,
    parser: clap::Command<'a>,
    words: &'a [String],
) -> Result<ArgMatches<'a>, UsageFault>
    requires { is_simple_and_free (app_of parser) ≡ true }
    ensures { Finds (command_in (app_of parser.entry) (map string_bytes words.entry.now)) result }
{
    match parser.try_get_matches_from(words) {
        Ok(matches) => Ok(matches),
        Err(error) => Err(fault_of(alloc, &error)),
    }
}

/// The command's name and its arguments.
fn subcommand_of<'m, 'a>(matches: &'m ArgMatches<'a>) -> Option<(&'a str, &'m ArgMatches<'a>)>
    ensures { option_map (λ p. (p.0.now, rows_of (found_of p.1.now))) result ≡ subcommand_rows_of matches.now }
{
    matches.subcommand()
}

/// The arguments that words give to the program's parser.
fn found_in(alloc: Global, words: &[String]) -> Result<ArgMatches<'_>, UsageFault>
    ensures { Finds (command_in siuwbren_app (map string_bytes words.now)) result }
{
    match siuwbren(alloc) {
        Ok(parser) => matches_in(alloc, parser, words),
        Err(_) => Err(UsageFault::NoMemory),
    }
}

/// The command that the arguments give, or what is wrong with them.
fn command_by<'a>(alloc: Global, matches: &ArgMatches<'a>) -> Result<Subcommand<'a>, UsageFault>
    ensures { Gives (asked_in (subcommand_rows_of matches.now)) result }
{
    let Some((name, arguments)) = subcommand_of(matches) else {
        return Err(wrong(alloc, &Mistake::NoCommand));
    };
    match command_of(name, arguments) {
        Ok(command) => Ok(command),
        Err(mistake) => Err(wrong(alloc, &mistake)),
    }
}

/// The command that the words after the program's name ask for, or a text: help, the version, or what is wrong.
pub fn read_words(alloc: Global, words: &[String]) -> Result<Subcommand<'_>, UsageFault>
    ensures { Gives (asked_of (map string_bytes words.now)) result }
{
    match found_in(alloc, words) {
        Ok(matches) => command_by(alloc, &matches),
        Err(fault) => Err(fault),
    }
}
