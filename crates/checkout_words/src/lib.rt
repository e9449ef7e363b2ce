//! The words after the program's name: `REPO TREE checkout [--workers N]`, `REPO TREE plan` or
//! `REPO TREE rehearse SEED PATHS`.
#![tactic(auto)]

ghost use Rattle.std.specs.Prelude.{◌≡◌, map, string_bytes, false, Err};
ghost use Rattle.checkout_words.specs.declared.WordFault.TheVariants.{NoMemory, Usage};
ghost use Rattle.checkout_words.specs.Words.{named_command, command_of, Reads};
ghost use Rattle.checkout_words.specs.Words.{is_command_name, names_command};

mod tail;

use std::alloc::{AllocError, Global};

/// What the program has to do.
#[derive(Clone, Copy, Debug, PartialEq, Eq)]
pub enum Command {
    /// Write the worktree, with 1 to 16 workers if the words give their number.
    Checkout { workers: Option<u32> },
    /// Show what a checkout would do.
    Plan,
    /// Check out a made-up repository of this many paths, up to 99,999.
    Rehearse { seed: u64, paths: u32 },
}

/// Why words give no command.
#[derive(Clone, Copy)]
pub enum WordFault {
    /// No command has these words.
    Usage,
    NoMemory,
}

impl From<AllocError> for WordFault {
    ghost from_gives = { λ _ fault. fault ≡ NoMemory };

    fn from(_error: AllocError) -> WordFault {
        WordFault::NoMemory
    }
}

/// The command of that name with its tail.
fn read_named(alloc: Global, name: &str, tail: &[String]) -> Result<Command, WordFault>
    ensures reads { Reads (named_command name.now (map string_bytes tail.now)) result }
    ensures unnamed { is_command_name name.now ≡ false → result ≡ Err Usage }
{
    if !tail::is_plain_tail(tail) {
        return Err(WordFault::Usage);
    }
    match name {
        "checkout" => tail::read_checkout(alloc, tail),
        "plan" => tail::read_plan(alloc, tail),
        "rehearse" => tail::read_rehearse(alloc, tail),
        _ => Err(WordFault::Usage),
    }
}

/// The command of the words after the program's name, or Usage if they give none, as with `--help`.
///
/// The first two words may be any text. Words that name no command take no memory.
pub fn read_words(alloc: Global, words: &[String]) -> Result<Command, WordFault>
    ensures reads { Reads (command_of (map string_bytes words.now)) result }
    ensures unnamed { names_command (map string_bytes words.now) ≡ false → result ≡ Err Usage }
{
    match words {
        [_, _, name, tail @ ..] => read_named(alloc, name.as_str(), tail),
        _ => Err(WordFault::Usage),
    }
}
