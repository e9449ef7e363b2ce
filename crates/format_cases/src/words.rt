//! The words of the two programs that check out.
use case_kit::{Cell, shown};
use checkout_words::{Command, WordFault};
use siuwbren_words::{Subcommand, UsageFault};
use std::alloc::{AllocError, Global};
use std::test::Fail;

/// The words of a cell, which stand between `|`, or no words without a cell.
fn words_of(alloc: Global, cells: &[Cell]) -> Result<Vec<String>, Fail> {
    let mut words = Vec::new(alloc);
    if let [cell] = cells {
        for word in str::from_utf8(&cell.value)?.split('|') {
            words.push(String::from_str(alloc, word)?)?;
        }
    }
    Ok(words)
}

/// A command of `checkout_program`, or `Usage`.
fn plain_told(alloc: Global, came: Result<Command, WordFault>) -> Result<Vec<u8>, AllocError> {
    match came {
        Ok(command) => shown(alloc, command),
        Err(WordFault::Usage) => Vec::from_slice(alloc, b"Usage"),
        Err(WordFault::NoMemory) => Err(AllocError),
    }
}

/// The command of `checkout_program` that the words give, or `Usage`.
pub fn plain(alloc: Global, cells: &[Cell]) -> Result<Vec<u8>, Fail> {
    let words = words_of(alloc, cells)?;
    Ok(plain_told(alloc, checkout_words::read_words(alloc, &words))?)
}

/// The first line of a text behind a word.
fn first_line(alloc: Global, word: &str, text: &str) -> Result<Vec<u8>, AllocError> {
    let line = match text.split_once('\n') {
        Some((line, _)) => line,
        None => text,
    };
    let told = format!(in alloc; "{word}: {line}")?;
    Vec::from_slice(alloc, told.as_bytes())
}

/// A command of `siuwbren`, or the first line of the text in its place.
fn asked_told(
    alloc: Global,
    came: Result<Subcommand<'_>, UsageFault>,
) -> Result<Vec<u8>, AllocError> {
    match came {
        Ok(command) => shown(alloc, command),
        Err(UsageFault::Wish(text)) => first_line(alloc, "wish", text.as_str()),
        Err(UsageFault::Wrong(text)) => first_line(alloc, "wrong", text.as_str()),
        Err(UsageFault::NoMemory) => Err(AllocError),
    }
}

/// The command of `siuwbren` that the words give, or the first line of the text that they get.
pub fn asked(alloc: Global, cells: &[Cell]) -> Result<Vec<u8>, Fail> {
    let words = words_of(alloc, cells)?;
    Ok(asked_told(alloc, siuwbren_words::read_words(alloc, &words))?)
}
