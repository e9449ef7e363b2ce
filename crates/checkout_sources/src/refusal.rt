//! The line of a refusal.
ghost use Rattle.std.specs.Prelude.{◌≡◌, ◌++◌, ◌∷◌, IfOk, string_bytes, codes};
ghost use Rattle.std.specs.Fmt.{decimal};
ghost use Rattle.checkout_sources.specs.RefusalText.{index_words, config_words};
ghost use Rattle.checkout_sources.specs.RefusalText.{attribute_words, refusal_words, refusal_line};

use crate::stop::Refusal;
use byte_path::{Bytes, quote_path};
use git_config::ConfigFault;
use git_index::IndexFault;
use std::alloc::{AllocError, Global};

/// A word, a blank and a number.
fn numbered(alloc: Global, word: &str, number: u32) -> Result<String, AllocError>
    ensures { IfOk result (λ s. string_bytes s ≡ word.now ++ 32 ∷ decimal number) }
{
    format!(in alloc; "{word} {number}")
}

/// A word, a number and what else is to be said, with blanks between.
fn detailed(alloc: Global, word: &str, number: u32, detail: &str) -> Result<String, AllocError>
    ensures { IfOk result (λ s. string_bytes s
        ≡ word.now ++ 32 ∷ decimal number ++ 32 ∷ detail.now) }
{
    format!(in alloc; "{word} {number} {detail}")
}

/// A text behind another.
fn behind(alloc: Global, front: &[u8], rest: &[u8]) -> Result<Vec<u8>, AllocError>
    ensures { IfOk result (λ v. v.items ≡ front.now ++ rest.now) }
{
    let mut text = Vec::from_slice(alloc, front)?;
    text.extend_from_slice(rest)?;
    Ok(text)
}

fn index_words(alloc: Global, fault: IndexFault) -> Result<String, AllocError>
    ensures { IfOk result (λ s. string_bytes s ≡ index_words fault) }
{
    let word = fault.word();
    match fault {
        IndexFault::Version(n)
        | IndexFault::Count(n)
        | IndexFault::Mode(n)
        | IndexFault::Order(n)
        | IndexFault::FolderClash(n) => numbered(alloc, word, n),
        IndexFault::Entry(k, kind) => detailed(alloc, word, k, kind.word()),
        IndexFault::Path(k, path) => detailed(alloc, word, k, path.word()),
        IndexFault::Extension(signature) => {
            let digits = hex::encode(alloc, &signature)?;
            format!(in alloc; "{word} {digits}")
        }
        _ => String::from_str(alloc, word),
    }
}

fn config_words(alloc: Global, fault: ConfigFault) -> Result<String, AllocError>
    ensures { IfOk result (λ s. string_bytes s ≡ config_words fault) }
{
    match fault {
        ConfigFault::TooLarge => String::from_str(alloc, "too-large"),
        ConfigFault::Line(n, kind) => detailed(alloc, "line", n, kind.word()),
        ConfigFault::NoMemory => String::from_str(alloc, "no-memory"),
    }
}

/// The words for an attribute file whose path is shown like this.
fn shown_words(alloc: Global, shown: &[u8], word: &str) -> Result<Vec<u8>, AllocError>
    ensures { IfOk result (λ v. v.items ≡ codes "attributes " ++ (shown.now ++ 32 ∷ word.now)) }
{
    let mut words = behind(alloc, b"attributes ", shown)?;
    words.push(b' ')?;
    words.extend_from_slice(word.as_bytes())?;
    Ok(words)
}

/// The words for an attribute file that is refused: its path, quoted as in the report, and what is wrong.
fn attribute_words(alloc: Global, path: &Bytes, word: &str) -> Result<Vec<u8>, AllocError>
    ensures { IfOk result (λ v. v.items ≡ attribute_words path.now word.now) }
{
    let shown = quote_path(alloc, path.as_slice())?;
    shown_words(alloc, &shown, word)
}

/// Why a repository is refused, as words.
pub fn refusal_words(alloc: Global, refusal: &Refusal) -> Result<Vec<u8>, AllocError>
    ensures { IfOk result (λ v. v.items ≡ refusal_words refusal.now) }
{
    match refusal {
        Refusal::IndexAbsent => Vec::from_slice(alloc, b"index absent"),
        Refusal::Index(fault) => {
            let words = index_words(alloc, *fault)?;
            behind(alloc, b"index ", words.as_bytes())
        }
        Refusal::Config(fault) => {
            let words = config_words(alloc, *fault)?;
            behind(alloc, b"config ", words.as_bytes())
        }
        Refusal::Setting(fault) => behind(alloc, b"setting ", fault.word().as_bytes()),
        Refusal::InfoTooLarge => Vec::from_slice(alloc, b"attributes info too-large"),
        Refusal::BaseTooLarge => Vec::from_slice(alloc, b"base-attributes too-large"),
        Refusal::Attribute(path, kind) => attribute_words(alloc, path, kind.word()),
        Refusal::AttributeTooLarge(path) => attribute_words(alloc, path, "too-large"),
        Refusal::TooManyDrivers(n) => Ok(numbered(alloc, "drivers", *n)?.into_bytes()),
    }
}

/// The line that is written if a checkout is refused like this.
pub fn refusal_line(alloc: Global, refusal: &Refusal) -> Result<Vec<u8>, AllocError>
    ensures { IfOk result (λ v. v.items ≡ refusal_line refusal.now) }
{
    let words = refusal_words(alloc, refusal)?;
    let mut line = behind(alloc, b"refused ", &words)?;
    line.push(b'\n')?;
    Ok(line)
}
