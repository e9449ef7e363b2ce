use crate::text::unknown;
use std::alloc::AllocError;
use std::test::Fail;

/// Words, each with its meaning.
pub type Words<T> = &'static [(&'static [u8], T)];

/// The meaning of a word, if it has one.
pub fn meant<T: Copy>(words: &[(&'static [u8], T)], word: &[u8]) -> Option<T> {
    for (known, meant) in words {
        if *known == word {
            return Some(*meant);
        }
    }
    None
}

/// The meaning of a word that has one.
pub fn found<T: Copy>(words: &[(&'static [u8], T)], word: &[u8]) -> Result<T, Fail> {
    match meant(words, word) {
        Some(meant) => Ok(meant),
        None => Err(unknown(word)),
    }
}

/// What came of a case, if there was memory for it.
pub fn given<T>(came: Result<T, AllocError>) -> Result<T, Fail> {
    Ok(came?)
}
