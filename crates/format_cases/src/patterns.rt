//! Patterns and paths.
use case_kit::{noted, shown};
use std::alloc::{AllocError, Global};
use wild_match::{Compiled, matches};

/// Whether the pattern matches the path, with a note if the compiled pattern answers otherwise.
pub fn matched(alloc: Global, pattern: &[u8], path: &[u8]) -> Result<Vec<u8>, AllocError> {
    let does = matches(pattern, path);
    let compiled = Compiled::of(alloc, pattern)?;
    let is_same = compiled.matches(path) == does;
    let came = shown(alloc, does)?;
    noted(came, is_same, b"compiled it answers otherwise")
}
