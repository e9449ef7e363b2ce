//! Tables with one literal a row, whose cells a character stands between.
use std::process::Abort;

/// What stands before this character, and what stands behind it.
pub fn cut(text: &str, at: char) -> (&str, &str) {
    match text.split_once(at) {
        Some(parts) => parts,
        None => (text, ""),
    }
}

/// The row is so, where this came. This is the one place that shows a row.
pub fn is_right(rt: &impl Abort, is_so: bool, row: &str, came: &str) {
    assert!(rt; is_so, "{row}\ngives {came}");
}
