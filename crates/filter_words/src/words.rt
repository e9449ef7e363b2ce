//! The key, the value and the status of a line.
ghost use Rattle.std.specs.Prelude.{◌≡◌};
ghost use Rattle.std.specs.Option.{option_map};
ghost use Rattle.filter_words.specs.Words.{without_lf, key_and_value, value_of, status_value, status_after};

use bstr::ByteSlice;

/// What the value of a `status=` line says.
#[derive(Clone, Copy, PartialEq, Eq)]
pub enum Status {
    Success,
    Error,
    Abort,
    Delayed,
    /// Any other value.
    Other,
}

/// The status that a value names.
pub fn read_status(value: &[u8]) -> Status
    ensures { result ≡ status_value value.now }
{
    if value == b"success".as_slice() {
        Status::Success
    } else if value == b"error".as_slice() {
        Status::Error
    } else if value == b"abort".as_slice() {
        Status::Abort
    } else if value == b"delayed".as_slice() {
        Status::Delayed
    } else {
        Status::Other
    }
}

/// A line without the one LF at its end, cut at its first `=`. `None` if there is no `=`.
pub fn key_value(line: &[u8]) -> Option<(&[u8], &[u8])>
    ensures { option_map (λ pair. (pair.0.now, pair.1.now)) result ≡ key_and_value line.now }
{
    without_end(line).split_once_str(b"=")
}

/// A line without the one LF at its end.
pub(crate) fn without_end(line: &[u8]) -> &[u8]
    ensures { result.now ≡ without_lf line.now }
{
    line.strip_suffix(b"\n").unwrap_or(line)
}

/// The value of a line with this key.
pub(crate) fn value_of<'a>(key: &[u8], line: &'a [u8]) -> Option<&'a [u8]>
    ensures { option_map (λ value. value.now) result ≡ value_of key.now line.now }
{
    match key_value(line) {
        Some((found, value)) => { if found == key { Some(value) } else { None } }
        None => None,
    }
}

/// The status after one more line of a key list: the last `status=` line gives it.
pub fn next_status(before: Option<Status>, line: &[u8]) -> Option<Status>
    ensures { result ≡ status_after before line.now }
{
    match value_of(b"status", line) {
        Some(value) => Some(read_status(value)),
        None => before,
    }
}
