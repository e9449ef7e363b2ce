//! Truth values and choices.
ghost use Rattle.std.specs.Prelude.{◌≡◌, option_copied};
ghost use Rattle.settings_view.specs.Value.{is_word, is_true_word, is_false_word, bool_text, bool_of};
ghost use Rattle.settings_view.specs.Value.{crlf_of_bool, crlf_text, crlf_of, eol_text, eol_of, is_sha1};

use byte_path::Bytes;
use eol_convert::{AutoCrlf, EolSetting};

/// Whether a text is this word, if case is ignored.
#[tactic(auto, unfolding(crate::specs::Value::is_word))]
fn is_word(word: &[u8], text: &[u8]) -> bool
    ensures { result ≡ is_word word.now text.now }
{
    text.eq_ignore_ascii_case(word)
}

#[tactic(auto, unfolding(crate::specs::Value::is_true_word))]
fn is_true_word(text: &[u8]) -> bool
    ensures { result ≡ is_true_word text.now }
{
    is_word(b"true", text) || is_word(b"yes", text) || is_word(b"on", text) || is_word(b"1", text)
}

#[tactic(auto, unfolding(crate::specs::Value::is_false_word))]
fn is_false_word(text: &[u8]) -> bool
    ensures { result ≡ is_false_word text.now }
{
    is_word(b"false", text)
        || is_word(b"no", text)
        || is_word(b"off", text)
        || is_word(b"0", text)
        || text.is_empty()
}

fn bool_text(text: &[u8]) -> Option<bool>
    ensures { result ≡ bool_text text.now }
{
    if is_true_word(text) {
        return Some(true);
    }
    if is_false_word(text) {
        return Some(false);
    }
    None
}

/// A truth value. A key without `=` is true.
pub fn bool_of(value: &Option<Bytes>) -> Option<bool>
    ensures { result ≡ bool_of value.now }
{
    match value {
        Some(text) => bool_text(text.as_slice()),
        None => Some(true),
    }
}

fn crlf_of_bool(value: bool) -> AutoCrlf
    ensures { result ≡ crlf_of_bool value }
{
    if value {
        AutoCrlf::True
    } else {
        AutoCrlf::False
    }
}

fn crlf_text(text: &[u8]) -> Option<AutoCrlf>
    ensures { result ≡ crlf_text text.now }
{
    if is_word(b"input", text) {
        return Some(AutoCrlf::Input);
    }
    bool_text(text).map(crlf_of_bool)
}

/// `input` or a truth value.
pub fn crlf_of(value: &Option<Bytes>) -> Option<AutoCrlf>
    ensures { result ≡ crlf_of value.now }
{
    match value {
        Some(text) => crlf_text(text.as_slice()),
        None => Some(AutoCrlf::True),
    }
}

fn eol_text(text: &[u8]) -> Option<EolSetting>
    ensures { result ≡ eol_text text.now }
{
    if is_word(b"lf", text) {
        return Some(EolSetting::Lf);
    }
    if is_word(b"crlf", text) {
        return Some(EolSetting::Crlf);
    }
    if is_word(b"native", text) {
        return Some(EolSetting::Native);
    }
    None
}

/// `lf`, `crlf` or `native`.
pub fn eol_of(value: &Option<Bytes>) -> Option<EolSetting>
    ensures { result ≡ eol_of value.now }
{
    match value {
        Some(text) => eol_text(text.as_slice()),
        None => None,
    }
}

/// `sha1`.
pub fn is_sha1(value: &Option<Bytes>) -> bool
    ensures { result ≡ is_sha1 value.now }
{
    match value {
        Some(text) => is_word(b"sha1", text.as_slice()),
        None => false,
    }
}
