//! The encoding that an attribute names.
ghost use Rattle.std.specs.Prelude.{◌≡◌};
ghost use Rattle.tree_encoding.specs.Named.{without_hyphen, is_name, encoding_named, encoding_of};

use crate::encoding::{Encoding, UnknownEncoding};
use attr_line::AttrState;

/// Whether a value is this name, as it is or without its first hyphen, with case ignored.
#[tactic(auto, unfolding(crate::specs::Named::is_name))]
fn is_name(value: &[u8], name: &[u8], joined: &[u8]) -> bool
    requires { joined.now ≡ without_hyphen name.now }
    ensures { result ≡ is_name value.now name.now }
{
    value.eq_ignore_ascii_case(name) || value.eq_ignore_ascii_case(joined)
}

/// What a value names.
#[tactic(auto, unfolding(crate::specs::Named::encoding_named))]
fn encoding_named(value: &[u8]) -> Result<Option<Encoding>, UnknownEncoding>
    ensures { result ≡ encoding_named value.now }
{
    let encoding = if value.is_empty() || is_name(value, b"UTF-8", b"UTF8") {
        return Ok(None);
    } else if is_name(value, b"UTF-16", b"UTF16") {
        Encoding::Utf16
    } else if is_name(value, b"UTF-16LE", b"UTF16LE") {
        Encoding::Utf16Le
    } else if is_name(value, b"UTF-16BE", b"UTF16BE") {
        Encoding::Utf16Be
    } else if is_name(value, b"UTF-16LE-BOM", b"UTF16LE-BOM") {
        Encoding::Utf16LeBom
    } else if is_name(value, b"UTF-32", b"UTF32") {
        Encoding::Utf32
    } else if is_name(value, b"UTF-32LE", b"UTF32LE") {
        Encoding::Utf32Le
    } else if is_name(value, b"UTF-32BE", b"UTF32BE") {
        Encoding::Utf32Be
    } else {
        return Err(UnknownEncoding);
    };
    Ok(Some(encoding))
}

/// The encoding of a file in the worktree by the state of its attribute `working-tree-encoding` (gitattributes(5)), or
/// `None` for UTF-8.
///
/// A value names an encoding with case ignored, and may leave out the first hyphen of its name, as git has it:
/// `utf16le` is `UTF-16LE`, and `UTF16LE-BOM` is `UTF-16LE-BOM`, but `UTF16LEBOM` is unknown. It takes no memory.
pub fn encoding_of(state: &AttrState) -> Result<Option<Encoding>, UnknownEncoding>
    ensures { result ≡ encoding_of state.now }
{
    match state {
        AttrState::Set => Err(UnknownEncoding),
        AttrState::Value(value) => encoding_named(value.as_slice()),
        AttrState::Unset | AttrState::Unspecified => Ok(None),
    }
}
