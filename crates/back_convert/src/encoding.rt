//! A content out of its encoding.
ghost use Rattle.std.specs.Prelude.{◌≡◌, Some, MatchResult};
ghost use Rattle.back_convert.specs.declared.encoding.BackFault.TheVariants as fault;
ghost use Rattle.back_convert.specs.Encoding.{text_of, unmarked, back_encoded, Explains};

use crate::form::Form;
use crate::text::decoded;
use crate::unit::{Big16, Big32, Little16, Little32};
use std::alloc::{AllocError, Global};
use thiserror::Error;
use tree_encoding::Encoding;

/// Why a content wasn't read out of its encoding.
#[derive(Error, Clone, Copy, Debug)]
pub enum BackFault {
    /// Its bytes are no text in the encoding.
    #[error("the content isn't in its encoding")]
    Form,
    #[error("out of memory")]
    NoMemory,
}

impl From<AllocError> for BackFault {
    ghost from_gives = { λ _ e. e ≡ fault.NoMemory };

    fn from(_: AllocError) -> BackFault {
        BackFault::NoMemory
    }
}

/// A content in a form, as UTF-8, where the first character isn't U+FEFF.
fn unmarked<F: Form<WIDE>, const WIDE: usize>(
    alloc: Global,
    bytes: &[u8],
) -> Result<Vec<u8>, BackFault>
    ensures { MatchResult result (λ v. text_of (unmarked (F.chars bytes.now)) ≡ Some v.items)
        (λ f. Explains f (text_of (unmarked (F.chars bytes.now)))) }
{
    match F::first(bytes) {
        Some((character, _)) => {
            if character == '\u{FEFF}' {
                return Err(BackFault::Form);
            }
            decoded::<F, WIDE>(alloc, bytes)
        }
        None => decoded::<F, WIDE>(alloc, bytes),
    }
}

/// A file's content as UTF-8, out of its encoding (gitattributes(5), "working-tree-encoding").
///
/// `UTF-16` and `UTF-32` want a mark of either byte order, `UTF-16LE-BOM` that of its own. The others want none. An
/// empty content stays empty.
pub fn back_encode(alloc: Global, content: &[u8], encoding: Encoding) -> Result<Vec<u8>, BackFault>
    ensures { MatchResult result (λ v. back_encoded encoding content.now ≡ Some v.items)
        (λ f. Explains f (back_encoded encoding content.now)) }
{
    if content.is_empty() {
        return Ok(Vec::new(alloc));
    }
    match encoding {
        Encoding::Utf16 => match content.strip_prefix(b"\xFF\xFE") {
            Some(text) => decoded::<Little16, 32>(alloc, text),
            None => match content.strip_prefix(b"\xFE\xFF") {
                Some(text) => decoded::<Big16, 32>(alloc, text),
                None => Err(BackFault::Form),
            },
        },
        Encoding::Utf16LeBom => match content.strip_prefix(b"\xFF\xFE") {
            Some(text) => decoded::<Little16, 32>(alloc, text),
            None => Err(BackFault::Form),
        },
        Encoding::Utf32 => match content.strip_prefix(b"\xFF\xFE\0\0") {
            Some(text) => decoded::<Little32, 64>(alloc, text),
            None => match content.strip_prefix(b"\0\0\xFE\xFF") {
                Some(text) => decoded::<Big32, 64>(alloc, text),
                None => Err(BackFault::Form),
            },
        },
        Encoding::Utf16Le => unmarked::<Little16, 32>(alloc, content),
        Encoding::Utf16Be => unmarked::<Big16, 32>(alloc, content),
        Encoding::Utf32Le => unmarked::<Little32, 64>(alloc, content),
        Encoding::Utf32Be => unmarked::<Big32, 64>(alloc, content),
    }
}
