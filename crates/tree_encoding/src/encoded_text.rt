//! A content in an encoding.
ghost use Rattle.std.specs.Prelude.{◌≡◌, ◌++◌, IfOk, IfSome, IfNone, true, false, is_some, chars};
ghost use Rattle.std.specs.Char.{is_ascii};
ghost use Rattle.std.specs.List.{flat_map, list_all};
ghost use Rattle.tree_encoding.specs.Encode.{bytes_of, mark_of, is_encodable, kept, encoded};
ghost use Rattle.tree_encoding.specs.declared.encoding.Encoding.{Encoding};

use crate::ascii_test::is_ascii;
use crate::encoding::Encoding;
use crate::form::{Big16, Big32, Form, Little16, Little32};
use crate::prepared::Prepared;
use crate::text::{push_ascii, push_text};
use byte_path::Bytes;
use simdutf8::compat::from_utf8;
use std::alloc::{AllocError, Global};

/// Characters of ASCII in a form, after a mark.
fn ascii_in<F: Form<WIDE>, const WIDE: usize>(
    alloc: Global,
    mark: &[u8],
    ascii: &[u8],
) -> Result<Vec<u8>, AllocError>
    requires { list_all is_ascii ascii.now ≡ true }
    ensures { IfOk result (λ out. out.items ≡ mark.now ++ flat_map F.bytes_of ascii.now) }
{
    let room = F::ascii_room(ascii.len()).saturating_add(mark.len());
    let mut out = Vec::with_capacity(alloc, room)?;
    out.extend_from_slice(mark)?;
    push_ascii::<F, WIDE>(&mut out, ascii)?;
    Ok(out)
}

/// The characters of a text in a form, after a mark.
fn characters_in<F: Form<WIDE>, const WIDE: usize>(
    alloc: Global,
    mark: &[u8],
    text: &str,
) -> Result<Vec<u8>, AllocError>
    ensures { IfOk result (λ out. out.items ≡ mark.now ++ flat_map F.bytes_of (chars text.now)) }
{
    let room = F::room(text).saturating_add(mark.len());
    let mut out = Vec::with_capacity(alloc, room)?;
    out.extend_from_slice(mark)?;
    push_text::<F, WIDE>(&mut out, text)?;
    Ok(out)
}

/// A content in a form, after a mark, if it is UTF-8 and not empty. One of ASCII alone needs no look at its characters.
fn text_in<F: Form<WIDE>, const WIDE: usize>(
    alloc: Global,
    mark: &[u8],
    content: &[u8],
) -> Result<Option<Vec<u8>>, AllocError>
    ensures exact { IfOk result (λ text. is_some text ≡ is_encodable content.now) }
    ensures text { IfOk result (λ text. IfSome text (λ v. v.items
        ≡ mark.now ++ flat_map F.bytes_of (chars content.now))) }
{
    if content.is_empty() {
        return Ok(None);
    }
    if is_ascii(content) {
        return Ok(Some(ascii_in::<F, WIDE>(alloc, mark, content)?));
    }
    match from_utf8(content) {
        Err(_) => Ok(None),
        Ok(text) => Ok(Some(characters_in::<F, WIDE>(alloc, mark, text)?)),
    }
}

/// A content in the form of an encoding, after its mark, if it is UTF-8 and not empty.
fn marked_text(
    alloc: Global,
    content: &[u8],
    encoding: Encoding,
) -> Result<Option<Vec<u8>>, AllocError>
    ensures exact { IfOk result (λ text. is_some text ≡ is_encodable content.now) }
    ensures text { IfOk result (λ text. IfSome text (λ v. v.items
        ≡ mark_of encoding ++ flat_map (bytes_of encoding) (chars content.now))) }
{
    match encoding {
        Encoding::Utf16 | Encoding::Utf16LeBom => text_in::<Little16, 32>(
            alloc,
            b"\xFF\xFE",
            content,
        ),
        Encoding::Utf16Le => text_in::<Little16, 32>(alloc, b"", content),
        Encoding::Utf16Be => text_in::<Big16, 32>(alloc, b"", content),
        Encoding::Utf32 => text_in::<Little32, 64>(alloc, b"\xFF\xFE\0\0", content),
        Encoding::Utf32Le => text_in::<Little32, 64>(alloc, b"", content),
        Encoding::Utf32Be => text_in::<Big32, 64>(alloc, b"", content),
    }
}

/// The text of a content in an encoding, if an encoding makes another content of it: if it is UTF-8 and not empty. Any
/// other content stays, whatever the encoding, and the flag says whether it had anything to encode.
pub fn encode_text(
    alloc: Global,
    content: &[u8],
    encoding: Encoding,
) -> Result<Option<Vec<u8>>, AllocError>
    ensures exact { IfOk result (λ text. is_some text ≡ is_encodable content.now) }
    ensures encoded { IfOk result (λ text. IfSome text (λ v. encoded content.now encoding
        ≡ record { bytes = v.items; unencoded = false })) }
    ensures kept { IfOk result (λ text. IfNone text (encoded content.now encoding ≡ kept content.now)) }
{
    match marked_text(alloc, content, encoding)? {
        Some(text) => Ok(Some(text)),
        None => Ok(None),
    }
}

/// The content of a file in the worktree in an encoding (gitattributes(5), "working-tree-encoding").
///
/// An empty content stays empty. One that isn't UTF-8 is copied as it is.
pub fn encode(alloc: Global, content: &[u8], encoding: Encoding) -> Result<Prepared, AllocError>
    ensures { IfOk result (λ p. p ≡ encoded content.now encoding) }
{
    let Some(text) = encode_text(alloc, content, encoding)? else {
        return Ok(Prepared {
            bytes: Bytes::copy_of(alloc, content)?,
            unencoded: !content.is_empty(),
        });
    };
    Ok(Prepared {
        bytes: Bytes::from_vec(text),
        unencoded: false,
    })
}
