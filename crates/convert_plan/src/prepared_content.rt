//! A blob's content, converted for the worktree.
ghost use Rattle.std.specs.Prelude.{◌≡◌, IfOk};
ghost use Rattle.ident_convert.specs.Ident.{expanded, keyword_text};
ghost use Rattle.eol_convert.specs.Content.{to_tree_ends};
ghost use Rattle.convert_plan.specs.Prepared.{with_ident, in_encoding, prepared};

use crate::conversion::Conversion;
use byte_path::{Bytes, ObjectId};
use eol_convert::{LineEnds, changes_ends, to_tree_ends};
use ident_convert::{expand_ident, has_keyword};
use std::alloc::{AllocError, Global};
use tree_encoding::{Encoding, Prepared, encode_text};

/// Expands the keyword, if the conversion says so. A content without one is returned as it is.
fn with_ident(
    alloc: Global,
    ident: bool,
    name: &ObjectId,
    content: Vec<u8>,
) -> Result<Vec<u8>, AllocError>
    ensures { IfOk result (λ v. v.items ≡ with_ident ident name.now content.items) }
{
    if !ident || !has_keyword(&content) {
        return Ok(content);
    }
    expand_ident(alloc, &content, name)
}

/// Converts the line ends. A content that doesn't change is returned as it is.
fn with_ends(alloc: Global, ends: LineEnds, content: Vec<u8>) -> Result<Vec<u8>, AllocError>
    ensures { IfOk result (λ v. v.items ≡ to_tree_ends content.items ends) }
{
    if !changes_ends(&content, ends) {
        return Ok(content);
    }
    // a content that changes gets CR LF throughout, so the test of AutoCrlf isn't made again
    to_tree_ends(alloc, &content, LineEnds::ToCrlf)
}

fn whole(bytes: Vec<u8>, unencoded: bool) -> Prepared
    ensures { result ≡ record { bytes = bytes.items; unencoded = unencoded } }
{
    Prepared {
        bytes: Bytes::from_vec(bytes),
        unencoded,
    }
}

/// Encodes the content, if an encoding is named. A content that doesn't change is returned as it is.
fn in_encoding(
    alloc: Global,
    encoding: Option<Encoding>,
    content: Vec<u8>,
) -> Result<Prepared, AllocError>
    ensures { IfOk result (λ p. p ≡ in_encoding encoding content.items) }
{
    let Some(encoding) = encoding else {
        return Ok(whole(content, false));
    };
    if let Some(text) = encode_text(alloc, &content, encoding)? {
        return Ok(whole(text, false));
    }
    let unencoded = !content.is_empty();
    Ok(whole(content, unencoded))
}

/// A blob's content as it stands in the worktree: first the keyword is expanded, then the line ends are converted, and
/// then it is encoded.
///
/// `name` is the blob's name. A content that no conversion changes is returned without a copy.
pub fn prepare(
    alloc: Global,
    conversion: &Conversion,
    name: &ObjectId,
    blob: Vec<u8>,
) -> Result<Prepared, AllocError>
    ensures { IfOk result (λ p. p ≡ prepared conversion.now name.now blob.items) }
{
    let named = with_ident(alloc, conversion.ident, name, blob)?;
    let ended = with_ends(alloc, conversion.action.ends(), named)?;
    in_encoding(alloc, conversion.encoding, ended)
}
