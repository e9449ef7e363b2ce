ghost use Rattle.std.specs.Prelude.{◌≡◌, IfOk, List, ℕ, false};
ghost use Rattle.ident_convert.specs.Ident.{keyword_text, expanded, has_keyword};

use crate::keyword::first_keyword;
use byte_path::ObjectId;
use std::alloc::{AllocError, Global};

/// Whether a content has a keyword: `$Id$`, or `$Id:`, a middle and `$`. The middle has no LF, and a space only as its
/// first or its last byte.
///
/// A content without a keyword expands to itself, whatever the name. It takes no memory.
pub fn has_keyword(content: &[u8]) -> bool
    ensures value { result ≡ has_keyword content.now }
    ensures unchanged { result ≡ false → (name : List ℕ) → expanded (keyword_text name) content.now ≡ content.now }
{
    first_keyword(content).is_some()
}

/// What takes the place of a keyword: `$Id: `, the blob's name in lower case hex, ` $`.
fn keyword_text(alloc: Global, name: &ObjectId) -> Result<Vec<u8>, AllocError>
    ensures { IfOk result (λ text. text.items ≡ keyword_text name.now) }
{
    let digits = hex::encode(alloc, name.as_slice())?;
    let mut text = Vec::from_slice(alloc, b"$Id: ")?;
    text.extend_from_slice(digits.as_bytes())?;
    text.extend_from_slice(b" $")?;
    Ok(text)
}

/// How many bytes a content has with so many in place of each of its keywords.
fn expanded_len(content: &[u8], keyword: usize) -> usize {
    let mut len = content.len();
    let mut rest = content;
    'keywords: while let Some(found) = first_keyword(rest) {
        len = len.saturating_sub(found.len).saturating_add(keyword);
        let (_, behind) = rest.split_at(found.start + found.len);
        rest = behind;
    }
    len
}

/// A content with this text in place of each of its keywords.
fn with_keyword(alloc: Global, content: &[u8], keyword: &[u8]) -> Result<Vec<u8>, AllocError>
    ensures { IfOk result (λ text. text.items ≡ expanded keyword.now content.now) }
{
    let room = expanded_len(content, keyword.len());
    let mut text = Vec::with_capacity(alloc, room)?;
    let mut place = 0;
    'keywords: loop {
        let (_, rest) = content.split_at(place);
        let Some(found) = first_keyword(rest) else {
            text.extend_from_slice(rest)?;
            return Ok(text);
        };
        let (plain, _) = rest.split_at(found.start);
        text.extend_from_slice(plain)?;
        text.extend_from_slice(keyword)?;
        place += found.start + found.len;
    }
}

/// The content of the blob with this name, with its keywords expanded (gitattributes(5), "ident").
///
/// A content without a keyword is copied.
pub fn expand_ident(alloc: Global, content: &[u8], name: &ObjectId) -> Result<Vec<u8>, AllocError>
    ensures { IfOk result (λ text. text.items ≡ expanded (keyword_text name.now) content.now) }
{
    if !has_keyword(content) {
        return Vec::from_slice(alloc, content);
    }
    let keyword = keyword_text(alloc, name)?;
    with_keyword(alloc, content, keyword.as_slice())
}
