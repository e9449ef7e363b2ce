//! A file's content, as it is stored.
ghost use Rattle.std.specs.Prelude.{◌≡◌, IfOk, MatchResult, Some};
ghost use Rattle.back_convert.specs.Encoding.{Explains};
ghost use Rattle.back_convert.specs.Ends.{back_ends};
ghost use Rattle.back_convert.specs.Laws.{back_ident_if, back_encoded_if, stored};

use crate::encoding::{BackFault, back_encode};
use crate::ends::changed_ends;
use crate::ident::{back_ident, has_expanded};
use eol_convert::Action;
use std::alloc::{AllocError, Global};
use tree_encoding::Encoding;

/// A content out of its encoding, if it has one.
fn back_encoded_if(
    alloc: Global,
    encoding: Option<Encoding>,
    file: Vec<u8>,
) -> Result<Vec<u8>, BackFault>
    ensures { MatchResult result (λ v. back_encoded_if encoding file.items ≡ Some v.items)
        (λ f. Explains f (back_encoded_if encoding file.items)) }
{
    match encoding {
        None => Ok(file),
        Some(encoding) => back_encode(alloc, &file, encoding),
    }
}

/// A content with the repository's line ends, without a copy if it stays.
fn ended(
    alloc: Global,
    content: Vec<u8>,
    action: Action,
    old_crlf: bool,
) -> Result<Vec<u8>, AllocError>
    ensures { IfOk result (λ v. v.items ≡ back_ends content.items action old_crlf) }
{
    match changed_ends(alloc, &content, action, old_crlf)? {
        Some(text) => Ok(text),
        None => Ok(content),
    }
}

/// A content with its keywords as they were, without a copy if it stays.
fn back_ident_if(alloc: Global, ident: bool, content: Vec<u8>) -> Result<Vec<u8>, AllocError>
    ensures { IfOk result (λ v. v.items ≡ back_ident_if ident content.items) }
{
    if !ident {
        return Ok(content);
    }
    if has_expanded(&content) {
        return back_ident(alloc, &content);
    }
    Ok(content)
}

/// A file's content as it is stored, by what its attributes say: first it is read out of its encoding, then the line
/// ends are converted, and then the keyword. `old_crlf` is as for `back_ends`.
///
/// A content without an encoding that doesn't change is passed on without a copy.
pub fn to_stored(
    alloc: Global,
    ident: bool,
    action: Action,
    encoding: Option<Encoding>,
    old_crlf: bool,
    file: Vec<u8>,
) -> Result<Vec<u8>, BackFault>
    ensures { MatchResult result (λ v. stored ident action encoding old_crlf file.items ≡ Some v.items)
        (λ f. Explains f (stored ident action encoding old_crlf file.items)) }
{
    let content = match back_encoded_if(alloc, encoding, file) {
        Ok(content) => content,
        Err(fault) => return Err(fault),
    };
    let text = ended(alloc, content, action, old_crlf)?;
    Ok(back_ident_if(alloc, ident, text)?)
}
