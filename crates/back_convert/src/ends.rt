//! A content with the line ends of the repository.
ghost use Rattle.std.specs.Prelude.{◌≡◌, IfOk, MatchOption, true, false};
ghost use Rattle.back_convert.specs.Ends.{begins_with_lf, has_crlf, without_cr, back_auto, back_ends};

use eol_convert::{Action, LineEnds, changes_ends};
use memchr::memchr;
use std::alloc::{AllocError, Global};

fn begins_with_lf(content: &[u8]) -> bool
    ensures { result ≡ begins_with_lf content.now }
{
    match content.first() {
        Some(byte) => *byte == b'\n',
        None => false,
    }
}

/// Whether a content has a CR directly before an LF. It takes no memory.
pub fn has_crlf(content: &[u8]) -> bool
    ensures { result ≡ has_crlf content.now }
{
    let mut rest = content;
    'lines: while let Some(end) = memchr(b'\r', rest) {
        let (_, found) = rest.split_at(end);
        let (_, behind) = found.split_at(1);
        if begins_with_lf(behind) {
            return true;
        }
        rest = behind;
    }
    false
}

/// A content without each CR directly before an LF.
fn without_cr(alloc: Global, content: &[u8]) -> Result<Vec<u8>, AllocError>
    ensures { IfOk result (λ text. text.items ≡ without_cr content.now) }
{
    let mut text = Vec::with_capacity(alloc, content.len())?;
    let mut rest = content;
    'lines: while let Some(end) = memchr(b'\r', rest) {
        let (line, found) = rest.split_at(end);
        text.extend_from_slice(line)?;
        let (_, behind) = found.split_at(1);
        if !begins_with_lf(behind) {
            text.push(b'\r')?;
        }
        rest = behind;
    }
    text.extend_from_slice(rest)?;
    Ok(text)
}

/// An automatic file that has CR LF, without the CRs if it looks like a text.
fn changed_auto(alloc: Global, content: &[u8]) -> Result<Option<Vec<u8>>, AllocError>
    requires { has_crlf content.now ≡ true }
    ensures { IfOk result (λ text. MatchOption text (back_auto content.now false ≡ content.now)
        (λ v. v.items ≡ back_auto content.now false)) }
{
    let text = without_cr(alloc, content)?;
    // It has an LF, so it changes exactly if it looks like a text.
    if changes_ends(&text, LineEnds::AutoCrlf) {
        return Ok(Some(text));
    }
    Ok(None)
}

/// A file's content as it stands in the repository, if that is another content. A caller then needs no copy of one that
/// stays.
pub fn changed_ends(
    alloc: Global,
    content: &[u8],
    action: Action,
    old_crlf: bool,
) -> Result<Option<Vec<u8>>, AllocError>
    ensures { IfOk result (λ text. MatchOption text (back_ends content.now action old_crlf ≡ content.now)
        (λ v. v.items ≡ back_ends content.now action old_crlf)) }
{
    if !has_crlf(content) {
        return Ok(None);
    }
    match action {
        Action::Binary => Ok(None),
        Action::TextLf | Action::TextCrlf => Ok(Some(without_cr(alloc, content)?)),
        Action::AutoLf | Action::AutoCrlf => {
            if old_crlf {
                Ok(None)
            } else {
                changed_auto(alloc, content)
            }
        }
    }
}

/// A file's content as it stands in the repository, by what is done with its line ends (gitattributes(5), "End-of-line
/// conversion"). `old_crlf` says that the index's content of the path has a CR directly before an LF.
///
/// A content that doesn't change is copied.
pub fn back_ends(
    alloc: Global,
    content: &[u8],
    action: Action,
    old_crlf: bool,
) -> Result<Vec<u8>, AllocError>
    ensures { IfOk result (λ text. text.items ≡ back_ends content.now action old_crlf) }
{
    match changed_ends(alloc, content, action, old_crlf)? {
        Some(text) => Ok(text),
        None => Vec::from_slice(alloc, content),
    }
}
