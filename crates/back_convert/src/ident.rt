//! The keyword `$Id$`, as it was before it was expanded.
ghost use Rattle.std.specs.Prelude.{◌≡◌, IfOk, MatchOption, false, position};
ghost use Rattle.ident_convert.specs.Ident.{is_dollar};
ghost use Rattle.back_convert.specs.Ident.{back_ident, has_expanded, old_len, IsFirstExpanded};

use memchr::memchr;
use std::alloc::{AllocError, Global};

/// The place of the first `$`.
fn dollar_place(text: &[u8]) -> Option<usize>
    ensures { result ≡ position is_dollar text.now }
{
    memchr(b'$', text)
}

/// How many bytes the expanded keyword at the start of a text takes: `$Id:` and all up to the next `$`, if no LF stands
/// between.
#[tactic(auto, unfolding(crate::specs::Ident::old_len))]
fn old_len(text: &[u8]) -> Option<usize>
    ensures { result ≡ old_len text.now }
{
    if !text.starts_with(b"$Id:") {
        return None;
    }
    let (_, behind) = text.split_at(4);
    let end = dollar_place(behind)?;
    let (middle, _) = behind.split_at(end);
    if middle.contains(&b'\n') {
        None
    } else {
        Some(end + 5)
    }
}

/// The place of an expanded keyword in a text, and how many bytes it takes.
#[derive(Clone, Copy)]
struct Expanded {
    start: usize,
    len: usize,
}

/// The first expanded keyword of a text. It takes no memory.
fn first_expanded(text: &[u8]) -> Option<Expanded>
    ensures { MatchOption result (has_expanded text.now ≡ false) (λ k. IsFirstExpanded text.now k.start k.len) }
{
    let mut place = 0;
    'dollars: loop {
        let (_, rest) = text.split_at(place);
        let Some(at) = memchr(b'$', rest) else {
            return None;
        };
        let (_, found) = rest.split_at(at);
        if let Some(len) = old_len(found) {
            let start = place + at;
            return Some(Expanded { start, len });
        }
        place += at + 1;
    }
}

/// Whether a content has an expanded keyword `$Id: .. $`, with no LF between its first `:` and the next `$`. It takes
/// no memory. A content without one stays, so a caller needs no copy of it.
pub fn has_expanded(content: &[u8]) -> bool
    ensures { result ≡ has_expanded content.now }
{
    first_expanded(content).is_some()
}

/// A content with each expanded keyword `$Id: .. $` as `$Id$` again (gitattributes(5), "ident"). Between its first `:`
/// and the next `$` there is no LF.
///
/// A content without one is copied.
pub fn back_ident(alloc: Global, content: &[u8]) -> Result<Vec<u8>, AllocError>
    ensures { IfOk result (λ text. text.items ≡ back_ident content.now) }
{
    let mut text = Vec::with_capacity(alloc, content.len())?;
    let mut place = 0;
    'keywords: loop {
        let (_, rest) = content.split_at(place);
        let Some(found) = first_expanded(rest) else {
            text.extend_from_slice(rest)?;
            return Ok(text);
        };
        let (plain, _) = rest.split_at(found.start);
        text.extend_from_slice(plain)?;
        text.extend_from_slice(b"$Id$")?;
        place += found.start + found.len;
    }
}
