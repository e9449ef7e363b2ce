//! A content with the line ends of the worktree.
ghost use Rattle.std.specs.Prelude.{◌≡◌, ◌≢◌, ◌≤◌, ◌++◌, IfOk, OnOk, length};
ghost use Rattle.std.specs.Bool.{OnTrue, OnFalse};
ghost use Rattle.eol_convert.specs.Content.{with_crlf, to_tree_ends};
ghost use Rattle.eol_convert.specs.Windows.{crlf_from};

use crate::looks::is_lf_text;
use crate::setting::LineEnds;
use crate::windows::{WINDOW, fill_block};
use memchr::memchr;
use std::alloc::{AllocError, Global};

/// What becomes of many windows is appended at once.
const BLOCK: usize = 1024;

/// Whether a content has an LF without a CR before it.
fn has_bare_lf(content: &[u8]) -> bool
    ensures changed { OnTrue result (with_crlf content.now ≢ content.now) }
    ensures same { OnFalse result (with_crlf content.now ≡ content.now) }
{
    let mut rest = content;
    'lines: while let Some(end) = memchr(b'\n', rest) {
        let (line, _) = rest.split_at(end);
        if !line.ends_with(b"\r") {
            return true;
        }
        let (_, behind) = rest.split_at(end + 1);
        rest = behind;
    }
    false
}

/// Whether the content changes on its way to the worktree. It takes no memory.
///
/// If it doesn't, a caller needs no copy of the content. If it does, it becomes what `ToCrlf` gives, so a caller can
/// ask for that and needs no second test.
pub fn changes_ends(content: &[u8], ends: LineEnds) -> bool
    ensures changed { OnTrue result (to_tree_ends content.now ends ≢ content.now) }
    ensures same { OnFalse result (to_tree_ends content.now ends ≡ content.now) }
    ensures crlf { OnTrue result (to_tree_ends content.now ends ≡ with_crlf content.now) }
{
    match ends {
        LineEnds::Keep => false,
        LineEnds::ToCrlf => has_bare_lf(content),
        // In this order the test of a content with CR ends at the first CR.
        LineEnds::AutoCrlf => is_lf_text(content) && has_bare_lf(content),
    }
}

/// Appends what becomes of a content from a place on, byte by byte.
fn push_rest(text: &mut Vec<u8>, content: &[u8], from: usize) -> Result<(), AllocError>
    requires { from ≤ length content.now }
    ensures { OnOk result (text.new.items ≡ text.old.items ++ crlf_from content.now from) }
{
    let mut at = from;
    'bytes: while at < content.len() {
        let byte = content[at];
        if byte == b'\n' && content[at.saturating_sub(1)] != b'\r' {
            text.push(b'\r')?;
        }
        text.push(byte)?;
        at += 1;
    }
    Ok(())
}

/// A content in which each LF without a CR before it is CR LF.
fn with_crlf(alloc: Global, content: &[u8]) -> Result<Vec<u8>, AllocError>
    ensures { IfOk result (λ text. text.items ≡ with_crlf content.now) }
{
    // Room for one more byte in each line of 16 bytes or more.
    let mut text = Vec::with_capacity(alloc, content.len() + content.len() / 16 + WINDOW)?;
    let mut block = [0; BLOCK];
    let mut from = 0;
    'blocks: while from + 2 * WINDOW <= content.len() {
        let reach = fill_block(&mut block, content, from);
        text.extend_from_slice(&block[..reach.at])?;
        from = reach.from;
    }
    push_rest(&mut text, content, from)?;
    Ok(text)
}

/// The content of a blob as it stands in the worktree, with these line ends (gitattributes(5), "End-of-line
/// conversion").
///
/// A content that doesn't change is copied. gitattributes(5) leaves open which contents are texts under `AutoCrlf`: the
/// rule is that of git 2.39.
pub fn to_tree_ends(alloc: Global, content: &[u8], ends: LineEnds) -> Result<Vec<u8>, AllocError>
    ensures { IfOk result (λ text. text.items ≡ to_tree_ends content.now ends) }
{
    if changes_ends(content, ends) {
        with_crlf(alloc, content)
    } else {
        Vec::from_slice(alloc, content)
    }
}
