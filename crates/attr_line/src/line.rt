//! One line.
ghost use Rattle.std.specs.Prelude.{◌≡◌, IfOk};
ghost use Rattle.attr_line.specs.Line.{plain_head, head_at, is_macro, macro_outcome, rule_outcome};
ghost use Rattle.attr_line.specs.Line.{text_outcome, line_outcome};
ghost use Rattle.attr_line.specs.Seen.{head_of};

use crate::file::AttrRow;
use crate::outcome::{LineFault, Outcome};
use crate::pairs::{is_name, pairs_of};
use crate::text::{Gap, behind_gaps};
use byte_path::{Bytes, QuoteFault, len_to, unquote};
use std::alloc::{AllocError, Global};

/// The shortest line that is too long, in bytes without its end.
const LONG_LEN: usize = 2048;

/// What a macro's pattern begins with.
const MACRO_PREFIX: &[u8; 6] = b"[attr]";

/// The pattern at the front of a line.
#[derive(Drop)]
struct Front<'a> {
    pattern: Bytes,
    /// Whether it was read as a quoted text.
    quoted: bool,
    /// What follows it.
    rest: &'a [u8],
}

/// A pattern up to the first blank or CR.
fn plain_front<'a>(alloc: Global, text: &'a [u8]) -> Result<Front<'a>, AllocError>
    ensures { IfOk result (λ x. head_of x ≡ plain_head text.now) }
{
    let (pattern, rest) = text.split_at(len_to::<Gap>(text));
    Ok(Front {
        pattern: Bytes::copy_of(alloc, pattern)?,
        quoted: false,
        rest,
    })
}

/// A pattern up to its closing quote, or a plain one if it doesn't begin with a quote or can't be read as quoted.
#[tactic(auto, unfolding(crate::specs::Line::head_at))]
fn front_of<'a>(alloc: Global, text: &'a [u8]) -> Result<Front<'a>, AllocError>
    ensures { IfOk result (λ x. head_of x ≡ head_at text.now) }
{
    if text.first() != Some(&b'"') {
        return plain_front(alloc, text);
    }
    match unquote(alloc, text) {
        Ok((pattern, len)) => {
            let (_, rest) = text.split_at(len);
            Ok(Front {
                pattern,
                quoted: true,
                rest,
            })
        }
        Err(QuoteFault::NoMemory) => Err(AllocError),
        Err(QuoteFault::Unclosed | QuoteFault::BadEscape) => plain_front(alloc, text),
    }
}

/// Whether the line defines a macro.
fn is_macro(front: &Front<'_>) -> bool
    ensures { result ≡ is_macro (head_of front.now) }
{
    let pattern = front.pattern.as_slice();
    !front.quoted && pattern.starts_with(MACRO_PREFIX) && pattern.len() > MACRO_PREFIX.len()
}

/// A macro with this name.
#[tactic(auto, unfolding(crate::specs::Line::macro_outcome))]
fn macro_of(alloc: Global, top: bool, name: &[u8], rest: &[u8]) -> Result<Outcome, AllocError>
    ensures { IfOk result (λ o. o ≡ macro_outcome top name.now rest.now) }
{
    if !top {
        return Ok(Outcome::Skip(LineFault::Place));
    }
    if !is_name(name) {
        return Ok(Outcome::Skip(LineFault::Name));
    }
    let Some(pairs) = pairs_of(alloc, rest)? else {
        return Ok(Outcome::Skip(LineFault::Name));
    };
    let name = Bytes::copy_of(alloc, name)?;
    Ok(Outcome::Row(AttrRow::Macro { name, pairs }))
}

/// A row for the paths that match this pattern.
#[tactic(auto, unfolding(crate::specs::Line::rule_outcome))]
fn rule_of(alloc: Global, pattern: Bytes, rest: &[u8]) -> Result<Outcome, AllocError>
    ensures { IfOk result (λ o. o ≡ rule_outcome pattern rest.now) }
{
    if pattern.as_slice().first() == Some(&b'!') {
        return Ok(Outcome::Skip(LineFault::Negative));
    }
    match pairs_of(alloc, rest)? {
        Some(pairs) => Ok(Outcome::Row(AttrRow::Rule { pattern, pairs })),
        None => Ok(Outcome::Skip(LineFault::Name)),
    }
}

/// What a line says after its leading blanks and CR.
#[tactic(auto, unfolding(crate::specs::Line::text_outcome, crate::specs::Line::head_outcome))]
fn text_of(alloc: Global, top: bool, text: &[u8]) -> Result<Outcome, AllocError>
    ensures { IfOk result (λ o. o ≡ text_outcome top text.now) }
{
    if text.is_empty() || text.first() == Some(&b'#') {
        return Ok(Outcome::Nothing);
    }
    let front = front_of(alloc, text)?;
    if is_macro(&front) {
        let (_, name) = front.pattern.as_slice().split_at(MACRO_PREFIX.len());
        return macro_of(alloc, top, name, front.rest);
    }
    rule_of(alloc, front.pattern, front.rest)
}

/// What a line says, without its end.
#[tactic(auto, unfolding(crate::specs::Line::line_outcome))]
pub fn line_of(alloc: Global, top: bool, line: &[u8]) -> Result<Outcome, AllocError>
    ensures { IfOk result (λ o. o ≡ line_outcome top line.now) }
{
    if line.len() >= LONG_LEN {
        return Ok(Outcome::Skip(LineFault::Long));
    }
    text_of(alloc, top, behind_gaps(line))
}
