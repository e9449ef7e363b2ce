//! The header of a section.
ghost use Rattle.std.specs.Prelude.{◌≡◌, ◌<◌, ◌≤◌, length, false, [], IfOk};
ghost use Rattle.git_config.specs.Text.{Gives};
ghost use Rattle.git_config.specs.Header.{plain_head, sub_at, quoted_head_at, named_at, header_at};

use crate::fault::{ConfigFault, LineKind};
use crate::setting::Head;
use crate::shared::Shared;
use crate::text::{Dot, EndsName, behind_blanks, is_blank, lowered};
use byte_path::{Bytes, len_to};
use std::alloc::Global;

/// The section of a name without a subsection in quotes.
#[tactic(auto, unfolding(crate::specs::Header::plain_head))]
fn plain_head(alloc: Global, name: &[u8]) -> Result<Head, ConfigFault>
    ensures { Gives (λ h. h) result (Ok (plain_head name.now)) }
{
    let dot = len_to::<Dot>(name);
    let (section, _) = name.split_at(dot);
    let section = Shared::from_bytes(alloc, lowered(alloc, section)?)?;
    if dot == name.len() {
        return Ok(Head { section, sub: None });
    }
    let (_, sub) = name.split_at(dot + 1);
    let sub = Some(Shared::from_bytes(alloc, lowered(alloc, sub)?)?);
    Ok(Head { section, sub })
}

/// A subsection after its opening quote, and the text after its closing one.
#[tactic(auto, unfolding(crate::specs::Header::sub_at))]
fn sub_of(alloc: Global, line: u32, text: &[u8]) -> Result<(Vec<u8>, &[u8]), ConfigFault>
    ensures value { Gives (λ x. (x.0.items, x.1.now)) result (sub_at line false [] text.now) }
    ensures within { IfOk result (λ x. length x.1.now ≤ length text.now) }
{
    let mut sub = Vec::new(alloc);
    let mut rest = text;
    let mut escaped = false;
    'bytes: while let Some((byte, behind)) = rest.split_first() {
        let byte = *byte;
        if byte == b'\n' {
            break;
        }
        if byte == b'"' && !escaped {
            return Ok((sub, behind));
        }
        if byte == b'\\' && !escaped {
            escaped = true;
        } else {
            escaped = false;
            sub.push(byte)?;
        }
        rest = behind;
    }
    Err(ConfigFault::Line(line, LineKind::Section))
}

/// A subsection in quotes and `]`, after the name and its blanks.
#[tactic(auto, unfolding(crate::specs::Header::quoted_head_at))]
fn quoted_head_of<'a>(
    alloc: Global,
    line: u32,
    name: &[u8],
    text: &'a [u8],
) -> Result<(Head, &'a [u8]), ConfigFault>
    ensures value { Gives (λ x. (x.0, x.1.now)) result (quoted_head_at line name.now text.now) }
    ensures within { IfOk result (λ x. length x.1.now ≤ length text.now) }
{
    let [b'"', behind @ ..] = text else {
        return Err(ConfigFault::Line(line, LineKind::Section));
    };
    let (sub, after) = sub_of(alloc, line, behind)?;
    let [b']', rest @ ..] = after else {
        return Err(ConfigFault::Line(line, LineKind::Section));
    };
    let section = Shared::from_bytes(alloc, lowered(alloc, name)?)?;
    let sub = Some(Shared::from_bytes(alloc, Bytes::from_vec(sub))?);
    Ok((Head { section, sub }, rest))
}

/// What follows a section's name: `]`, or a subsection.
#[tactic(auto, unfolding(crate::specs::Header::named_at))]
fn named_of<'a>(
    alloc: Global,
    line: u32,
    name: &[u8],
    text: &'a [u8],
) -> Result<(Head, &'a [u8]), ConfigFault>
    ensures value { Gives (λ x. (x.0, x.1.now)) result (named_at line name.now text.now) }
    ensures within { IfOk result (λ x. length x.1.now ≤ length text.now) }
{
    let fault = ConfigFault::Line(line, LineKind::Section);
    if name.is_empty() {
        return Err(fault);
    }
    let Some((first, behind)) = text.split_first() else {
        return Err(fault);
    };
    if *first == b']' {
        let head = plain_head(alloc, name)?;
        return Ok((head, behind));
    }
    if !is_blank(*first) {
        return Err(fault);
    }
    quoted_head_of(alloc, line, name, behind_blanks(text))
}

/// A header after its `[`, and the text after its `]`.
#[tactic(auto, unfolding(crate::specs::Header::header_at))]
pub fn header_of(alloc: Global, line: u32, text: &[u8]) -> Result<(Head, &[u8]), ConfigFault>
    ensures value { Gives (λ x. (x.0, x.1.now)) result (header_at line text.now) }
    ensures within { IfOk result (λ x. length x.1.now ≤ length text.now) }
{
    let (name, rest) = text.split_at(len_to::<EndsName>(text));
    named_of(alloc, line, name, rest)
}
