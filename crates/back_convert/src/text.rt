//! The text of a content in a form.
ghost use Rattle.std.specs.Prelude.{◌≡◌, MatchResult, Some, IfNone, IfSome, IfOk};
ghost use Rattle.std.specs.List.{flat_map};
ghost use Rattle.back_convert.specs.Encoding.{text_of, ending, Explains};
ghost use Rattle.back_convert.specs.Ascii.{BeginsWithText, GoesOn};

use crate::encoding::BackFault;
use crate::form::Form;
use std::alloc::{AllocError, Global};

/// The sixteen characters of ASCII with which bytes begin, and what follows them.
#[inline(always)]
fn first_sixteen<F: Form<WIDE>, const WIDE: usize>(bytes: &[u8]) -> Option<([u8; 16], &[u8])>
    ensures { IfSome result (λ r. BeginsWithText F.chars bytes.now r.0 r.1.now) }
{
    let (block, behind) = bytes.split_first_chunk::<WIDE>()?;
    let ascii = F::sixteen(block)?;
    Some((ascii, behind))
}

/// The 64 characters of ASCII with which bytes begin, in four parts, and what follows them.
#[inline(always)]
fn first_sixteens<F: Form<WIDE>, const WIDE: usize>(bytes: &[u8]) -> Option<([[u8; 16]; 4], &[u8])>
    ensures { IfSome result (λ r. BeginsWithText F.chars bytes.now (flat_map (λ x. x) r.0) r.1.now) }
{
    let (first, bytes) = first_sixteen::<F, WIDE>(bytes)?;
    let (second, bytes) = first_sixteen::<F, WIDE>(bytes)?;
    let (third, bytes) = first_sixteen::<F, WIDE>(bytes)?;
    let (fourth, bytes) = first_sixteen::<F, WIDE>(bytes)?;
    Some(([first, second, third, fourth], bytes))
}

/// So many characters are read one by one before sixteen are tried at once again.
const FEW: u8 = 16;

/// Appends the first characters of bytes, up to `most`, and gives what follows them. There are none where the bytes
/// end, or are refused. `few` is room for them.
fn push_few<'a, F: Form<WIDE>, const WIDE: usize>(
    text: &mut Vec<u8>,
    few: &mut String,
    bytes: &'a [u8],
    most: u8,
) -> Result<Option<&'a [u8]>, AllocError>
    ensures none { IfOk result (λ behind. IfNone behind (F.chars bytes.now ≡ ending bytes.now)) }
    ensures some { IfOk result (λ behind. IfSome behind (λ r.
        GoesOn F.chars text.old.items bytes.now text.new.items r.now)) }
    ensures kept { IfOk result (λ behind. IfNone behind (text.new.items ≡ text.old.items)) }
{
    let Some((character, behind)) = F::first(bytes) else {
        return Ok(None);
    };
    few.clear();
    few.push(character)?;
    let mut rest = behind;
    for _count in 1..most {
        let Some((character, behind)) = F::first(rest) else {
            break;
        };
        few.push(character)?;
        rest = behind;
    }
    text.extend_from_slice(few.as_bytes())?;
    Ok(Some(rest))
}

/// Appends the first characters of bytes, as many as are read at once. The rest is as for `push_few`.
///
/// Where no sixteen are found at once, twice as many characters are read one by one the next time.
fn push_first<'a, F: Form<WIDE>, const WIDE: usize>(
    text: &mut Vec<u8>,
    few: &mut String,
    bytes: &'a [u8],
    most: &mut u8,
) -> Result<Option<&'a [u8]>, AllocError>
    ensures none { IfOk result (λ behind. IfNone behind (F.chars bytes.now ≡ ending bytes.now)) }
    ensures some { IfOk result (λ behind. IfSome behind (λ r.
        GoesOn F.chars text.old.items bytes.now text.new.items r.now)) }
    ensures kept { IfOk result (λ behind. IfNone behind (text.new.items ≡ text.old.items)) }
{
    if let Some(found) = first_sixteens::<F, WIDE>(bytes) {
        let (sixteens, behind) = found;
        text.extend_from_slice(sixteens.as_flattened())?;
        *most = FEW;
        return Ok(Some(behind));
    }
    if let Some(found) = first_sixteen::<F, WIDE>(bytes) {
        let (sixteen, behind) = found;
        text.extend_from_slice(&sixteen)?;
        *most = FEW;
        return Ok(Some(behind));
    }
    let count = *most;
    *most = count.saturating_mul(2);
    push_few::<F, WIDE>(text, few, bytes, count)
}

/// A content in a form, as UTF-8.
pub(crate) fn decoded<F: Form<WIDE>, const WIDE: usize>(
    alloc: Global,
    bytes: &[u8],
) -> Result<Vec<u8>, BackFault>
    ensures { MatchResult result (λ v. text_of (F.chars bytes.now) ≡ Some v.items)
        (λ f. Explains f (text_of (F.chars bytes.now))) }
{
    let mut text = Vec::with_capacity(alloc, bytes.len() / 2)?;
    let mut few = String::with_capacity(alloc, 64)?;
    let mut most = FEW;
    let mut rest = bytes;
    'text: while let Some(behind) = push_first::<F, WIDE>(&mut text, &mut few, rest, &mut most)? {
        rest = behind;
    }
    if !rest.is_empty() {
        return Err(BackFault::Form);
    }
    Ok(text)
}
