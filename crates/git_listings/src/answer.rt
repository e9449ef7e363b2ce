//! The lines of an answer, as `git check-attr` prints them.
ghost use Rattle.std.specs.Prelude.{◌≡◌, ◌++◌, IfOk, OnOk, length};
ghost use Rattle.byte_path.specs.Quote.{quoted};
ghost use Rattle.git_listings.specs.Answer.{state_text, line, answer};

use attr_line::AttrState;
use byte_path::{Bytes, quote_path};
use std::alloc::{AllocError, Global};

/// A state as `git check-attr` writes it.
pub fn text_of(state: &AttrState) -> &[u8]
    ensures { result.now ≡ state_text state.now }
{
    match state {
        AttrState::Set => b"set",
        AttrState::Unset => b"unset",
        AttrState::Unspecified => b"unspecified",
        AttrState::Value(value) => value.as_slice(),
    }
}

fn push_line(
    text: &mut Vec<u8>,
    shown: &[u8],
    name: &[u8],
    state: &AttrState,
) -> Result<(), AllocError>
    ensures { OnOk result (text.new.items ≡ text.old.items ++ line shown.now name.now state.now) }
{
    text.extend_from_slice(shown)?;
    text.extend_from_slice(b": ")?;
    text.extend_from_slice(name)?;
    text.extend_from_slice(b": ")?;
    text.extend_from_slice(text_of(state))?;
    text.push(b'\n')?;
    Ok(())
}

/// A line for each name with its state, for a path that is quoted if it needs quotes.
fn push_answer(
    text: &mut Vec<u8>,
    alloc: Global,
    path: &[u8],
    names: &[Bytes],
    states: &[AttrState],
) -> Result<(), AllocError>
    requires { length names.now ≡ length states.now }
    ensures { OnOk result (text.new.items ≡ text.old.items ++ answer (quoted path.now) names.now states.now) }
{
    let shown = quote_path(alloc, path)?;
    for (place, name) in names.iter().enumerate() {
        push_line(text, &shown, name.as_slice(), &states[place])?;
    }
    Ok(())
}

/// The lines of a path's answer.
pub fn answer_with(
    alloc: Global,
    path: &[u8],
    names: &[Bytes],
    states: &[AttrState],
) -> Result<Vec<u8>, AllocError>
    requires { length names.now ≡ length states.now }
    ensures { IfOk result (λ text. text.items ≡ answer (quoted path.now) names.now states.now) }
{
    let mut text = Vec::new(alloc);
    push_answer(&mut text, alloc, path, names, states)?;
    Ok(text)
}
