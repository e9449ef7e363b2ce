//! Which pair decides each attribute that is asked for.
ghost use Rattle.std.specs.Bool.{OnTrue};
ghost use Rattle.std.specs.Prelude.{◌≡◌, true, ◌||◌, [], ◌∷◌, ◌++◌, ◌+◌, ◌≤◌, List, OnOk};
ghost use Rattle.std.specs.Prelude.{is_some, length, reverse};
ghost use Rattle.std.specs.List.{list_all};
ghost use Rattle.attr_stack.specs.Macros.{MacroLine};
ghost use Rattle.attr_stack.specs.Decided.{body_of};
ghost use Rattle.attr_stack.specs.Links.{left_of};
ghost use Rattle.attr_stack.specs.Numbers.{number_at, AreMacros};
ghost use Rattle.attr_stack.specs.Seen.{from_end, state_at};
ghost use Rattle.attr_stack.specs.Search.{is_asked, Reads};

use crate::linked_macros::{Frame, LinkedMacros, push_frame};
use crate::noted::States;
use attr_line::{AttrState, Pair};
use byte_path::Bytes;
use std::alloc::AllocError;

/// Enters the macro that a pair sets, if it sets one.
fn enter(
    frames: &mut Vec<Frame>,
    macros: &LinkedMacros,
    pair: &Pair,
    number: Option<usize>,
) -> Result<(), AllocError>
    requires { number ≡ number_at macros.now.macros pair.now.name }
    ensures len { OnOk result (length frames.new.items ≤ length frames.old.items + 1) }
    ensures left { OnOk result ((lines : List MacroLine) → AreMacros macros.now.macros lines
        → left_of macros.now.macros frames.new.items
        ≡ body_of lines pair.now ++ left_of macros.now.macros frames.old.items) }
{
    match &pair.state {
        AttrState::Set => push_frame(frames, macros, number),
        _ => Ok(()),
    }
}

/// Whether a name is asked for.
fn is_asked(names: &[Bytes], name: &[u8]) -> bool
    ensures { result ≡ is_asked names.now name.now }
{
    names.iter().any(|other| other.as_slice() == name)
}

/// Whether a name may decide one that is asked for: it is a macro, or it is asked for itself.
fn is_needed(names: &[Bytes], number: Option<usize>, name: &[u8]) -> bool
    ensures { result ≡ (is_some number || is_asked names.now name.now) }
{
    number.is_some() || is_asked(names, name)
}

/// Notes what is left of these macros, of which the last is read first. Nothing is left.
///
/// A pair of a macro that is decided costs two look-ups by number.
fn read_macros<'a>(
    names: &[Bytes],
    states: &mut States<'a>,
    frames: &mut Vec<Frame>,
) -> Result<(), AllocError>
    ensures { OnOk result (Reads names.now (left_of states.old.decided.macros.now.macros frames.old.items)
        states.old.decided [] states.new.decided) }
{
    let macros = states.decided.macros;
    'reading: while let Some(frame) = frames.pop() {
        let Some(last) = macros.last_of(frame) else {
            continue;
        };
        frames.push(last.rest)?;
        if states.is_marked(last.number) {
            continue;
        }
        if !is_needed(names, last.number, last.pair.name.as_slice()) {
            continue;
        }
        if states.note(last.pair, last.number)? {
            enter(frames, macros, last.pair, last.number)?;
        }
    }
    Ok(())
}

/// Notes what a pair decides, and the macro that it sets. That is read in `frames`, whose room serves one pair after
/// another.
fn read_pair<'a>(
    names: &[Bytes],
    states: &mut States<'a>,
    frames: &mut Vec<Frame>,
    pair: &'a Pair,
) -> Result<(), AllocError>
    ensures { OnOk result (Reads names.now (pair.now ∷ []) states.old.decided [] states.new.decided) }
{
    let name = pair.name.as_slice();
    if states.is_recent(name) {
        return Ok(());
    }
    let macros = states.decided.macros;
    let number = macros.number_of(name);
    if !is_needed(names, number, name) {
        return Ok(());
    }
    if states.note(pair, number)? {
        frames.clear();
        enter(frames, macros, pair, number)?;
        read_macros(names, states, frames)?;
    }
    Ok(())
}

/// Notes what these pairs decide, of which the last is read first. None is left.
pub fn read_pairs<'a>(
    names: &[Bytes],
    states: &mut States<'a>,
    frames: &mut Vec<Frame>,
    pending: &mut Vec<&'a Pair>,
) -> Result<(), AllocError>
    ensures { OnOk result (Reads names.now (from_end pending.old.items)
        states.old.decided [] states.new.decided) }
{
    'reading: while let Some(pair) = pending.pop() {
        read_pair(names, states, frames, pair)?;
    }
    Ok(())
}

/// Notes what the pairs of a rule decide, from the last on.
pub fn read_rule<'a>(
    names: &[Bytes],
    states: &mut States<'a>,
    frames: &mut Vec<Frame>,
    pairs: &'a [Pair],
) -> Result<(), AllocError>
    ensures { OnOk result (Reads names.now (reverse pairs.now) states.old.decided [] states.new.decided) }
{
    for place in (0..pairs.len()).rev() {
        read_pair(names, states, frames, &pairs[place])?;
    }
    Ok(())
}

/// Whether something is decided of each of these names.
fn are_known(names: &[Bytes], states: &States<'_>) -> bool
    ensures { result ≡ list_all (λ name. is_some (state_at states.now.decided name)) names.now }
{
    names.iter().all(|name| states.is_known(name.as_slice()))
}

/// Whether each name that is asked for is decided, so that no other pair counts. The names are looked up only where as
/// many are decided as are asked for, so where a name is asked for twice the answer may be `false` all the same.
pub fn is_done(names: &[Bytes], states: &States<'_>) -> bool
    ensures { OnTrue result (list_all (λ name. is_some (state_at states.now.decided name)) names.now ≡ true) }
{
    if states.len() < names.len() {
        return false;
    }
    are_known(names, states)
}
