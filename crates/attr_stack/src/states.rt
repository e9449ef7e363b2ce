//! The decided state of each name that is asked for.
ghost use Rattle.std.specs.Prelude.{◌≡◌, ℕ, true, List, IfOk, map};
ghost use Rattle.attr_stack.specs.Decided.{decision, state_of};
ghost use Rattle.attr_stack.specs.Macros.{macros_of};
ghost use Rattle.attr_stack.specs.Search.{is_asked};
ghost use Rattle.attr_stack.specs.Numbers.{AreMacros};
ghost use Rattle.attr_stack.specs.Seen.{said_in, state_at};

use crate::decide::read_pairs;
use crate::files::AttrFiles;
use crate::linked_macros::LinkedMacros;
use crate::macros::macros_of;
use crate::noted::States;
use crate::open_file::{OpenFile, opened};
use crate::reach::push_all;
use attr_line::AttrState;
use byte_path::Bytes;
use std::alloc::{AllocError, Global};

/// A copy of a state.
pub fn copy_of(alloc: Global, state: &AttrState) -> Result<AttrState, AllocError>
    ensures { IfOk result (λ copy. copy ≡ state.now) }
{
    match state {
        AttrState::Set => Ok(AttrState::Set),
        AttrState::Unset => Ok(AttrState::Unset),
        AttrState::Unspecified => Ok(AttrState::Unspecified),
        AttrState::Value(value) => Ok(AttrState::Value(Bytes::copy_of(alloc, value.as_slice())?)),
    }
}

/// What is decided of a name.
fn state_in(alloc: Global, states: &States<'_>, name: &[u8]) -> Result<AttrState, AllocError>
    ensures { IfOk result (λ state. state ≡ said_in states.now.decided name.now) }
{
    match states.get(name) {
        Some(state) => copy_of(alloc, state),
        None => Ok(AttrState::Unspecified),
    }
}

/// What is decided of each name.
pub fn states_in(
    alloc: Global,
    decided: &States<'_>,
    names: &[Bytes],
) -> Result<Vec<AttrState>, AllocError>
    ensures { IfOk result (λ states. states.items ≡ map (said_in decided.now.decided) names.now) }
{
    let mut states = Vec::with_capacity(alloc, names.len())?;
    for name in names {
        states.push_reserved(state_in(alloc, decided, name.as_slice())?);
    }
    Ok(states)
}

/// All attribute files with their rows, and the macros.
#[derive(Clone, Copy)]
struct Opened<'a> {
    files: &'a AttrFiles,
    folders: &'a [OpenFile],
    macros: &'a LinkedMacros,
}

/// What is decided of some names for a path.
fn decided_of<'a>(
    alloc: Global,
    opened: &Opened<'a>,
    path: &[u8],
    names: &[Bytes],
) -> Result<States<'a>, AllocError>
    requires folders { opened.now.folders.now ≡ opened.now.files.now.files }
    requires macros { AreMacros opened.now.macros.now.macros (macros_of opened.now.files.now) }
    ensures { IfOk result (λ states. (name : List ℕ) → is_asked names.now name ≡ true
        → state_at states.decided name ≡ decision opened.now.files.now path.now name) }
{
    let Opened {
        files,
        folders,
        macros,
    } = *opened;
    let mut pending = Vec::new(alloc);
    push_all(&mut pending, files, folders, path)?;
    let mut states = States::new(alloc, macros)?;
    let mut frames = Vec::new(alloc);
    read_pairs(names, &mut states, &mut frames, &mut pending)?;
    Ok(states)
}

/// The state of each name for a path, in the order of the names (gitattributes(5), "DESCRIPTION").
///
/// It opens the files of all folders. Then the time is that of matching each row of the files that reach the path. Each
/// of their pairs takes a look-up among the names, among the macros, and among what is decided.
pub fn attributes_of(
    alloc: Global,
    files: &AttrFiles,
    path: &[u8],
    names: &[Bytes],
) -> Result<Vec<AttrState>, AllocError>
    ensures { IfOk result (λ states. states.items ≡ map (state_of files.now path.now) names.now) }
{
    let macros = LinkedMacros::of(alloc, macros_of(alloc, files)?)?;
    let folders = opened(alloc, files.files.as_slice())?;
    let all = Opened {
        files,
        folders: &folders,
        macros: &macros,
    };
    let decided = decided_of(alloc, &all, path, names)?;
    states_in(alloc, &decided, names)
}
