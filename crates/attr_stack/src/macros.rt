//! The macros of the top files.
ghost use Rattle.std.specs.Prelude.{◌≡◌, ◌∷◌, ◌++◌, List, IfOk, OnOk};
ghost use Rattle.attr_stack.specs.Macros.{MacroLine, unset, binary, row_macros, file_macros, top_macros, macros_of};
ghost use Rattle.attr_stack.specs.Numbers.{number_at, number_pairs, AreMacros};

use crate::files::{AttrFiles, FileAt, file_of};
use crate::states::copy_of;
use attr_line::{AttrRow, AttrState, Pair};
use byte_path::{Bytes, Items};
use std::alloc::{AllocError, Global};
use std::collections::BTreeMap;

/// A macro: its name, and what it stands for.
#[derive(Drop)]
pub struct Body {
    pub name: Bytes,
    pub pairs: Items<Pair>,
}

/// The macros. A number is a place among their bodies.
#[derive(Drop)]
pub struct Macros {
    /// The number that each name got last.
    pub numbers: BTreeMap<Vec<u8>, usize>,
    pub bodies: Vec<Body>,
}

/// The number of a macro.
pub fn number_of(macros: &Macros, name: &[u8]) -> Option<usize>
    ensures { result ≡ number_at macros.now name.now }
{
    let number = *macros.numbers.get(name)?;
    let body = macros.bodies.get(number)?;
    if body.name.as_slice() == name {
        Some(number)
    } else {
        None
    }
}

/// What the macro with a number stands for: nothing, if there is none.
pub fn meaning_of(macros: &Macros, number: Option<usize>) -> &[Pair]
    ensures { result.now ≡ number_pairs macros.now number }
{
    let Some(number) = number else {
        return &[];
    };
    match macros.bodies.get(number) {
        Some(body) => body.pairs.as_slice(),
        None => &[],
    }
}

fn unset(alloc: Global, name: &[u8]) -> Result<Pair, AllocError>
    ensures { IfOk result (λ pair. pair ≡ unset name.now) }
{
    let name = Bytes::copy_of(alloc, name)?;
    Ok(Pair {
        name,
        state: AttrState::Unset,
    })
}

/// What the built-in macro `binary` stands for.
fn binary_pairs(alloc: Global) -> Result<Vec<Pair>, AllocError>
    ensures { IfOk result (λ pairs. pairs.items ≡ binary.pairs) }
{
    let mut pairs = Vec::with_capacity(alloc, 3)?;
    pairs.push_reserved(unset(alloc, b"diff")?);
    pairs.push_reserved(unset(alloc, b"merge")?);
    pairs.push_reserved(unset(alloc, b"text")?);
    Ok(pairs)
}

fn pair_of(alloc: Global, pair: &Pair) -> Result<Pair, AllocError>
    ensures { IfOk result (λ copy. copy ≡ pair.now) }
{
    Ok(Pair {
        name: Bytes::copy_of(alloc, pair.name.as_slice())?,
        state: copy_of(alloc, &pair.state)?,
    })
}

fn pairs_of(alloc: Global, pairs: &[Pair]) -> Result<Vec<Pair>, AllocError>
    ensures { IfOk result (λ copy. copy.items ≡ pairs.now) }
{
    let mut copy = Vec::with_capacity(alloc, pairs.len())?;
    for pair in pairs {
        copy.push_reserved(pair_of(alloc, pair)?);
    }
    Ok(copy)
}

/// Adds a macro that is met before those that are there.
fn define(
    alloc: Global,
    macros: &mut Macros,
    name: &[u8],
    pairs: Vec<Pair>,
) -> Result<(), AllocError>
    ensures { OnOk result ((lines : List MacroLine) → AreMacros macros.old lines
        → AreMacros macros.new (record { name = name.now; pairs = pairs.items } ∷ lines)) }
{
    let number = macros.bodies.len();
    let key = Vec::from_slice(alloc, name)?;
    macros.bodies.push(Body {
        name: Bytes::copy_of(alloc, name)?,
        pairs: Items::from_vec(pairs),
    })?;
    macros.numbers.insert(key, number)?;
    Ok(())
}

fn define_row(alloc: Global, macros: &mut Macros, row: &AttrRow) -> Result<(), AllocError>
    ensures { OnOk result ((lines : List MacroLine) → AreMacros macros.old lines
        → AreMacros macros.new (row_macros row.now ++ lines)) }
{
    match row {
        AttrRow::Macro { name, pairs } => {
            let pairs = pairs_of(alloc, pairs.as_slice())?;
            define(alloc, macros, name.as_slice(), pairs)
        }
        AttrRow::Rule { .. } => Ok(()),
    }
}

fn define_rows(alloc: Global, macros: &mut Macros, rows: &[AttrRow]) -> Result<(), AllocError>
    ensures { OnOk result ((lines : List MacroLine) → AreMacros macros.old lines
        → AreMacros macros.new (file_macros rows.now ++ lines)) }
{
    for row in rows {
        define_row(alloc, macros, row)?;
    }
    Ok(())
}

fn define_top(alloc: Global, macros: &mut Macros, files: &[FileAt]) -> Result<(), AllocError>
    ensures { OnOk result ((lines : List MacroLine) → AreMacros macros.old lines
        → AreMacros macros.new (top_macros files.now ++ lines)) }
{
    match file_of(files, b"") {
        Some(content) => {
            let file = content.open(alloc)?;
            define_rows(alloc, macros, file.rows.as_slice())
        }
        None => Ok(()),
    }
}

/// The macros of `info/attributes`, of the top folder's file and of the lowest file, and `binary`.
pub fn macros_of(alloc: Global, files: &AttrFiles) -> Result<Macros, AllocError>
    ensures { IfOk result (λ macros. AreMacros macros (macros_of files.now)) }
{
    let mut macros = Macros {
        numbers: BTreeMap::new(alloc),
        bodies: Vec::new(alloc),
    };
    define(alloc, &mut macros, b"binary", binary_pairs(alloc)?)?;
    define_rows(alloc, &mut macros, files.base.rows.as_slice())?;
    define_top(alloc, &mut macros, files.files.as_slice())?;
    define_rows(alloc, &mut macros, files.info.rows.as_slice())?;
    Ok(macros)
}
