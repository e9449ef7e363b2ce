//! An attribute file whose patterns were looked at once.
ghost use Rattle.std.specs.Bool.{OnTrue};
ghost use Rattle.std.specs.Prelude.{◌≡◌, true, [], IfOk, OnOk, is_some, map, reverse};
ghost use Rattle.std.specs.List.{list_all};
ghost use Rattle.attr_stack.specs.Pairs.{file_pairs};
ghost use Rattle.attr_stack.specs.Rows.{row_pattern, row_rule, rows_pairs};
ghost use Rattle.attr_stack.specs.Search.{Reads};
ghost use Rattle.attr_stack.specs.Seen.{state_at};

use crate::decide::{is_done, read_rule};
use crate::linked_macros::Frame;
use crate::noted::States;
use attr_line::{AttrFile, AttrRow, Pair};
use byte_path::Bytes;
use std::alloc::{AllocError, Global};
use std::marker::Model;
use wild_match::{Compiled, last_part};

/// The pattern of a row. A macro's has none, so that it is empty and matches nothing.
fn row_pattern(row: &AttrRow) -> &[u8]
    ensures { result.now ≡ row_pattern row.now }
{
    match row {
        AttrRow::Rule { pattern, .. } => pattern.as_slice(),
        AttrRow::Macro { .. } => &[],
    }
}

/// What a row says of the paths that it matches.
fn row_rule(row: &AttrRow) -> &[Pair]
    ensures { result.now ≡ row_rule row.now }
{
    match row {
        AttrRow::Rule { pairs, .. } => pairs.as_slice(),
        AttrRow::Macro { .. } => &[],
    }
}

/// The pattern of each row.
fn patterns_of(alloc: Global, rows: &[AttrRow]) -> Result<Vec<Compiled>, AllocError>
    ensures { IfOk result (λ patterns. patterns.items ≡ map row_pattern rows.now) }
{
    let mut patterns = Vec::with_capacity(alloc, rows.len())?;
    for row in rows {
        patterns.push_reserved(Compiled::of(alloc, row_pattern(row))?);
    }
    Ok(patterns)
}

/// Notes what a row that matches says, and gives whether the search may stop.
fn read_row<'a>(
    names: &[Bytes],
    states: &mut States<'a>,
    frames: &mut Vec<Frame>,
    row: &'a AttrRow,
) -> Result<bool, AllocError>
    ensures states { IfOk result (λ done. Reads names.now (reverse (row_rule row.now))
        states.old.decided [] states.new.decided) }
    ensures done { IfOk result (λ done. OnTrue done
        (list_all (λ name. is_some (state_at states.new.decided name)) names.now ≡ true)) }
{
    read_rule(names, states, frames, row_rule(row))?;
    Ok(is_done(names, states))
}

/// The rows of a file, with the pattern of each.
#[derive(Clone, Copy)]
struct CompiledRows<'a> {
    rows: &'a [AttrRow],
    patterns: &'a [Compiled],
}

/// Notes what these rows decide, from the last on, for a path in the folder of their file. It stops once all names are
/// decided.
fn read_rows<'a>(
    names: &[Bytes],
    states: &mut States<'a>,
    frames: &mut Vec<Frame>,
    compiled: &CompiledRows<'a>,
    path: &[u8],
) -> Result<(), AllocError>
    requires { compiled.now.patterns.now ≡ map row_pattern compiled.now.rows.now }
    ensures { OnOk result (Reads names.now (rows_pairs path.now compiled.now.rows.now)
        states.old.decided [] states.new.decided) }
{
    let CompiledRows { rows, patterns } = *compiled;
    let name = last_part(path);
    for place in (0..rows.len()).rev() {
        if !patterns[place].matches_named(path, name) {
            continue;
        }
        if read_row(names, states, frames, &rows[place])? {
            return Ok(());
        }
    }
    Ok(())
}

/// An attribute file, which contracts see as it was read.
#[derive(Drop)]
pub struct CompiledFile {
    file: AttrFile,
    patterns: Vec<Compiled>,
}

impl Model for CompiledFile {
    ghost use Rattle.std.specs.Prelude.{◌≡◌, map};
    ghost use Rattle.attr_line.specs.declared.file.AttrFile.{AttrFile};
    ghost use Rattle.attr_stack.specs.Rows.{row_pattern};

    ghost Value = { AttrFile };

    ghost view = { λ f. f.file };

    ghost invariant = { λ f. f.patterns.items ≡ map row_pattern f.file.rows };
}

impl CompiledFile {
    /// Looks at each pattern of a file once.
    pub fn of(alloc: Global, file: AttrFile) -> Result<CompiledFile, AllocError>
        ensures { IfOk result (λ compiled. compiled ≡ file) }
    {
        let patterns = patterns_of(alloc, file.rows.as_slice())?;
        Ok(CompiledFile { file, patterns })
    }

    /// Notes what the file decides for a path in its folder.
    pub fn read<'a>(
        &'a self,
        names: &[Bytes],
        states: &mut States<'a>,
        frames: &mut Vec<Frame>,
        path: &[u8],
    ) -> Result<(), AllocError>
        ensures { OnOk result (Reads names.now (file_pairs path.now self.now)
            states.old.decided [] states.new.decided) }
    {
        let rows = self.file.rows.as_slice();
        let patterns = &self.patterns;
        let compiled = CompiledRows { rows, patterns };
        read_rows(names, states, frames, &compiled, path)
    }
}
