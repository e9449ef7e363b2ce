//! Rows as JSON objects (RFC 8259), in memory.
ghost use Rattle.std.specs.Prelude.{◌≡◌, ◌∷◌, ◌++◌, [], IfOk, OnOk, map, List};
ghost use Rattle.json.specs.Token.{Token, begin_object, end_object};
ghost use Rattle.json.specs.Print.{print};
ghost use Rattle.byte_path.specs.Characters.{line_feed};
ghost use Rattle.reports.specs.Fields.{shown, field_of, number_of};
ghost use Rattle.reports.specs.Objects.{Appends, list_tokens, name_tokens, value_tokens, members_of, numbers_members};
ghost use Rattle.reports.specs.Objects.{object_line, byte_token};
ghost use Rattle.reports.specs.Objects.{path_members, total_members, number_members, refusal_members};

use crate::row::{Cell, CellValue, Count, PathRow};
use json::Writer;
use std::alloc::{AllocError, Global};

/// Appends the bytes of a name as numbers.
fn push_bytes(writer: &mut Writer, name: &[u8]) -> Result<(), AllocError>
    ensures { OnOk result (Appends (map byte_token name.now) writer.old writer.new) }
{
    for byte in name {
        writer.u64(u64::from(*byte))?;
    }
    Ok(())
}

/// Appends the list of a name's bytes.
fn push_list(writer: &mut Writer, name: &[u8]) -> Result<(), AllocError>
    ensures { OnOk result (Appends (list_tokens name.now) writer.old writer.new) }
{
    writer.begin_array()?;
    push_bytes(writer, name)?;
    writer.end_array()
}

/// Appends a name: a text, or the list of its bytes if it isn't UTF-8.
#[tactic(auto, using(crate::proofs::Texts::text, crate::proofs::Texts::no_text))]
fn push_name(writer: &mut Writer, name: &[u8]) -> Result<(), AllocError>
    ensures { OnOk result (Appends (name_tokens name.now) writer.old writer.new) }
{
    match str::from_utf8(name) {
        Ok(text) => writer.string(text),
        Err(_) => push_list(writer, name),
    }
}

/// Appends what a cell holds.
fn push_value(writer: &mut Writer, value: &CellValue<'_>) -> Result<(), AllocError>
    ensures { OnOk result (Appends (value_tokens (shown value.now)) writer.old writer.new) }
{
    match *value {
        CellValue::Word(word) => writer.string(word),
        CellValue::Absent => writer.null(),
        CellValue::Flag { is_set, .. } => writer.boolean(is_set),
        CellValue::Name(name) => push_name(writer, name),
    }
}

/// Appends the members of cells.
fn push_cells(writer: &mut Writer, cells: &[Cell<'_>]) -> Result<(), AllocError>
    ensures { OnOk result (Appends (members_of (map field_of cells.now)) writer.old writer.new) }
{
    for cell in cells {
        writer.key(cell.key)?;
        push_value(writer, &cell.value)?;
    }
    Ok(())
}

/// Appends the members of numbers.
fn push_counts(writer: &mut Writer, counts: &[Count<'_>]) -> Result<(), AllocError>
    ensures { OnOk result (Appends (numbers_members (map number_of counts.now)) writer.old writer.new) }
{
    for count in counts {
        writer.key(count.key)?;
        writer.u64(count.number)?;
    }
    Ok(())
}

/// A writer in whose text an object has begun.
fn begun(alloc: Global) -> Result<Writer, AllocError>
    ensures { IfOk result (λ w. (w.before ≡ []) × (w.tokens ≡ begin_object ∷ [])) }
{
    let mut writer = Writer::new(Vec::new(alloc));
    writer.begin_object()?;
    Ok(writer)
}

/// The text of a writer, whose object ends, and LF.
fn ended(mut writer: Writer) -> Result<Vec<u8>, AllocError>
    ensures { IfOk result (λ v. v.items ≡ writer.before ++ (print (writer.tokens ++ end_object ∷ []) ++ line_feed ∷ [])) }
{
    writer.end_object()?;
    let mut text = writer.into_inner();
    text.push(b'\n')?;
    Ok(text)
}

/// The object of a path's row.
pub fn path_object(alloc: Global, row: &PathRow<'_>) -> Result<Vec<u8>, AllocError>
    ensures { IfOk result (λ v. v.items ≡ object_line (path_members row.now.path.now (map field_of row.now.cells.now))) }
{
    let mut writer = begun(alloc)?;
    writer.key("path")?;
    push_name(&mut writer, row.path)?;
    push_cells(&mut writer, row.cells)?;
    ended(writer)
}

/// The object of a word and its numbers.
pub fn total_object(alloc: Global, word: &str, counts: &[Count<'_>]) -> Result<Vec<u8>, AllocError>
    ensures { IfOk result (λ v. v.items ≡ object_line (total_members word.now (map number_of counts.now))) }
{
    let mut writer = begun(alloc)?;
    writer.key(word)?;
    writer.begin_object()?;
    push_counts(&mut writer, counts)?;
    writer.end_object()?;
    ended(writer)
}

/// The object of a word and its number.
pub fn number_object(alloc: Global, word: &str, number: u64) -> Result<Vec<u8>, AllocError>
    ensures { IfOk result (λ v. v.items ≡ object_line (number_members word.now number)) }
{
    let mut writer = begun(alloc)?;
    writer.key(word)?;
    writer.u64(number)?;
    ended(writer)
}

/// The object of a refusal.
pub fn refusal_object(alloc: Global, words: &[u8]) -> Result<Vec<u8>, AllocError>
    ensures { IfOk result (λ v. v.items ≡ object_line (refusal_members words.now)) }
{
    let mut writer = begun(alloc)?;
    writer.key("refused")?;
    push_name(&mut writer, words)?;
    ended(writer)
}
