//! The bytes of an index.
ghost use Rattle.std.specs.Prelude.{◌≡◌, ◌++◌, ◌<◌, ◌≤◌, [], length, drop, IfOk, OnOk};
ghost use Rattle.git_index.specs.Spelling.{IsIndexText, AreEntries, CanStand, mode_number, padding, flags};
ghost use Rattle.git_index.specs.Spelling.{more, more_flags};
ghost use Rattle.git_index.specs.Spelling.{is_flagged, head_length, plain_version, plain_text, header, bit};
ghost use Rattle.git_index.specs.Spelling.{written, before_of, after_of, spelled, stat_text, first_stat, no_stat};
ghost use Rattle.git_index.specs.Spelling.{version_for};
ghost use Rattle.std.specs.List.{list_any};
ghost use Rattle.std.specs.Int.{w32, to_be_bytes};

use crate::entry::{Entry, Mode};
use crate::path_bytes::{is_flagged, push_path};
use crate::path_part::Before;
use crate::stat::Stat;
use crate::version::Version;
use sha1::Sha1;
use std::alloc::{AllocError, Global};

fn number_of(mode: Mode) -> u32
    ensures { result ≡ mode_number mode }
{
    match mode {
        Mode::Plain => 0x81A4,
        Mode::Executable => 0x81ED,
        Mode::Link => 0xA000,
        Mode::Gitlink => 0xE000,
    }
}

fn flags_of(entry: &Entry, stat: Stat) -> u16
    requires { entry.now.stage < 4 }
    ensures { result ≡ flags (written [] stat entry.now) }
{
    let valid = if stat.valid { 0x8000 } else { 0 };
    let extended = if is_flagged(entry) { 0x4000 } else { 0 };
    valid + extended + entry.stage as u16 * 0x1000 + entry.path.as_slice().len().min(4095) as u16
}

fn more_flags_of(entry: &Entry) -> u16
    ensures { result ≡ more_flags entry.now }
{
    let sparse = if entry.sparse { 0x4000 } else { 0 };
    let intent = if entry.intent { 0x2000 } else { 0 };
    sparse + intent
}

/// The 16 more bits, where the entry needs them.
fn push_more(text: &mut Vec<u8>, entry: &Entry) -> Result<(), AllocError>
    ensures { OnOk result (text.new.items ≡ text.old.items ++ more (is_flagged entry.now) entry.now) }
{
    if is_flagged(entry) {
        text.extend_from_slice(&more_flags_of(entry).to_be_bytes())?;
    }
    Ok(())
}

fn push_number(text: &mut Vec<u8>, number: u32) -> Result<(), AllocError>
    ensures { OnOk result (text.new.items ≡ text.old.items ++ to_be_bytes w32 number) }
{
    text.extend_from_slice(&number.to_be_bytes())
}

/// The times, the device and the inode.
fn push_before(text: &mut Vec<u8>, stat: Stat) -> Result<(), AllocError>
    ensures { OnOk result (text.new.items ≡ text.old.items ++ before_of stat) }
{
    push_number(text, stat.ctime)?;
    push_number(text, stat.ctime_nanos)?;
    push_number(text, stat.mtime)?;
    push_number(text, stat.mtime_nanos)?;
    push_number(text, stat.dev)?;
    push_number(text, stat.ino)
}

/// The user, the group and the size.
fn push_after(text: &mut Vec<u8>, stat: Stat) -> Result<(), AllocError>
    ensures { OnOk result (text.new.items ≡ text.old.items ++ after_of stat) }
{
    push_number(text, stat.uid)?;
    push_number(text, stat.gid)?;
    push_number(text, stat.size)
}

/// An entry after one with this path.
fn push_entry(
    text: &mut Vec<u8>,
    before: &Before,
    entry: &Entry,
    stat: Stat,
) -> Result<(), AllocError>
    requires stage { entry.now.stage < 4 }
    requires path { length before.now.path.now ≤ 4096 }
    ensures { OnOk result (text.new.items ≡ text.old.items
        ++ spelled before.now.version before.now.path.now (written before.now.path.now stat entry.now)) }
{
    push_before(text, stat)?;
    push_number(text, number_of(entry.mode))?;
    push_after(text, stat)?;
    text.extend_from_slice(&entry.name)?;
    text.extend_from_slice(&flags_of(entry, stat).to_be_bytes())?;
    push_more(text, entry)?;
    push_path(text, before, entry)?;
    Ok(())
}

/// What is told of the first file, and of the others.
fn split_stats(stats: &[Stat]) -> (Stat, &[Stat])
    ensures first { result.0 ≡ first_stat stats.now }
    ensures others { result.1.now ≡ drop 1 stats.now }
{
    match stats {
        [first, others @ ..] => (*first, others),
        [] => (Stat::NONE, stats),
    }
}

/// Whether an entry needs the 16 more bits.
fn has_flagged(entries: &[Entry]) -> bool
    ensures { result ≡ list_any is_flagged entries.now }
{
    entries.iter().any(|entry| is_flagged(entry))
}

/// The version of these entries, if this one is wanted.
fn version_for(wanted: Version, entries: &[Entry]) -> Version
    ensures { result ≡ version_for wanted entries.now }
{
    if wanted == Version::Four {
        return Version::Four;
    }
    if has_flagged(entries) {
        Version::Three
    } else {
        Version::Two
    }
}

/// The index of these entries (gitformat-index(5)), with what is told of their files in the same order: zeros where no
/// stat is left for an entry. No extension, and the hash. It has version 4 if that is wanted. Else it has version 3
/// exactly if an entry is sparse or intent, and version 2 if not.
///
/// The entries have to be such as an index may have: in order, with paths that may be written, and with no clash.
/// Their index may be larger than what is read again.
pub fn spell_stat_index(
    alloc: Global,
    wanted: Version,
    entries: &[Entry],
    stats: &[Stat],
) -> Result<Vec<u8>, AllocError>
    requires { CanStand entries.now }
    ensures index { IfOk result (λ text. IsIndexText text.items entries.now) }
    ensures value { IfOk result (λ text. text.items ≡ stat_text wanted entries.now stats.now) }
{
    let version = version_for(wanted, entries);
    let mut text = Vec::new(alloc);
    text.extend_from_slice(b"DIRC")?;
    text.extend_from_slice(&version.number().to_be_bytes())?;
    text.extend_from_slice(&(entries.len() as u32).to_be_bytes())?;
    let mut rest = stats;
    let mut path = b"".as_slice();
    for entry in entries {
        let (stat, others) = split_stats(rest);
        push_entry(&mut text, &Before { version, path }, entry, stat)?;
        rest = others;
        path = entry.path.as_slice();
    }
    let hash = Sha1::digest(&text);
    text.extend_from_slice(&hash)?;
    Ok(text)
}

/// The index of these entries with nothing told of their files: all fields zero but the mode and the flags.
pub fn spell_entries(alloc: Global, entries: &[Entry]) -> Result<Vec<u8>, AllocError>
    requires { CanStand entries.now }
    ensures index { IfOk result (λ text. IsIndexText text.items entries.now) }
    ensures value { IfOk result (λ text. text.items ≡ plain_text entries.now) }
{
    spell_stat_index(alloc, Version::Two, entries, &[])
}

/// The index of these entries, which are those of some index.
pub fn spell_index(alloc: Global, entries: &[Entry]) -> Result<Vec<u8>, AllocError>
    requires { AreEntries entries.now }
    ensures index { IfOk result (λ text. IsIndexText text.items entries.now) }
    ensures value { IfOk result (λ text. text.items ≡ plain_text entries.now) }
{
    spell_entries(alloc, entries)
}
