//! What an entry says of the kind of its file, and what stands there.
use crate::folder_entry::found_below;
use crate::raw_index::RawIndex;
use byte_path::Bytes;
use edge_adapters::LeafPlace;
use git_index::{Entry, Mode};
use std::alloc::{AllocError, Global};
use std::fs::Metadata;
use std::os::unix::fs::MetadataExt;

/// What the file system of a worktree keeps of a file's kind.
#[derive(Clone, Copy)]
pub struct KeptKinds {
    /// Whether it keeps links (git-config(1), core.symlinks).
    pub links: bool,
    /// Whether it keeps the executable bit (git-config(1), core.fileMode).
    pub modes: bool,
}

/// An entry whose file is of another kind than it says.
#[derive(Drop)]
pub struct OtherKind {
    pub path: Bytes,
    /// What the entry says.
    pub said: Mode,
    /// What stands there.
    pub found: Mode,
}

/// The mode of a path in an index.
#[derive(Clone, Copy)]
pub struct PathMode<'a> {
    pub path: &'a [u8],
    pub mode: Mode,
}

/// The mode of a file, where the file system keeps the executable bit.
fn mode_of_file(found: &Metadata) -> Mode {
    if found.mode() & 0o100 == 0 {
        Mode::Plain
    } else {
        Mode::Executable
    }
}

/// The mode that git gives what was found in the place of an entry with this mode. `None` for what is neither a file nor
/// a link.
fn mode_of(found: &Metadata, said: Mode, kept: KeptKinds) -> Option<Mode> {
    if found.is_symlink() {
        return Some(Mode::Link);
    }
    if !found.is_file() {
        return None;
    }
    match said {
        Mode::Link if !kept.links => Some(Mode::Link),
        Mode::Plain | Mode::Executable if !kept.modes => Some(said),
        _ if !kept.modes => Some(Mode::Plain),
        _ => Some(mode_of_file(found)),
    }
}

/// The mode of what stands in the place of the entry, if that is told: not of a submodule.
fn found_mode(
    rt: HostRuntime,
    folder: &str,
    entry: &Entry,
    kept: KeptKinds,
) -> Result<Option<Mode>, AllocError> {
    let (false, Ok(path)) = (
        matches!(entry.mode, Mode::Gitlink),
        str::from_utf8(entry.path.as_slice()),
    ) else {
        return Ok(None);
    };
    let place = LeafPlace::new(rt.alloc(), folder, path)?;
    match found_below(rt, &place) {
        Ok(found) => Ok(mode_of(&found, entry.mode, kept)),
        Err(_) => Ok(None),
    }
}

/// What is of another kind than the entry says, if something is.
pub fn other_kind_at(
    rt: HostRuntime,
    folder: &str,
    entry: &Entry,
    kept: KeptKinds,
) -> Result<Option<OtherKind>, AllocError> {
    match found_mode(rt, folder, entry, kept)? {
        Some(found) if found != entry.mode => Ok(Some(OtherKind {
            path: Bytes::copy_of(rt.alloc(), entry.path.as_slice())?,
            said: entry.mode,
            found,
        })),
        _ => Ok(None),
    }
}

/// The number that an index has for a mode (gitformat-index(5)).
fn number_of(mode: Mode) -> u32 {
    match mode {
        Mode::Plain => 0o100644,
        Mode::Executable => 0o100755,
        Mode::Link => 0o120000,
        Mode::Gitlink => 0o160000,
    }
}

/// The mode at this place, if that is of this path.
fn mode_at(modes: &[PathMode<'_>], place: usize, path: &[u8]) -> Option<Mode> {
    match modes.get(place) {
        Some(found) if found.path == path => Some(found.mode),
        _ => None,
    }
}

/// The index with these modes, and with no hash. They stand in its order.
pub fn with_modes(
    alloc: Global,
    raw: &RawIndex<'_>,
    entries: &[Entry],
    modes: &[PathMode<'_>],
) -> Result<Vec<u8>, AllocError> {
    let mut index = raw.begun(alloc)?;
    let mut place = 0usize;
    for (entry, spelled) in entries.iter().zip(raw.entries.iter()) {
        match mode_at(modes, place, entry.path.as_slice()) {
            Some(mode) => {
                let found = spelled.of_mode(number_of(mode));
                found.push(raw.version, &mut index)?;
                place = place.saturating_add(1);
            }
            None => spelled.push(raw.version, &mut index)?,
        }
    }
    raw.end(&mut index)?;
    Ok(index)
}
