//! The bytes of an index, as the program can read them.
ghost use Rattle.edge_kit.specs.Told.{Untold, Takes};

use crate::scratch::Scratch;
use edge_adapters::read_whole;
use edge_kit::TakeFault;
use git_answers::{Git, fault_of};
use memchr::memmem;
use std::{fs, io};

/// How many bytes the hash at an index's end has.
const HASH: usize = 20;

/// Whether these bytes can be those of an extension behind its signature: its length, so many bytes, and then at least
/// the index's hash (gitformat-index(5)).
fn is_extension(bytes: &[u8]) -> bool {
    match bytes {
        [a, b, c, d, rest @ ..] => {
            let len = u64::from(u32::from_be_bytes([*a, *b, *c, *d]));
            rest.len() >= HASH && len <= (rest.len() - HASH) as u64
        }
        _ => false,
    }
}

/// Whether an index may have an extension with this signature. It has none if the answer is no.
fn may_have(index: &[u8], signature: &[u8; 4]) -> bool {
    let mut rest = index;
    for _ in 0..index.len() {
        let Some(place) = memmem::find(rest, signature.as_slice()) else {
            return false;
        };
        let (_, found) = rest.split_at(place);
        let (_, behind) = found.split_at(signature.len());
        if is_extension(behind) {
            return true;
        }
        rest = behind;
    }
    false
}

/// Whether an index may be split, or may have folders among its entries.
fn may_be_partial(index: &[u8]) -> bool {
    may_have(index, b"link") || may_have(index, b"sdir")
}

/// A folder for an index, or why none can be made, which is kept.
fn scratch_of(git: &Git, unmade: &mut Option<io::Error>) -> io::Result<Scratch> {
    let made = Scratch::make(git.rt, git.alloc);
    if let Err(error) = &made {
        *unmade = Some(*error);
    }
    made
}

/// The bytes of an index that git writes in a folder of its own, where these bytes are first if there are any. `None`
/// if git can't. What keeps the folder from being made is kept.
fn written(
    git: &Git,
    before: Option<&[u8]>,
    words: &[&str],
    unmade: &mut Option<io::Error>,
) -> io::Result<Option<Vec<u8>>> {
    let scratch = scratch_of(git, unmade)?;
    let path = scratch.path_of(git.alloc, "index")?;
    if let Some(before) = before {
        fs::write(&git.rt, path.as_str(), before)?;
    }
    if !git.run_over(path.as_str(), words)? {
        return Ok(None);
    }
    Ok(Some(fs::read(&git.rt, path.as_str())?))
}

/// An index that git has written, within a limit. What git couldn't write is a fault.
fn limited(written: io::Result<Option<Vec<u8>>>, limit: u64) -> Result<Option<Vec<u8>>, TakeFault>
    ensures { Takes Untold limit result }
{
    match written {
        Ok(Some(bytes)) if bytes.len() as u64 <= limit => Ok(Some(bytes)),
        Ok(Some(_)) => Err(TakeFault::TooLong),
        Ok(None) => Err(TakeFault::Failed),
        Err(error) => Err(fault_of(&error)),
    }
}

/// An index of this tree, by git. What keeps a folder for it from being made is kept.
pub fn index_by_git(
    git: &Git,
    tree: &str,
    limit: u64,
    unmade: &mut Option<io::Error>,
) -> Result<Option<Vec<u8>>, TakeFault>
    ensures { Takes Untold limit result }
{
    limited(written(git, None, &["read-tree", tree], unmade), limit)
}

/// The index at this path, which git makes whole if it is split or has folders among its entries. One that is broken
/// stays as it is. What keeps a folder for it from being made is kept.
pub fn own_index(
    git: &Git,
    path: &str,
    limit: u64,
    unmade: &mut Option<io::Error>,
) -> Result<Option<Vec<u8>>, TakeFault>
    ensures { Takes Untold limit result }
{
    let Some(bytes) = read_whole(git.rt, git.alloc, path, limit)? else {
        return Ok(None);
    };
    if !may_be_partial(bytes.as_slice()) {
        return Ok(Some(bytes));
    }
    let words = ["update-index", "--no-split-index"];
    match written(git, Some(bytes.as_slice()), words.as_slice(), unmade) {
        Ok(None) => Ok(Some(bytes)),
        whole => limited(whole, limit),
    }
}
