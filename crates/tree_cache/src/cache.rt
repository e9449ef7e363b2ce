//! The tree cache of the entries of an index.
ghost use Rattle.std.specs.Prelude.{◌≡◌, IfOk};
ghost use Rattle.std.specs.List.{list_all};
ghost use Rattle.tree_cache.specs.Folders.{is_cached_entry, GivesCache};

use crate::folder::{folder_of, node_of};
use byte_path::ObjectId;
use git_index::Entry;
use std::alloc::{AllocError, Global};

/// A path has fewer folders than this.
const MOST_FOLDERS: u32 = 4097;

/// The tree cache of an index.
#[derive(Drop)]
pub struct TreeCache {
    /// The name of the root tree. It names, with the trees below it, each tree of the cache.
    pub root: ObjectId,
    /// The content of the extension.
    pub text: Vec<u8>,
}

/// Whether a tree has the entry: it isn't unmerged or only to be added, and its path isn't longer than that of a file.
fn is_cached_entry(entry: &Entry) -> bool
    ensures { result ≡ is_cached_entry entry.now }
{
    entry.stage == 0 && !entry.intent && entry.path.as_slice().len() <= 4096
}

/// Whether trees have each of the entries.
fn are_cached(entries: &[Entry]) -> bool
    ensures { result ≡ list_all is_cached_entry entries.now }
{
    entries.iter().all(|entry| is_cached_entry(entry))
}

/// The tree cache of these entries, which stand in the order of an index. `None` if there is an entry that no tree has.
pub fn cache_of(alloc: Global, entries: &[Entry]) -> Result<Option<TreeCache>, AllocError>
    ensures { IfOk result (GivesCache entries.now) }
{
    if !are_cached(entries) {
        return Ok(None);
    }
    let folder = folder_of(alloc, entries, 0, MOST_FOLDERS)?;
    let text = node_of(alloc, b"", entries.len(), &folder)?;
    Ok(Some(TreeCache {
        root: folder.tree,
        text,
    }))
}

#[cfg(test)]
mod tests {
    use super::cache_of;
    use byte_path::{Bytes, ObjectId};
    use git_index::{Entry, Mode};
    use std::alloc::AllocError;

    /// The empty blob.
    const EMPTY: ObjectId =
        *b"\xE6\x9D\xE2\x9B\xB2\xD1\xD6\x43\x4B\x8B\x29\xAE\x77\x5A\xD8\xC2\xE4\x8C\x53\x91";

    /// What `git write-tree` leaves in the index of these paths.
    const TEXT: &[u8] =
        b"\07 3\n\xDE\x9B\x2F\x7A\xB8\x71\x99\x07\xA0\xBE\x67\x28\x53\xEE\xBA\x96\x20\xEF\xC0\x82\
        a\02 1\n\x01\x89\xD2\x13\xCC\x47\x58\x0D\x8B\xD9\xE8\x30\xFF\x6C\xDC\xC3\x28\xB4\xAD\x91\
        b\01 0\n\x3D\x5A\x50\x3F\x40\x62\xD1\x98\xB4\x43\xDB\x50\x65\xCA\x72\x7F\x83\x54\xE7\xDF\
        b\01 0\n\x58\x05\xB6\x76\xE2\x47\xEB\x9A\x80\x46\xAD\x0C\x4D\x24\x9C\xD2\xFB\x25\x13\xDF\
        aaa\01 0\n\x58\x05\xB6\x76\xE2\x47\xEB\x9A\x80\x46\xAD\x0C\x4D\x24\x9C\xD2\xFB\x25\x13\xDF";

    const PATHS: [(&[u8], Mode); 7] = [
        (b"a-b", Mode::Plain),
        (b"a/b/f", Mode::Plain),
        (b"a/g", Mode::Executable),
        (b"aaa/x", Mode::Plain),
        (b"b/x", Mode::Plain),
        (b"l", Mode::Link),
        (b"sub", Mode::Gitlink),
    ];

    #[test]
    fn it_is_that_of_git(rt: HostRuntime) -> Result<(), AllocError> {
        let mut entries = Vec::new(rt.alloc());
        for (path, mode) in PATHS {
            entries.push(Entry {
                path: Bytes::copy_of(rt.alloc(), path)?,
                stage: 0,
                mode,
                name: EMPTY,
                sparse: false,
                intent: false,
            })?;
        }
        let cache = cache_of(rt.alloc(), entries.as_slice())?;
        assert!(rt; cache.is_some_and(|cache| cache.text.as_slice() == TEXT));
        Ok(())
    }
}
