//! Entries of an index that stand in one folder.
ghost use Rattle.std.specs.Prelude.{◌≡◌, ◌<◌, ◌≤◌, ◌^◌, length, drop, position, IfSome};
ghost use Rattle.tree_cache.specs.Folders.{is_slash, is_apart, run_length};

use git_index::Entry;

/// What stands of the entry's path behind a folder's path of this length.
pub fn rest_of(entry: &Entry, at: usize) -> &[u8]
    ensures { result.now ≡ drop at entry.now.path }
{
    let path = entry.path.as_slice();
    if at < path.len() {
        let (_, rest) = path.split_at(at);
        rest
    } else {
        b"".as_slice()
    }
}

/// Where the first slash stands.
pub fn slash_in(rest: &[u8]) -> Option<usize>
    ensures value { result ≡ position is_slash rest.now }
    ensures within { IfSome result (λ n. n < length rest.now) }
{
    rest.iter().position(|byte| *byte == b'/')
}

/// Whether the entry doesn't stand in the subfolder with this name and slash.
fn is_apart(entry: &Entry, at: usize, name: &[u8]) -> bool
    ensures { result ≡ is_apart at name.now entry.now }
{
    !rest_of(entry, at).starts_with(name)
}

/// The first entry that doesn't stand in the subfolder with this name and slash.
fn first_apart(entries: &[Entry], at: usize, name: &[u8]) -> Option<usize>
    ensures value { result ≡ position (is_apart at name.now) entries.now }
    ensures within { IfSome result (λ n. n < length entries.now) }
{
    entries.iter().position(|entry| is_apart(entry, at, name))
}

/// How many entries at the front stand in the subfolder with this name and slash.
pub fn run_len(entries: &[Entry], at: usize, name: &[u8]) -> usize
    ensures value { result ≡ run_length at name.now entries.now }
    ensures within { result ≤ length entries.now }
    ensures few { result < 2 ^ 63 }
{
    let count = entries.len();
    match first_apart(entries, at, name) {
        Some(place) => place,
        None => count,
    }
}
