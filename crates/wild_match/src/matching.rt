//! A whole pattern and a whole path.
ghost use Rattle.std.specs.Prelude.{◌≡◌, ◌<◌, ◌≤◌, ◌-◌, ◌++◌, false, length, take, position, IfSome};
ghost use Rattle.std.specs.List.{list_any};
ghost use Rattle.wild_match.specs.Fits.{fits, is_match, is_slash, last_part, without_slash};
ghost use Rattle.wild_match.specs.Pieces.{is_folders, is_rest, pieces};
ghost use Rattle.wild_match.specs.Steps.{IsPart, next_folder, seen_back};

use crate::part::{PartEnd, Remaining, part_from};
use memchr::memrchr;

fn is_folders(pattern: &[u8]) -> bool
    ensures { result ≡ is_folders pattern.now }
{
    pattern.starts_with(b"**/")
}

fn is_rest(pattern: &[u8]) -> bool
    ensures { result ≡ is_rest pattern.now }
{
    pattern == b"**".as_slice()
}

/// Goes over `**/`, over `**` at the end, or over one part. The first two are these only at the start of a part.
fn fresh_part<'a>(at: Remaining<'a>, fresh: bool) -> PartEnd<'a>
    ensures { IsPart (pieces fresh at.entry.pattern.now) at.entry.pattern.now at.entry.path.now result }
{
    let (pattern, path) = (at.pattern, at.path);
    if fresh {
        if is_folders(pattern) {
            let (_, later) = pattern.split_at(3);
            return PartEnd::Folders(Remaining {
                pattern: later,
                path,
            });
        }
        if is_rest(pattern) {
            return if path.is_empty() {
                PartEnd::Stuck
            } else {
                PartEnd::Matched
            };
        }
    }
    part_from(at)
}

fn slash_at(text: &[u8]) -> Option<usize>
    ensures value { result ≡ position is_slash text.now }
    ensures within { IfSome result (λ n. n < length text.now) }
{
    text.iter().position(|b| *b == b'/')
}

/// Where what follows `**/` is tried next, which is after the next `/`.
fn next_folder<'a>(back: Option<Remaining<'a>>) -> Option<Remaining<'a>>
    ensures { seen_back result ≡ next_folder (seen_back back.entry) }
{
    let tried = back?;
    match slash_at(tried.path) {
        Some(slash) => {
            let (_, path) = tried.path.split_at(slash + 1);
            Some(Remaining {
                pattern: tried.pattern,
                path,
            })
        }
        None => None,
    }
}

/// Whether the pattern matches the path; `fresh`: its front is the start of a part.
///
/// It goes back to the last `**/` alone, since what an earlier one could take, the last one can take too. So the whole
/// takes at most as many steps as the pattern has bytes times those of the path.
pub fn fits(pattern: &[u8], fresh: bool, path: &[u8]) -> bool
    ensures { result ≡ fits (pieces fresh pattern.now) path.now }
{
    let mut at = Remaining { pattern, path };
    let mut is_fresh = fresh;
    let mut back = None;
    'parts: loop {
        match fresh_part(at, is_fresh) {
            PartEnd::Folders(later) => {
                at = later;
                back = Some(later);
            }
            PartEnd::Behind(later) => at = later,
            PartEnd::Matched => return true,
            PartEnd::Stuck => match next_folder(back) {
                Some(next) => {
                    at = next;
                    back = Some(next);
                }
                None => return false,
            },
        }
        is_fresh = true;
    }
}

/// A pattern without one `/` in front.
pub fn without_slash(pattern: &[u8]) -> &[u8]
    ensures { result.now ≡ without_slash pattern.now }
{
    match pattern {
        [b'/', ..] => {
            let (_, later) = pattern.split_at(1);
            later
        }
        _ => pattern,
    }
}

/// What follows the last `/` of a path.
pub fn last_part(path: &[u8]) -> &[u8]
    ensures value { result.now ≡ last_part path.now }
    ensures within { length result.now ≤ length path.now }
    ensures behind { path.now ≡ take (length path.now - length result.now) path.now ++ result.now }
    ensures no_slash { list_any is_slash result.now ≡ false }
{
    match memrchr(b'/', path) {
        Some(slash) => {
            let (_, name) = path.split_at(slash + 1);
            name
        }
        None => path,
    }
}

/// Whether a pattern of an attribute file matches a path, which is relative to that file's folder: gitattributes(5), by
/// the rules of gitignore(5).
///
/// An empty pattern and one that ends in `/` match nothing. One with a `/` is compared with the whole path, and any
/// other with its last part. It takes no memory, and at most about pattern times path steps.
#[tactic(auto, unfolding(crate::specs::Fits::is_match))]
pub fn matches(pattern: &[u8], path: &[u8]) -> bool
    ensures { result ≡ is_match pattern.now path.now }
{
    match pattern {
        [] | [.., b'/'] => false,
        _ if pattern.contains(&b'/') => fits(without_slash(pattern), true, path),
        _ => fits(pattern, false, last_part(path)),
    }
}
