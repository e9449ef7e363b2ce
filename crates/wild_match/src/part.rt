//! One part of a pattern and one part of a path, each up to its `/`.
ghost use Rattle.std.specs.Prelude.{◌≡◌, ◌+◌, ◌≤◌, false, length, drop};
ghost use Rattle.wild_match.specs.Pieces.{pieces};
ghost use Rattle.wild_match.specs.Steps.{IsPart, IsStep, next_split, seen_back, texts_of};

use crate::front::{one_length, slash_length};

/// What is in front of a pattern, with the number of its bytes, and whether a path goes on with it.
#[derive(Clone, Copy)]
pub enum MatchStep {
    /// A star.
    Star(usize),
    /// A piece for one byte, which the path's first byte passes.
    Byte(usize),
    /// A `/`, as in the path.
    Behind(usize),
    /// Nothing, and the path has ended too.
    Matched,
    /// The path doesn't fit.
    Stuck,
}

/// What is left of a pattern and of a path.
#[derive(Clone, Copy)]
pub struct Remaining<'a> {
    pub pattern: &'a [u8],
    pub path: &'a [u8],
}

/// How a part ended.
#[derive(Clone, Copy)]
pub enum PartEnd<'a> {
    /// The pattern had `**/`, and this is after it.
    Folders(Remaining<'a>),
    /// The part fits, and this is after its `/`.
    Behind(Remaining<'a>),
    /// The whole pattern fits.
    Matched,
    /// It doesn't fit.
    Stuck,
}

/// What is left of each after this many bytes.
fn moved<'a>(at: Remaining<'a>, pattern_len: usize, path_len: usize) -> Remaining<'a>
    requires pattern { pattern_len ≤ length at.pattern.now }
    requires path { path_len ≤ length at.path.now }
    ensures { texts_of result ≡ (drop pattern_len at.entry.pattern.now, drop path_len at.entry.path.now) }
{
    let (_, pattern) = at.pattern.split_at(pattern_len);
    let (_, path) = at.path.split_at(path_len);
    Remaining { pattern, path }
}

/// One step within a part.
fn front_step(pattern: &[u8], path: &[u8]) -> MatchStep
    ensures { IsStep pattern.now path.now result }
{
    if pattern.is_empty() {
        return if path.is_empty() {
            MatchStep::Matched
        } else {
            MatchStep::Stuck
        };
    }
    if pattern[0] == b'*' {
        return MatchStep::Star(1);
    }
    if path.is_empty() {
        return MatchStep::Stuck;
    }
    if path[0] == b'/' {
        return match slash_length(pattern) {
            Some(len) => MatchStep::Behind(len),
            None => MatchStep::Stuck,
        };
    }
    match one_length(pattern, path[0]) {
        Some(len) => MatchStep::Byte(len),
        None => MatchStep::Stuck,
    }
}

/// Where what follows a star is tried next, which is one byte on, but never after a `/`.
fn next_split<'a>(back: Option<Remaining<'a>>) -> Option<Remaining<'a>>
    ensures { seen_back result ≡ next_split (seen_back back.entry) }
{
    let tried = back?;
    match tried.path {
        [] | [b'/', ..] => None,
        _ => Some(moved(tried, 0, 1)),
    }
}

/// Goes over one part. It goes back to the last star alone: what an earlier star could take, the last one can take too.
pub fn part_from<'a>(start: Remaining<'a>) -> PartEnd<'a>
    ensures { IsPart (pieces false start.entry.pattern.now) start.entry.pattern.now start.entry.path.now result }
{
    let mut at = start;
    let mut back = None;
    'bytes: loop {
        match front_step(at.pattern, at.path) {
            MatchStep::Star(len) => {
                at = moved(at, len, 0);
                back = Some(at);
            }
            MatchStep::Byte(len) => at = moved(at, len, 1),
            MatchStep::Behind(len) => return PartEnd::Behind(moved(at, len, 1)),
            MatchStep::Matched => return PartEnd::Matched,
            MatchStep::Stuck => match next_split(back) {
                Some(next) => {
                    at = next;
                    back = Some(next);
                }
                None => return PartEnd::Stuck,
            },
        }
    }
}
