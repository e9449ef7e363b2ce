//! What stands between `[` and its `]`.
ghost use Rattle.std.specs.Prelude.{◌≡◌, ℕ, ◌+◌, ◌<◌, ◌≤◌, true, length, drop, position, IfSome};
ghost use Rattle.std.specs.List.{position_or_len};
ghost use Rattle.wild_match.specs.Steps.{IsClose};
ghost use Rattle.wild_match.specs.Members.{class_length, closes, end_at, has, is_close, opens_class};
ghost use Rattle.wild_match.specs.Members.{member_at, range_at, seen, set_members};

use crate::classes::{Class, class_named, is_in_class};

/// What a set has: the bytes from one to another, or those of a class.
#[derive(Clone, Copy)]
pub enum Member {
    Range(u8, u8),
    Named(Class),
}

fn has(member: Member, byte: u8) -> bool
    ensures { result ≡ has member byte }
{
    match member {
        Member::Range(low, high) => low <= byte && byte <= high,
        Member::Named(class) => is_in_class(class, byte),
    }
}

/// A byte, or `\` and a byte, and how many bytes of the text that takes.
#[tactic(auto, unfolding(crate::specs::Members::end_at))]
fn end_at(text: &[u8]) -> Option<(u8, usize)>
    ensures value { result ≡ end_at text.now }
    ensures within { IfSome result (λ x. (0 < x.1) × (x.1 ≤ length text.now)) }
{
    match text {
        [] | [b'\\'] => None,
        [b'\\', byte, ..] => Some((*byte, 2)),
        [byte, ..] => Some((*byte, 1)),
    }
}

/// A range, or a byte where none begins with it, by its first end.
#[tactic(auto, unfolding(crate::specs::Members::range_at))]
fn range_at(text: &[u8], low: u8, len: usize) -> Option<(Member, usize)>
    requires start { 0 < len }
    requires end { len ≤ length text.now }
    ensures value { result ≡ range_at text.now (low, len) }
    ensures within { IfSome result (λ x. (0 < x.1) × (x.1 ≤ length text.now)) }
{
    let (_, behind) = text.split_at(len);
    if behind.len() < 2 || behind[0] != b'-' || behind[1] == b']' {
        return Some((Member::Range(low, low), len));
    }
    let (_, high_text) = text.split_at(len + 1);
    let (high, high_len) = end_at(high_text)?;
    Some((Member::Range(low, high), len + 1 + high_len))
}

fn bracket_at(text: &[u8]) -> Option<usize>
    ensures value { result ≡ position is_close text.now }
    ensures within { IfSome result (λ n. n < length text.now) }
{
    text.iter().position(|b| *b == b']')
}

/// Where the first `]` stands, or the text's end.
fn close_at(text: &[u8]) -> usize
    ensures value { result ≡ position_or_len is_close text.now }
    ensures within { result ≤ length text.now }
{
    match bracket_at(text) {
        Some(close) => close,
        None => text.len(),
    }
}

fn opens_class(text: &[u8]) -> bool
    ensures { result ≡ opens_class text.now }
{
    text.len() >= 2 && text[0] == b'[' && text[1] == b':'
}

/// Where the first `]` stands from two bytes after a place on, if a class may open there. `known` is that of an earlier
/// place, so that a set is searched once and not for each `[:` again.
fn next_close(text: &[u8], place: usize, known: usize) -> usize
    requires place { place ≤ length text.now }
    requires known { IsClose text.now (place + 2) known }
    ensures known { IsClose text.now (place + 2) result }
    ensures opened { opens_class (drop place text.now) ≡ true → result
        ≡ place + 2 + position_or_len is_close (drop (place + 2) text.now) }
{
    let (_, rest) = text.split_at(place);
    if !opens_class(rest) || place + 2 <= known {
        return known;
    }
    let (_, name) = text.split_at(place + 2);
    place + 2 + close_at(name)
}

/// How long the name of a class is, if the text begins with one: `[:`, the name and `:]`, which has the first `]` after
/// `[:`.
#[tactic(auto, unfolding(crate::specs::Members::class_length))]
fn class_length(text: &[u8], close: usize) -> Option<usize>
    requires { opens_class text.now ≡ true → close ≡ position_or_len is_close (drop 2 text.now) }
    ensures value { result ≡ class_length text.now }
    ensures within { IfSome result (λ n. n + 4 ≤ length text.now) }
{
    if !opens_class(text) {
        return None;
    }
    let (_, name) = text.split_at(2);
    if close < name.len() && close > 0 && name[close - 1] == b':' {
        Some(close - 1)
    } else {
        None
    }
}

/// The member in front of a text, and how many bytes it takes.
#[tactic(auto, unfolding(crate::specs::Members::member_at))]
fn member_at(text: &[u8], close: usize) -> Option<(Member, usize)>
    requires { opens_class text.now ≡ true → close ≡ position_or_len is_close (drop 2 text.now) }
    ensures value { result ≡ member_at text.now }
    ensures within { IfSome result (λ x. (0 < x.1) × (x.1 ≤ length text.now)) }
{
    if let Some(len) = class_length(text, close) {
        let (_, named) = text.split_at(2);
        let (name, _) = named.split_at(len);
        let class = class_named(name)?;
        return Some((Member::Named(class), len + 4));
    }
    let (low, len) = end_at(text)?;
    range_at(text, low, len)
}

/// Whether the set ends here, this many bytes after its start.
fn closes(text: &[u8], place: usize) -> bool
    ensures { result ≡ closes text.now place }
{
    place > 0 && !text.is_empty() && text[0] == b']'
}

/// Whether a byte is a member of a set, and how many bytes the set takes with its `]`. `None` if it has no `]` or an
/// unknown class.
pub fn is_in_members(text: &[u8], byte: u8) -> Option<(bool, usize)>
    ensures value { result ≡ seen byte (set_members text.now) }
    ensures within { IfSome result (λ x. (0 < x.1) × (x.1 ≤ length text.now)) }
{
    let mut found = false;
    let mut place = 0;
    let mut close = 0;
    'members: loop {
        let (_, rest) = text.split_at(place);
        if closes(rest, place) {
            return Some((found, place + 1));
        }
        close = next_close(text, place, close);
        let Some((member, len)) = member_at(rest, close.saturating_sub(place + 2)) else {
            return None;
        };
        found = found || has(member, byte);
        place += len;
    }
}
