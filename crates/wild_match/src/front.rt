//! The pieces of a pattern that stand for one byte.
ghost use Rattle.std.specs.Prelude.{◌≡◌, ◌+◌, ◌<◌, ◌≤◌, length, IfSome};
ghost use Rattle.wild_match.specs.Pieces.{set_front, plain_front};
ghost use Rattle.wild_match.specs.Steps.{one_of, single_of, slash_of, IsSingle};

use crate::sets::is_in_members;

/// How many bytes the set after `[` takes, with the `[`, if a byte passes it.
#[tactic(auto, unfolding(crate::specs::Pieces::set_front))]
fn set_length(text: &[u8], byte: u8) -> Option<usize>
    ensures value { result ≡ one_of byte (set_front text.now) }
    ensures within { IfSome result (λ n. (0 < n) × (n ≤ length text.now + 1)) }
{
    if let [b'!' | b'^', ..] = text {
        let (_, behind) = text.split_at(1);
        let (is_member, len) = is_in_members(behind, byte)?;
        return if is_member { None } else { Some(len + 2) };
    }
    let (is_member, len) = is_in_members(text, byte)?;
    if is_member { Some(len + 1) } else { None }
}

/// How many bytes the set after `[` takes, with the `[`, if it has its `]`.
#[tactic(auto, unfolding(crate::specs::Pieces::set_front))]
fn closed_length(text: &[u8]) -> Option<usize>
    ensures value { result ≡ single_of (set_front text.now) }
    ensures within { IfSome result (λ n. (0 < n) × (n ≤ length text.now + 1)) }
{
    if let [b'!' | b'^', ..] = text {
        let (_, behind) = text.split_at(1);
        let (_, len) = is_in_members(behind, 0)?;
        return Some(len + 2);
    }
    let (_, len) = is_in_members(text, 0)?;
    Some(len + 1)
}

/// How many bytes a `?` or a set in front takes, which stands for one byte.
#[tactic(auto, unfolding(crate::specs::Pieces::plain_front))]
pub fn single_len(pattern: &[u8]) -> Option<usize>
    ensures value { IfSome result (λ n. IsSingle pattern.now n) }
    ensures within { IfSome result (λ n. (0 < n) × (n ≤ length pattern.now)) }
{
    match pattern {
        [b'?', ..] => Some(1),
        [b'[', ..] => {
            let (_, set) = pattern.split_at(1);
            closed_length(set)
        }
        _ => None,
    }
}

/// How many bytes the piece in front of a pattern takes, if it stands for one byte and this byte, no `/`, passes it.
#[tactic(auto, unfolding(crate::specs::Pieces::plain_front, crate::specs::Pieces::escape_front))]
pub fn one_length(pattern: &[u8], byte: u8) -> Option<usize>
    requires some { 0 < length pattern.now }
    requires no_slash { byte ≡ 47 → ⊥ }
    ensures value { result ≡ one_of byte (plain_front pattern.now) }
    ensures within { IfSome result (λ n. (0 < n) × (n ≤ length pattern.now)) }
{
    match pattern {
        [b'*' | b'/', ..] | [] => None,
        [b'?', ..] => Some(1),
        [b'[', ..] => {
            let (_, set) = pattern.split_at(1);
            set_length(set, byte)
        }
        [b'\\', escaped, ..] if *escaped == byte => Some(2),
        [b'\\', ..] => None,
        [literal, ..] if *literal == byte => Some(1),
        _ => None,
    }
}

/// How many bytes a `/` in front of a pattern takes, which may have a `\` before it.
#[tactic(auto, unfolding(crate::specs::Pieces::plain_front, crate::specs::Pieces::escape_front))]
pub fn slash_length(pattern: &[u8]) -> Option<usize>
    requires { 0 < length pattern.now }
    ensures value { result ≡ slash_of (plain_front pattern.now) }
    ensures within { IfSome result (λ n. (0 < n) × (n ≤ length pattern.now)) }
{
    match pattern {
        [b'/', ..] => Some(1),
        [b'\\', b'/', ..] => Some(2),
        _ => None,
    }
}
