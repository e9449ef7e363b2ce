//! The bytes of a file by their kinds, and its words.
ghost use Rattle.std.specs.Prelude.{◌≡◌, ◌<◌, ◌≤◌, ◌∷◌, [], length, IfSome, MatchOption};
ghost use Rattle.attr_line.specs.Text.{behind_gaps, words};

use byte_path::{ByteKind, from_first, len_to};

/// A space, TAB or CR.
pub struct Gap;

/// Any other byte.
struct EndsGaps;

impl ByteKind for Gap {
    ghost use Rattle.attr_line.specs.Text.{is_gap};

    ghost has = { is_gap };

    fn has(byte: u8) -> bool {
        byte == b' ' || byte == b'\t' || byte == b'\r'
    }
}

impl ByteKind for EndsGaps {
    ghost use Rattle.attr_line.specs.Text.{ends_gaps};

    ghost has = { ends_gaps };

    fn has(byte: u8) -> bool {
        !Gap::has(byte)
    }
}

/// What follows the blanks and CR at the front.
pub fn behind_gaps(text: &[u8]) -> &[u8]
    ensures value { result.now ≡ behind_gaps text.now }
    ensures within { length result.now ≤ length text.now }
{
    from_first::<EndsGaps>(text)
}

/// The first word, and what follows it.
pub fn next_word(text: &[u8]) -> Option<(&[u8], &[u8])>
    ensures value { MatchOption result (words text.now ≡ []) (λ x. words text.now ≡ x.0.now ∷ words x.1.now) }
    ensures shorter { IfSome result (λ x. length x.1.now < length text.now) }
{
    let text = behind_gaps(text);
    if text.is_empty() {
        return None;
    }
    Some(text.split_at(len_to::<Gap>(text)))
}
