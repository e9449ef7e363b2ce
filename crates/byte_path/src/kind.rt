//! Kinds of bytes, and where a text has the first byte of a kind.
ghost use Rattle.std.specs.Prelude.{◌≡◌, ◌≤◌, IfSome, length, drop};
ghost use Rattle.std.specs.List.{position, position_or_len};

/// A kind of bytes, such as the digits. A unit struct stands for it.
pub trait ByteKind {
    ghost use Rattle.std.specs.Prelude.{ℕ, Bool};

    ghost has: { ℕ → Bool };

    /// Whether a byte is of the kind.
    fn has(byte: u8) -> bool
        ensures { result ≡ has byte };
}

fn first_of<K: ByteKind>(text: &[u8]) -> Option<usize>
    ensures value { result ≡ position K.has text.now }
    ensures within { IfSome result (λ n. n ≤ length text.now) }
{
    text.iter().position(|b| K::has(*b))
}

/// How many bytes come before the first byte of a kind, or the length of the text if it has none. It takes no memory.
#[tactic(auto, using(crate::proofs::Places::len_from_position))]
pub fn len_to<K: ByteKind>(text: &[u8]) -> usize
    ensures value { result ≡ position_or_len K.has text.now }
    ensures within { result ≤ length text.now }
{
    first_of::<K>(text).unwrap_or(text.len())
}

/// The text from the first byte of a kind on, or nothing if it has none. It takes no memory.
pub fn from_first<K: ByteKind>(text: &[u8]) -> &[u8]
    ensures value { result.now ≡ drop (position_or_len K.has text.now) text.now }
    ensures within { length result.now ≤ length text.now }
{
    let (_, rest) = text.split_at(len_to::<K>(text));
    rest
}
