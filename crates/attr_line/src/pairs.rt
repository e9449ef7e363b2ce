//! What a line says of attributes.
ghost use Rattle.std.specs.Prelude.{◌≡◌, [], ◌∷◌, ◌++◌, IfOk, if◌then◌else◌, Some, None};
ghost use Rattle.std.specs.List.{list_all, before_first};
ghost use Rattle.attr_line.specs.Pairs.{is_equals, is_name_byte, is_name, value_or_set, pair_at, has_name, pairs_at};

use crate::file::Pair;
use crate::state::AttrState;
use crate::text::next_word;
use byte_path::{ByteKind, Bytes, Items, len_to};
use std::alloc::{AllocError, Global};

fn is_name_byte(byte: u8) -> bool
    ensures { result ≡ is_name_byte byte }
{
    byte.is_ascii_alphanumeric() || byte == b'-' || byte == b'_' || byte == b'.'
}

fn has_name_bytes(name: &[u8]) -> bool
    ensures { result ≡ list_all is_name_byte name.now }
{
    name.iter().all(|b| is_name_byte(*b))
}

/// Whether this may name an attribute or a macro.
pub fn is_name(name: &[u8]) -> bool
    ensures { result ≡ is_name name.now }
{
    !name.is_empty() && name.first() != Some(&b'-') && has_name_bytes(name)
}

/// `=`.
struct Equals;

impl ByteKind for Equals {
    ghost use Rattle.attr_line.specs.Pairs.{is_equals};

    ghost has = { is_equals };

    fn has(byte: u8) -> bool {
        byte == b'='
    }
}

/// What comes before the first `=`.
fn before_equals(word: &[u8]) -> &[u8]
    ensures { result.now ≡ before_first is_equals word.now }
{
    let (name, _) = word.split_at(len_to::<Equals>(word));
    name
}

/// The value after the first `=`, or `Set` if there is none.
#[tactic(auto, using(crate::proofs::Places::values))]
fn value_or_set(alloc: Global, word: &[u8]) -> Result<AttrState, AllocError>
    ensures { IfOk result (λ s. s ≡ value_or_set word.now) }
{
    let place = len_to::<Equals>(word);
    if place == word.len() {
        return Ok(AttrState::Set);
    }
    let (_, value) = word.split_at(place + 1);
    Ok(AttrState::Value(Bytes::copy_of(alloc, value)?))
}

/// The pair of this name and this state, or `None` if the name is bad.
fn named(alloc: Global, name: &[u8], state: AttrState) -> Result<Option<Pair>, AllocError>
    ensures { IfOk result (λ o. o
        ≡ (if is_name name.now then Some (record { name = name.now; state = state }) else None)) }
{
    if !is_name(name) {
        return Ok(None);
    }
    let name = Bytes::copy_of(alloc, name)?;
    Ok(Some(Pair { name, state }))
}

/// The pair that a word says, or `None` if its name is bad.
fn pair_of(alloc: Global, word: &[u8]) -> Result<Option<Pair>, AllocError>
    ensures { IfOk result (λ o. o ≡ (if has_name word.now then Some (pair_at word.now) else None)) }
{
    match word {
        [b'-', rest @ ..] => named(alloc, before_equals(rest), AttrState::Unset),
        [b'!', rest @ ..] => named(alloc, before_equals(rest), AttrState::Unspecified),
        _ => named(alloc, before_equals(word), value_or_set(alloc, word)?),
    }
}

/// Appends the pair that a word says, and returns whether its name is good.
fn push_pair(alloc: Global, pairs: &mut Vec<Pair>, word: &[u8]) -> Result<bool, AllocError>
    ensures name { IfOk result (λ good. good ≡ has_name word.now) }
    ensures pairs { IfOk result (λ good. pairs.new.items ≡ (if good then pairs.old.items
        ++ pair_at word.now ∷ [] else pairs.old.items)) }
{
    match pair_of(alloc, word)? {
        Some(pair) => {
            pairs.push(pair)?;
            Ok(true)
        }
        None => Ok(false),
    }
}

/// The pairs of a text, or `None` if one of its names is bad.
pub fn pairs_of(alloc: Global, text: &[u8]) -> Result<Option<Items<Pair>>, AllocError>
    ensures { IfOk result (λ o. o ≡ pairs_at text.now) }
{
    let mut pairs = Vec::new(alloc);
    let mut rest = text;
    'words: while let Some((word, behind)) = next_word(rest) {
        if !push_pair(alloc, &mut pairs, word)? {
            return Ok(None);
        }
        rest = behind;
    }
    Ok(Some(Items::from_vec(pairs)))
}
