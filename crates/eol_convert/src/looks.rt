//! Whether a content looks like a text.
ghost use Rattle.std.specs.Prelude.{◌≡◌, ◌≤◌, ◌↔◌, IsTrue, length, count_by, false};
ghost use Rattle.std.specs.List.{list_any};
ghost use Rattle.eol_convert.specs.Looks.{is_unusual};
ghost use Rattle.eol_convert.specs.Content.{is_printing, is_non_printing, forbids_change, non_printing, is_lf_text};

use byte_path::ByteKind;
use memchr::memchr2;

/// The count over this many bytes fits a `u8`, so that many bytes are counted side by side. It is a multiple of 32.
const CHUNK: usize = 224;

// Their tests have no branches, so that many bytes are tested at once.

/// BS, TAB, FF, ESC, and each byte from the space on except DEL.
struct Printing;

/// Any other byte except LF.
struct NonPrinting;

/// What few texts have: a byte below the space except TAB and LF, or DEL. CR, NUL and each byte that isn't printing are
/// among them.
struct Unusual;

impl ByteKind for Printing {
    ghost use Rattle.eol_convert.specs.Content.{is_printing};

    ghost has = { is_printing };

    fn has(byte: u8) -> bool {
        (byte == 8) | (byte == 9) | (byte == 12) | (byte == 27) | ((byte >= 32) & (byte != 127))
    }
}

impl ByteKind for NonPrinting {
    ghost use Rattle.eol_convert.specs.Content.{is_non_printing};

    ghost has = { is_non_printing };

    fn has(byte: u8) -> bool {
        !(Printing::has(byte) | (byte == b'\n'))
    }
}

impl ByteKind for Unusual {
    ghost use Rattle.eol_convert.specs.Looks.{is_unusual};

    ghost has = { is_unusual };

    fn has(byte: u8) -> bool {
        ((byte < 32) & (byte != b'\t') & (byte != b'\n')) | (byte == 127)
    }
}

fn count_in<K: ByteKind>(chunk: &[u8]) -> u8
    requires { length chunk.now ≤ CHUNK }
    ensures { result ≡ count_by K.has chunk.now }
{
    chunk.iter().map(|b| u8::from(K::has(*b))).sum()
}

/// How many bytes are of a kind.
fn count_of<K: ByteKind>(content: &[u8]) -> usize
    ensures { result ≡ count_by K.has content.now }
{
    let mut count = 0;
    let mut rest = content;
    'chunks: while !rest.is_empty() {
        let (chunk, behind) = rest.split_at(rest.len().min(CHUNK));
        count += usize::from(count_in::<K>(chunk));
        rest = behind;
    }
    count
}

/// Whether no byte is of a kind.
fn has_none<K: ByteKind>(content: &[u8]) -> bool
    ensures { IsTrue result ↔ (count_by K.has content.now ≡ 0) }
{
    let mut rest = content;
    'chunks: while !rest.is_empty() {
        let (chunk, behind) = rest.split_at(rest.len().min(CHUNK));
        if count_in::<K>(chunk) != 0 {
            return false;
        }
        rest = behind;
    }
    true
}

/// Whether a content has CR or NUL.
fn forbids_change(content: &[u8]) -> bool
    ensures { result ≡ list_any forbids_change content.now }
{
    memchr2(b'\r', 0, content).is_some()
}

fn non_printing(content: &[u8]) -> usize
    ensures { result ≡ non_printing content.now }
{
    let end_mark = usize::from(content.ends_with(b"\x1A"));
    count_of::<NonPrinting>(content).saturating_sub(end_mark)
}

/// Whether a content is a text whose lines end in LF alone: it has neither CR nor NUL, and at most one byte that isn't
/// printing for each 128 that are.
#[tactic(auto, unfolding(crate::specs::Content::is_lf_text))]
pub fn is_lf_text(content: &[u8]) -> bool
    ensures { result ≡ is_lf_text content.now }
{
    // Most texts have none, and need no second look.
    if has_none::<Unusual>(content) {
        return true;
    }
    !forbids_change(content) && non_printing(content) <= count_of::<Printing>(content) / 128
}
