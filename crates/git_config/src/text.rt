//! The bytes of a file by their kinds, and the ends of its lines.
ghost use Rattle.std.specs.Prelude.{◌≡◌, ◌≤◌, ◌+◌, ◌++◌, IfOk, Some, length, take, drop};
ghost use Rattle.std.specs.List.{position_or_len};
ghost use Rattle.memchr.specs.Find.{IsFirstByte, is_byte};
ghost use Rattle.byte_path.specs.Front.{begins};
ghost use Rattle.git_config.specs.Header.{lowered};
ghost use Rattle.git_config.specs.Text.{is_blank, is_line_end, is_comment_mark, is_key_byte, behind_blanks};
ghost use Rattle.git_config.specs.Text.{line_end, without_cr};

use byte_path::{ByteKind, Bytes, from_first};
use memchr::memchr;
use std::alloc::{AllocError, Global};

pub fn is_blank(byte: u8) -> bool
    ensures { result ≡ is_blank byte }
{
    byte == b' ' || byte == b'\t'
}

pub fn is_comment_mark(byte: u8) -> bool
    ensures { result ≡ is_comment_mark byte }
{
    byte == b'#' || byte == b';'
}

fn is_key_byte(byte: u8) -> bool
    ensures { result ≡ is_key_byte byte }
{
    byte.is_ascii_alphanumeric() || byte == b'-'
}

/// Each byte that can't stand in a key.
pub struct EndsKey;

/// Each byte that can't stand in a section's name.
pub struct EndsName;

/// `.`.
pub struct Dot;

/// Each byte but a blank.
struct EndsBlanks;

impl ByteKind for EndsKey {
    ghost use Rattle.git_config.specs.Text.{ends_key};

    ghost has = { ends_key };

    fn has(byte: u8) -> bool {
        !is_key_byte(byte)
    }
}

impl ByteKind for EndsName {
    ghost use Rattle.git_config.specs.Text.{ends_name};

    ghost has = { ends_name };

    fn has(byte: u8) -> bool {
        !(is_key_byte(byte) || byte == b'.')
    }
}

impl ByteKind for Dot {
    ghost use Rattle.git_config.specs.Text.{is_dot};

    ghost has = { is_dot };

    fn has(byte: u8) -> bool {
        byte == b'.'
    }
}

impl ByteKind for EndsBlanks {
    ghost use Rattle.git_config.specs.Text.{ends_blanks};

    ghost has = { ends_blanks };

    fn has(byte: u8) -> bool {
        !is_blank(byte)
    }
}

/// How many bytes the line has.
fn line_len(text: &[u8]) -> usize
    ensures value { result ≡ position_or_len is_line_end text.now }
    ensures within { result ≤ length text.now }
{
    // Comments are long, and their bytes needn't be looked at one by one.
    memchr(b'\n', text).unwrap_or(text.len())
}

/// What follows the blanks at the front.
#[tactic(auto, unfolding(crate::specs::Text::behind_blanks))]
pub fn behind_blanks(text: &[u8]) -> &[u8]
    ensures value { result.now ≡ behind_blanks text.now }
    ensures within { length result.now ≤ length text.now }
{
    from_first::<EndsBlanks>(text)
}

/// What is left from the end of the line on.
#[tactic(auto, unfolding(crate::specs::Text::line_end))]
pub fn line_end(text: &[u8]) -> &[u8]
    ensures value { result.now ≡ line_end text.now }
    ensures within { length result.now ≤ length text.now }
{
    let (_, rest) = text.split_at(line_len(text));
    rest
}

/// A copy in lower case.
pub fn lowered(alloc: Global, text: &[u8]) -> Result<Bytes, AllocError>
    ensures { IfOk result (λ b. b ≡ lowered text.now) }
{
    let mut bytes = Vec::from_slice(alloc, text)?;
    bytes.make_ascii_lowercase();
    Ok(Bytes::from_vec(bytes))
}

/// Whether LF stands at the front.
pub fn begins_line_end(text: &[u8]) -> bool
    ensures { result ≡ begins is_line_end text.now }
{
    text.first() == Some(&b'\n')
}

/// How many bytes up to and with the first CR stay: all, or all but the CR if LF follows it.
fn kept_len(text: &[u8], cr: usize) -> usize
    requires { IsFirstByte (is_byte 13) text.now (Some cr) }
    ensures value { without_cr text.now ≡ take result text.now ++ without_cr (drop (cr + 1) text.now) }
    ensures within { result ≤ cr + 1 }
{
    let (_, behind) = text.split_at(cr + 1);
    if begins_line_end(behind) {
        return cr;
    }
    cr + 1
}

/// The text with LF alone at the ends of its lines.
pub fn without_cr(alloc: Global, bytes: &[u8]) -> Result<Vec<u8>, AllocError>
    ensures value { IfOk result (λ v. v.items ≡ without_cr bytes.now) }
    ensures within { IfOk result (λ v. length v.items ≤ length bytes.now) }
{
    let mut text = Vec::with_capacity(alloc, bytes.len())?;
    let mut rest = bytes;
    'stretches: while let Some(cr) = memchr(b'\r', rest) {
        let (kept, _) = rest.split_at(kept_len(rest, cr));
        text.extend_from_slice(kept)?;
        let (_, behind) = rest.split_at(cr + 1);
        rest = behind;
    }
    text.extend_from_slice(rest)?;
    Ok(text)
}
