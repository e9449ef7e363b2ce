//! The value of a key.
ghost use Rattle.std.specs.Prelude.{◌≡◌, ◌+◌, ◌<◌, ◌≤◌, length, IfOk, OnOk};
ghost use Rattle.git_config.specs.Text.{Gives};
ghost use Rattle.git_config.specs.Value.{mark_of, escape_of, plain_of, after_piece, ended_at, value_at};
ghost use Rattle.git_config.specs.Seen.{reading_of};

use crate::fault::{ConfigFault, LineKind};
use crate::text::{is_blank, is_comment_mark, line_end};
use std::alloc::{AllocError, Global};

/// What a byte of a value is.
#[derive(Clone, Copy)]
enum Mark {
    /// The end of the line.
    End,
    /// It begins a comment.
    Comment,
    /// It ends no escape that there is.
    Wrong,
    /// The value goes on.
    More(Piece),
}

/// What a byte does to a value that goes on.
#[derive(Clone, Copy)]
enum Piece {
    /// It begins an escape.
    Backslash,
    /// It begins or ends quoting.
    Quote,
    /// A blank outside quotes.
    Blank(u8),
    /// It stands for this byte.
    Byte(u8),
    /// The end of a line after a backslash.
    Continued,
}

fn escape_of(byte: u8) -> Mark
    ensures { result ≡ escape_of byte }
{
    match byte {
        b'\n' => Mark::More(Piece::Continued),
        b'"' => Mark::More(Piece::Byte(b'"')),
        b'\\' => Mark::More(Piece::Byte(b'\\')),
        b'n' => Mark::More(Piece::Byte(b'\n')),
        b't' => Mark::More(Piece::Byte(b'\t')),
        b'b' => Mark::More(Piece::Byte(0x08)),
        _ => Mark::Wrong,
    }
}

fn plain_of(quoted: bool, byte: u8) -> Mark
    ensures { result ≡ plain_of quoted byte }
{
    if byte == b'\n' {
        Mark::End
    } else if byte == b'\\' {
        Mark::More(Piece::Backslash)
    } else if byte == b'"' {
        Mark::More(Piece::Quote)
    } else if quoted {
        Mark::More(Piece::Byte(byte))
    } else if is_comment_mark(byte) {
        Mark::Comment
    } else if is_blank(byte) {
        Mark::More(Piece::Blank(byte))
    } else {
        Mark::More(Piece::Byte(byte))
    }
}

fn mark_of(quoted: bool, escaped: bool, byte: u8) -> Mark
    ensures { result ≡ mark_of quoted escaped byte }
{
    if escaped {
        escape_of(byte)
    } else {
        plain_of(quoted, byte)
    }
}

/// A value as far as it is read.
#[derive(Drop)]
struct Draft {
    quoted: bool,
    /// Whether a backslash stands right before.
    escaped: bool,
    bytes: Vec<u8>,
    /// How many of the bytes stay if nothing follows: blanks at the end go.
    kept: usize,
    /// How many lines it was continued on.
    lines: u32,
}

impl Draft {
    fn take(&mut self, piece: Piece) -> Result<(), AllocError>
        requires { self.old.lines < 4294967295 }
        ensures value { OnOk result (reading_of self.new ≡ after_piece piece (reading_of self.old)) }
        ensures within { self.new.lines ≤ self.old.lines + 1 }
    {
        match piece {
            Piece::Backslash => {
                self.escaped = true;
                self.kept = self.bytes.len();
            }
            Piece::Quote => {
                self.quoted = !self.quoted;
                self.kept = self.bytes.len();
            }
            Piece::Blank(byte) => {
                if !self.bytes.is_empty() {
                    self.bytes.push(byte)?;
                }
            }
            Piece::Byte(byte) => {
                self.bytes.push(byte)?;
                self.escaped = false;
                self.kept = self.bytes.len();
            }
            Piece::Continued => {
                self.escaped = false;
                self.lines += 1;
            }
        }
        Ok(())
    }

    /// The value where it ends before `rest`, which has to be outside quotes.
    fn ended(self, line: u32, rest: &[u8]) -> Result<Value<'_>, ConfigFault>
        ensures value { Gives (λ x. (x.bytes.items, x.lines, x.rest.now)) result
            (ended_at line (reading_of self) rest.now) }
        ensures same { IfOk result (λ x. (x.lines ≡ self.lines) × (x.rest.now ≡ rest.now)) }
    {
        if self.quoted {
            return Err(ConfigFault::Line(line, LineKind::Value));
        }
        let Draft {
            quoted: _,
            escaped: _,
            mut bytes,
            kept,
            lines,
        } = self;
        bytes.truncate(kept);
        Ok(Value { bytes, lines, rest })
    }
}

/// A value that was read.
#[derive(Drop)]
pub struct Value<'a> {
    pub bytes: Vec<u8>,
    /// How many lines it was continued on.
    pub lines: u32,
    /// What is left of the text, from the end of the value's last line on.
    pub rest: &'a [u8],
}

/// A value after its `=`.
#[tactic(auto, unfolding(crate::specs::Value::value_from))]
pub fn value_of(alloc: Global, line: u32, text: &[u8]) -> Result<Value<'_>, ConfigFault>
    requires { length text.now < 4294967295 }
    ensures value { Gives (λ x. (x.bytes.items, x.lines, x.rest.now)) result (value_at line text.now) }
    ensures within { IfOk result (λ x. x.lines + length x.rest.now ≤ length text.now) }
{
    let mut draft = Draft {
        quoted: false,
        escaped: false,
        bytes: Vec::new(alloc),
        kept: 0,
        lines: 0,
    };
    let mut rest = text;
    'bytes: while let Some((byte, behind)) = rest.split_first() {
        match mark_of(draft.quoted, draft.escaped, *byte) {
            Mark::End => return draft.ended(line, rest),
            Mark::Comment => return draft.ended(line, line_end(behind)),
            Mark::Wrong => return Err(ConfigFault::Line(line, LineKind::Value)),
            Mark::More(piece) => draft.take(piece)?,
        }
        rest = behind;
    }
    draft.ended(line, rest)
}
