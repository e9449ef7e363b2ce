ghost use Rattle.std.specs.Prelude.{◌≡◌, ◌++◌, IfOk, OnOk};
ghost use Rattle.std.specs.List.{list_any};
ghost use Rattle.byte_path.specs.Quote.{needs_escape, letter_of, spelled_byte, quoted};

use std::alloc::{AllocError, Global};

/// Whether a byte is written by an escape: a control, `"`, `\`, or a byte above `~`.
fn needs_escape(byte: u8) -> bool
    ensures { result ≡ needs_escape byte }
{
    byte < b' ' || byte > b'~' || byte == b'"' || byte == b'\\'
}

/// Whether some byte is written by an escape.
fn any_escape(path: &[u8]) -> bool
    ensures { result ≡ list_any needs_escape path.now }
{
    path.iter().any(|b| needs_escape(*b))
}

/// The letter after the backslash in C's escape of this byte, or `None` if the byte is written in octal.
fn letter_of(byte: u8) -> Option<u8>
    ensures { result ≡ letter_of byte }
{
    match byte {
        0x07 => Some(b'a'),
        0x08 => Some(b'b'),
        b'\t' => Some(b't'),
        b'\n' => Some(b'n'),
        0x0B => Some(b'v'),
        0x0C => Some(b'f'),
        b'\r' => Some(b'r'),
        b'"' => Some(b'"'),
        b'\\' => Some(b'\\'),
        _ => None,
    }
}

/// Appends a byte as it is written between the quotes.
fn push_spelled(text: &mut Vec<u8>, byte: u8) -> Result<(), AllocError>
    ensures { OnOk result (text.new.items ≡ text.old.items ++ spelled_byte byte) }
{
    if !needs_escape(byte) {
        text.push(byte)?;
        return Ok(());
    }
    match letter_of(byte) {
        Some(letter) => text.extend_from_slice(&[b'\\', letter])?,
        None => {
            let octal = [
                b'\\',
                b'0' + byte / 64,
                b'0' + byte / 8 % 8,
                b'0' + byte % 8,
            ];
            text.extend_from_slice(&octal)?;
        }
    }
    Ok(())
}

/// A path as it is shown on a line. If it has a control, `"`, `\` or a byte above `~`, it is in double quotes and these
/// are written as C's escapes. Any other path is shown as it is.
pub fn quote_path(alloc: Global, path: &[u8]) -> Result<Vec<u8>, AllocError>
    ensures { IfOk result (λ v. v.items ≡ quoted path.now) }
{
    if !any_escape(path) {
        return Vec::from_slice(alloc, path);
    }
    let mut text = vec![in alloc; b'"']?;
    for byte in path {
        push_spelled(&mut text, *byte)?;
    }
    text.push(b'"')?;
    Ok(text)
}
