//! The text of the command of a single run.
ghost use Rattle.std.specs.Prelude.{◌≡◌, ◌<◌, ◌++◌, ℕ, List, false, IfOk, OnOk, length};
ghost use Rattle.one_shot.specs.Commands.{quoted_byte, in_quotes, text_for, once_command};

use byte_path::Bytes;
use std::alloc::{AllocError, Global};

/// Appends a byte as it stands between single quotes.
fn push_quoted(text: &mut Vec<u8>, byte: u8) -> Result<(), AllocError>
    ensures { OnOk result (text.new.items ≡ text.old.items ++ quoted_byte byte) }
{
    if byte == b'\'' {
        text.extend_from_slice(b"'\\''")
    } else {
        text.push(byte)?;
        Ok(())
    }
}

/// A path in single quotes, as the shell reads them.
fn in_quotes(alloc: Global, path: &[u8]) -> Result<Vec<u8>, AllocError>
    ensures { IfOk result (λ text. text.items ≡ in_quotes path.now) }
{
    let mut text = vec![in alloc; b'\'']?;
    for byte in path {
        push_quoted(&mut text, *byte)?;
    }
    text.push(b'\'')?;
    Ok(text)
}

/// Appends what the front of a command stands for, one byte or two, and returns what follows that.
fn push_front<'a>(
    text: &mut Vec<u8>,
    front: &'a [u8],
    quoted: &[u8],
) -> Result<&'a [u8], AllocError>
    requires { 0 < length front.now }
    ensures text { IfOk result (λ rest. (path : List ℕ) → quoted.now ≡ in_quotes path
        → text.new.items ++ text_for path false rest.now ≡ text.old.items ++ text_for path false front.now) }
    ensures less { IfOk result (λ rest. length rest.now < length front.now) }
{
    match front {
        [b'%', b'f', rest @ ..] => {
            text.extend_from_slice(quoted)?;
            Ok(rest)
        }
        [b'%', b'%', rest @ ..] => {
            text.push(b'%')?;
            Ok(rest)
        }
        [byte, rest @ ..] => {
            text.push(*byte)?;
            Ok(rest)
        }
        [] => Ok(front),
    }
}

/// A command for a path: `%f` becomes the path in single quotes and `%%` a `%`, and every other byte stays.
pub fn once_command(alloc: Global, command: &[u8], path: &[u8]) -> Result<Bytes, AllocError>
    ensures { IfOk result (λ text. text ≡ once_command command.now path.now) }
{
    let quoted = in_quotes(alloc, path)?;
    let mut text = Vec::with_capacity(alloc, command.len())?;
    let mut rest = command;
    'fronts: while !rest.is_empty() {
        rest = push_front(&mut text, rest, &quoted)?;
    }
    Ok(Bytes::from_vec(text))
}
