//! The name and the content of a path, by its number.
ghost use Rattle.std.specs.Prelude.{◌≡◌, ◌<◌, ◌+◌, ◌%◌, ◌++◌, IfOk, OnOk};
ghost use Rattle.rehearsal.specs.Paths.{digits, kind, line_count, name, lines, content};

use std::alloc::{AllocError, Global};

/// What is done with a path: 0 to 7.
pub fn kind(seed: u64, number: u32) -> u8
    ensures { result ≡ kind seed number }
{
    ((seed % 8 + 7 * number as u64) % 8) as u8
}

fn line_count(seed: u64, number: u32) -> u64
    ensures { result ≡ line_count seed number }
{
    (seed % 50 + number as u64) % 50
}

/// The last digit of a number.
fn digit(number: u32) -> u8
    ensures { result ≡ 48 + number % 10 }
{
    b'0' + (number % 10) as u8
}

fn six_digits(number: u32) -> [u8; 6]
    ensures { result ≡ digits 6 number }
{
    [
        digit(number / 100_000),
        digit(number / 10_000),
        digit(number / 1_000),
        digit(number / 100),
        digit(number / 10),
        digit(number),
    ]
}

/// The path with this number: its folder is the number's last digit, and its name has six digits and the kind.
pub fn path_name(alloc: Global, seed: u64, number: u32) -> Result<Vec<u8>, AllocError>
    ensures { IfOk result (λ text. text.items ≡ name seed number) }
{
    let mut text = Vec::new(alloc);
    text.extend_from_slice(b"d")?;
    text.push(digit(number))?;
    text.extend_from_slice(b"/f")?;
    text.extend_from_slice(&six_digits(number))?;
    text.extend_from_slice(b".k")?;
    text.push(digit(kind(seed, number) as u32))?;
    Ok(text)
}

fn push_lines(out: &mut Vec<u8>, count: u64) -> Result<(), AllocError>
    ensures { OnOk result (out.new.items ≡ out.old.items ++ lines count) }
{
    for _line in 0..count {
        out.extend_from_slice(b"line\n")?;
    }
    Ok(())
}

/// The content of the path with this number.
pub fn path_content(alloc: Global, seed: u64, number: u32) -> Result<Vec<u8>, AllocError>
    ensures { IfOk result (λ text. text.items ≡ content seed number) }
{
    let mut text = Vec::new(alloc);
    push_lines(&mut text, line_count(seed, number))?;
    if kind(seed, number) == 2 {
        text.extend_from_slice(b"$Id$\n")?;
    }
    Ok(text)
}
