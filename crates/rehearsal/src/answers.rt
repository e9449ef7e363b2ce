//! The packets of a driver's answers.
ghost use Rattle.std.specs.Prelude.{◌≡◌, ◌++◌, ◌≤◌, length, OnOk};
ghost use Rattle.pkt_line.specs.Spelling.{spelling, spelling_all};
ghost use Rattle.rehearsal.specs.Drivers.{hello, status, good, filtered, pathname, list_text};

use crate::paths::{path_content, path_name};
use pkt_line::{push_content, push_flush, push_line};
use std::alloc::{AllocError, Global};

/// Appends the answer to the first lines of a client.
pub fn push_hello(alloc: Global, out: &mut Vec<u8>) -> Result<(), AllocError>
    ensures { OnOk result (out.new.items ≡ out.old.items ++ spelling_all hello) }
{
    push_line(alloc, out, b"git-filter-server")?;
    push_line(alloc, out, b"version=2")?;
    push_flush(alloc, out)
}

/// Appends a status of at most 100 bytes.
pub fn push_status(alloc: Global, out: &mut Vec<u8>, word: &[u8]) -> Result<(), AllocError>
    requires { length word.now ≤ 100 }
    ensures { OnOk result (out.new.items ≡ out.old.items ++ spelling_all (status word.now)) }
{
    let mut text = Vec::from_slice(alloc, b"status=")?;
    text.extend_from_slice(word)?;
    push_line(alloc, out, &text)?;
    push_flush(alloc, out)
}

/// Appends a good answer with this content.
fn push_good(alloc: Global, out: &mut Vec<u8>, text: &[u8]) -> Result<(), AllocError>
    ensures { OnOk result (out.new.items ≡ out.old.items ++ spelling_all (good text.now)) }
{
    push_status(alloc, out, b"success")?;
    push_content(alloc, out, text)?;
    push_flush(alloc, out)?;
    push_flush(alloc, out)
}

/// Appends a good answer with the path's content after a line with the driver's name.
pub fn push_filtered(
    alloc: Global,
    out: &mut Vec<u8>,
    driver: &[u8],
    seed: u64,
    number: u32,
) -> Result<(), AllocError>
    ensures { OnOk result (out.new.items ≡ out.old.items ++ filtered driver.now seed number) }
{
    let content = path_content(alloc, seed, number)?;
    let mut text = Vec::from_slice(alloc, driver)?;
    text.push(b'\n')?;
    text.extend_from_slice(&content)?;
    push_good(alloc, out, &text)
}

fn push_pathname(alloc: Global, out: &mut Vec<u8>, seed: u64, number: u32) -> Result<(), AllocError>
    ensures { OnOk result (out.new.items ≡ out.old.items ++ spelling (pathname seed number)) }
{
    let name = path_name(alloc, seed, number)?;
    let mut text = Vec::from_slice(alloc, b"pathname=")?;
    text.extend_from_slice(&name)?;
    push_line(alloc, out, &text)
}

/// Appends a list of these paths.
pub fn push_list(
    alloc: Global,
    out: &mut Vec<u8>,
    seed: u64,
    numbers: &[u32],
) -> Result<(), AllocError>
    ensures { OnOk result (out.new.items ≡ out.old.items ++ list_text seed numbers.now) }
{
    for number in numbers {
        push_pathname(alloc, out, seed, *number)?;
    }
    push_flush(alloc, out)?;
    push_status(alloc, out, b"success")
}
