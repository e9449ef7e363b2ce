//! What the drivers `alpha` and `beta` write in their sessions.
ghost use Rattle.std.specs.Prelude.{◌≡◌, ◌++◌, IfOk, OnOk};
ghost use Rattle.std.specs.List.{list_any};
ghost use Rattle.rehearsal.specs.Drivers.{is_delayed, is_given, alpha_first, given, given_text, alpha_lists};
ghost use Rattle.rehearsal.specs.Drivers.{alpha_text, beta_first, beta_text, script, scripts};

use crate::answers::{push_filtered, push_hello, push_list, push_status};
use crate::paths::kind;
use byte_path::{Bytes, Items};
use edge_kit::{DriverScript, SessionScript};
use pkt_line::{push_flush, push_line};
use std::alloc::{AllocError, Global};

fn is_delayed(seed: u64, number: u32) -> bool
    ensures { result ≡ is_delayed seed number }
{
    kind(seed, number) == 5
}

fn is_given(seed: u64, number: u32) -> bool
    ensures { result ≡ is_given seed number }
{
    is_delayed(seed, number) && number % 5 != 0
}

fn any_is_delayed(seed: u64, numbers: &[u32]) -> bool
    ensures { result ≡ list_any (λ i. is_delayed seed i) numbers.now }
{
    numbers.iter().any(|number| is_delayed(seed, *number))
}

/// What `alpha` answers to the first request for a path, if the path is its own.
fn push_alpha_first(
    alloc: Global,
    out: &mut Vec<u8>,
    seed: u64,
    number: u32,
) -> Result<(), AllocError>
    ensures { OnOk result (out.new.items ≡ out.old.items ++ alpha_first seed number) }
{
    if kind(seed, number) == 4 {
        push_filtered(alloc, out, b"alpha", seed, number)
    } else if is_delayed(seed, number) {
        push_status(alloc, out, b"delayed")
    } else {
        Ok(())
    }
}

/// The delayed paths that `alpha` gives later, the last first.
fn given(alloc: Global, seed: u64, numbers: &[u32]) -> Result<Vec<u32>, AllocError>
    ensures { IfOk result (λ v. v.items ≡ given seed numbers.now) }
{
    let mut later = Vec::new(alloc);
    let mut rest = numbers;
    while let Some((last, before)) = rest.split_last() {
        if is_given(seed, *last) {
            later.push(*last)?;
        }
        rest = before;
    }
    Ok(later)
}

fn push_given(
    alloc: Global,
    out: &mut Vec<u8>,
    seed: u64,
    numbers: &[u32],
) -> Result<(), AllocError>
    ensures { OnOk result (out.new.items ≡ out.old.items ++ given_text seed numbers.now) }
{
    if numbers.is_empty() {
        return Ok(());
    }
    push_list(alloc, out, seed, numbers)?;
    for number in numbers {
        push_filtered(alloc, out, b"alpha", seed, *number)?;
    }
    Ok(())
}

/// The lists of `alpha`, with what each gives.
fn push_alpha_lists(
    alloc: Global,
    out: &mut Vec<u8>,
    seed: u64,
    numbers: &[u32],
) -> Result<(), AllocError>
    ensures { OnOk result (out.new.items ≡ out.old.items ++ alpha_lists seed numbers.now) }
{
    if !any_is_delayed(seed, numbers) {
        return Ok(());
    }
    let later = given(alloc, seed, numbers)?;
    push_given(alloc, out, seed, &later)?;
    push_list(alloc, out, seed, &[])
}

/// All that `alpha` writes, for these numbers in the order of their paths.
fn alpha_text(alloc: Global, seed: u64, numbers: &[u32]) -> Result<Vec<u8>, AllocError>
    ensures { IfOk result (λ v. v.items ≡ alpha_text seed numbers.now) }
{
    let mut out = Vec::new(alloc);
    push_hello(alloc, &mut out)?;
    push_line(alloc, &mut out, b"capability=smudge")?;
    push_line(alloc, &mut out, b"capability=delay")?;
    push_flush(alloc, &mut out)?;
    for number in numbers {
        push_alpha_first(alloc, &mut out, seed, *number)?;
    }
    push_alpha_lists(alloc, &mut out, seed, numbers)?;
    Ok(out)
}

/// What `beta` answers to the request for a path, if the path is its own.
fn push_beta_first(
    alloc: Global,
    out: &mut Vec<u8>,
    seed: u64,
    number: u32,
) -> Result<(), AllocError>
    ensures { OnOk result (out.new.items ≡ out.old.items ++ beta_first seed number) }
{
    match kind(seed, number) {
        6 => push_filtered(alloc, out, b"beta", seed, number),
        7 => push_status(alloc, out, b"error"),
        _ => Ok(()),
    }
}

/// All that `beta` writes.
fn beta_text(alloc: Global, seed: u64, numbers: &[u32]) -> Result<Vec<u8>, AllocError>
    ensures { IfOk result (λ v. v.items ≡ beta_text seed numbers.now) }
{
    let mut out = Vec::new(alloc);
    push_hello(alloc, &mut out)?;
    push_line(alloc, &mut out, b"capability=smudge")?;
    push_flush(alloc, &mut out)?;
    for number in numbers {
        push_beta_first(alloc, &mut out, seed, *number)?;
    }
    Ok(out)
}

/// A driver with this command and one session, whose output comes in pieces of 1,000 bytes.
fn script(alloc: Global, command: &[u8], output: Vec<u8>) -> Result<DriverScript, AllocError>
    ensures { IfOk result (λ d. d ≡ script command.now output.items) }
{
    let mut sessions = Vec::new(alloc);
    sessions.push(SessionScript {
        starts: true,
        output: Bytes::from_vec(output),
        piece: 1_000,
        fail_send: None,
        fail_read: None,
    })?;
    Ok(DriverScript {
        command: Bytes::copy_of(alloc, command)?,
        sessions: Items::from_vec(sessions),
    })
}

/// The scripts of both drivers, for these numbers in the order of their paths.
pub fn scripts(alloc: Global, seed: u64, numbers: &[u32]) -> Result<Vec<DriverScript>, AllocError>
    ensures { IfOk result (λ v. v.items ≡ scripts seed numbers.now) }
{
    let mut both = Vec::with_capacity(alloc, 2)?;
    let alpha = alpha_text(alloc, seed, numbers)?;
    both.push(script(alloc, b"alpha", alpha)?)?;
    let beta = beta_text(alloc, seed, numbers)?;
    both.push(script(alloc, b"beta", beta)?)?;
    Ok(both)
}
