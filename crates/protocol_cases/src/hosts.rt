//! What the driver's side answers to a client.
//!
//! - `host`: the cells `delay`, which is `yes` or `no`, and `input`. What the last call answers comes, and behind a
//!   line feed the output. The input at once and byte by byte have to give the same.
//! - `late`: the steps of the kind `talk`, with a host that lets each path wait and lists two at once. Then comes
//!   whether the host's link tells all.
ghost use Rattle.std.specs.Prelude.{None};

use crate::page::counter_from_zero;
use crate::talks::{Talk, take_steps};
use byte_path::Bytes;
use case_kit::{Cell, noted, push_all, shown, unknown};
use driver_host::{Choice, Host, HostFault, HostLink, HostState, LateChoice, LateWork, Work};
use filter_proto::{Begun, Session};
use filter_words::Caps;
use std::alloc::{AllocError, Global};
use std::test::Fail;

/// Its choice is in the content: `e` is Refuse, `s` Stop, `l` Later where it may, and any other content is given.
#[derive(Drop)]
struct Obeying {
    alloc: Global,
}

impl Work for Obeying {
    ghost told = { λ w. record { first = λ p c d. None; second = λ p c. None; runs = None } };

    ghost latest = { λ w p. None };

    fn first(
        &mut self,
        _path: &[u8],
        content: &[u8],
        can_delay: bool,
    ) -> Result<Choice, AllocError> {
        match content {
            [b'e'] => Ok(Choice::Refuse),
            [b's'] => Ok(Choice::Stop),
            [b'l'] if can_delay => Ok(Choice::Later),
            _ => Ok(Choice::Give(Bytes::copy_of(self.alloc, content)?)),
        }
    }

    fn second(&mut self, _path: &[u8]) -> Result<LateChoice, AllocError> {
        Ok(LateChoice::Refuse)
    }
}

/// A host that announces `smudge`, and `delay` if it may delay, and lists two paths at once.
fn host(alloc: Global, delay: bool) -> Result<Host<Obeying>, AllocError> {
    let caps = Caps {
        smudge: true,
        delay,
    };
    Host::reserve(alloc, Obeying { alloc }, caps, 2)
}

/// What the host answers to the last piece of an input in pieces of this size.
fn last_taken(
    host: &mut Host<Obeying>,
    output: &mut Vec<u8>,
    input: &[u8],
    size: usize,
) -> Result<HostState, HostFault> {
    let mut last = Ok(HostState::Open);
    for piece in input.chunks(size.max(1)) {
        last = host.take(piece, output);
    }
    last
}

/// What comes of an input in pieces of this size.
fn taken_in_pieces(
    alloc: Global,
    delay: bool,
    input: &[u8],
    size: usize,
) -> Result<Vec<u8>, AllocError> {
    let mut output = Vec::new(alloc);
    let last = last_taken(&mut host(alloc, delay)?, &mut output, input, size);
    let mut came = shown(alloc, last)?;
    push_all(&mut came, &[b"\n", &output])?;
    Ok(came)
}

/// What comes of a case of the kind `host`.
pub fn hosted(alloc: Global, cells: &[Cell]) -> Result<Vec<u8>, Fail> {
    let [delay, input] = cells else {
        return Err(unknown(b"host"));
    };
    let delay = delay.value.as_slice() == b"yes".as_slice();
    let whole = taken_in_pieces(alloc, delay, &input.value, input.value.len())?;
    let pieces = taken_in_pieces(alloc, delay, &input.value, 1)?;
    let is_same = whole.as_slice() == pieces.as_slice();
    Ok(noted(whole, is_same, b"byte by byte another answer comes")?)
}

/// A link to a host over the sample work, which lists two paths at once.
fn late_link(alloc: Global) -> Result<HostLink<LateWork>, AllocError> {
    let caps = Caps {
        smudge: true,
        delay: true,
    };
    let host = Host::reserve(alloc, LateWork::make(alloc)?, caps, 2)?;
    Ok(HostLink::begin(alloc, host, true))
}

/// A session over such a link.
fn late_session(alloc: Global) -> Result<Session<HostLink<LateWork>>, Fail> {
    match Session::begin(alloc, late_link(alloc)?) {
        Begun::Live(session) => Ok(session),
        Begun::Broken(..) | Begun::NoMemory(_) => Err(unknown(b"late")),
    }
}

/// Takes the steps, and returns whether the host's link tells all.
fn take_late(alloc: Global, talk: &mut Talk, cells: &[Cell]) -> Result<bool, Fail> {
    let mut session = late_session(alloc)?;
    take_steps(talk, &mut session, cells, 0)?;
    Ok(session.shut().tells())
}

/// What comes of a case of the kind `late`.
pub fn served(alloc: Global, cells: &[Cell]) -> Result<Vec<u8>, Fail> {
    let mut talk = Talk::new(alloc, counter_from_zero(alloc)?, true)?;
    let tells = take_late(alloc, &mut talk, cells)?;
    talk.push_line(if tells { b"true" } else { b"false" })?;
    Ok(talk.into_came())
}
