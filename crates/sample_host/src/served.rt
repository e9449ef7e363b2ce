//! What is read and written.
ghost use Rattle.std.specs.Prelude.{ℕ, List, Ok, IfOk, OnOk};
ghost use Rattle.driver_host.specs.declared.work.Choice.{Choice};
ghost use Rattle.driver_host.specs.Talks.{IsSameHost};
ghost use Rattle.driver_host.specs.Hosts.{IsHostAfter, AnswerIs};
ghost use Rattle.sample_host.specs.Serving.{AnswersPiece, Serves};

use anyhow::bail;
use driver_host::{Host, HostState, Work};
use std::alloc::Global;
use std::io::{Read, Write};

/// Takes a piece, and writes what the host answers.
fn answer_piece<A: Work, W: Write>(
    alloc: Global,
    host: &mut Host<A>,
    piece: &[u8],
    out: &mut W,
) -> Result<HostState, anyhow::Error>
    ensures answers { (bytes : List ℕ) (cs : List Choice) (text : List ℕ)
        → IsHostAfter A.told A.latest bytes cs text host.old → OnOk result
        (AnswersPiece A.told A.latest bytes cs text piece.now (W.contents out.old) host.new (W.contents out.new)) }
    ensures same { IsSameHost A.told host.old.talk host.new.talk }
    ensures state { IfOk result (λ s. AnswerIs (Ok s) host.new) }
{
    let mut answer = Vec::new(alloc);
    let state = host.take(piece, &mut answer);
    out.write_all(&answer)?;
    match state {
        Ok(state) => Ok(state),
        Err(fault) => bail!("{fault:?}"),
    }
}

/// Answers what stands on the input, to its end or to a choice that ends the talk.
pub fn serve<A: Work, R: Read, W: Write>(
    alloc: Global,
    host: &mut Host<A>,
    input: &mut R,
    out: &mut W,
) -> Result<(), anyhow::Error>
    ensures serves { (bytes : List ℕ) (cs : List Choice) (text : List ℕ)
        → IsHostAfter A.told A.latest bytes cs text host.old
        → OnOk result (Serves A.told A.latest bytes cs text (R.remaining input.old) (W.contents out.old)
        host.new (R.remaining input.new) (W.contents out.new)) }
    ensures same { IsSameHost A.told host.old.talk host.new.talk }
{
    let mut piece = [0; 4096];
    for _ in 0..u64::MAX {
        let count = input.read(&mut piece)?;
        if count == 0 {
            return Ok(());
        }
        let (taken, _) = piece.split_at(count);
        match answer_piece(alloc, host, taken, out)? {
            HostState::Open => {}
            HostState::Stopped => return Ok(()),
        }
    }
    bail!("the input has no end")
}
