//! The journal of a rehearsal.
ghost use Rattle.std.specs.Prelude.{◌≡◌, ◌≤◌, IfOk};
ghost use Rattle.journal_run.specs.Rehearsed.{IsJournalOf};

use crate::journal::print_journal;
use checkout_engine::rehearsed_run;
use checkout_paths::Means;
use edge_kit::Gate;
use std::alloc::{AllocError, Global};
use std::sync::Wait;
use std::thread::Threads;

/// The journal of a rehearsal of so many paths.
pub fn rehearsal_journal<G: Gate, H: Threads + Wait + Sync>(
    rt: &H,
    alloc: Global,
    seed: u64,
    paths: u32,
    gate: &G,
) -> Result<Vec<u8>, AllocError>
    requires { paths ≤ 99999 }
    ensures { IfOk result (λ text. IsJournalOf seed paths text.items) }
{
    let means = Means { rt, alloc, gate };
    let run = rehearsed_run(&means, seed, paths)?;
    print_journal(alloc, &run)
}
