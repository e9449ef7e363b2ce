//! The cases of the engine: checkouts in memory, their reports and their journals.
//!
//! Each argument is a file of blocks. It prints `ok` and the name of each block of which the wanted text comes, and of
//! any other both texts.
#![tactic(auto)]

mod journals;
mod runs;

use case_kit::{Block, Cell, Words, found, named_blocks, parted, print_verdict};
use engine_views::{RunView, Sight, command_of, host_of, reported, run_of};
use journals::{journal_of, recorded};
use runs::{ran, talked};
use std::alloc::Global;
use std::string::String;
use std::sync::Wait;
use std::test::Fail;
use std::thread::Threads;

/// The kind of a block.
#[derive(Clone, Copy)]
enum Kind {
    Run,
    Work,
    Counted,
    Talk,
    Journal,
    Recorded,
    Report,
    Command,
    Single,
    Host,
}

const KINDS: Words<Kind> = &[
    (b"run", Kind::Run),
    (b"work", Kind::Work),
    (b"counted", Kind::Counted),
    (b"talk", Kind::Talk),
    (b"journal", Kind::Journal),
    (b"recorded", Kind::Recorded),
    (b"report", Kind::Report),
    (b"command", Kind::Command),
    (b"single", Kind::Single),
    (b"host", Kind::Host),
];

/// The bytes of a text.
fn bytes_of(alloc: Global, text: Result<String, Fail>) -> Result<Vec<u8>, Fail> {
    Ok(Vec::from_slice(alloc, text?.as_bytes())?)
}

/// What this view shows of the run of these cells.
fn seen<H: Threads + Wait + Sync>(
    rt: &H,
    alloc: Global,
    view: RunView,
    cells: &[Cell],
) -> Result<Vec<u8>, Fail> {
    bytes_of(alloc, ran(rt, alloc, Sight { view, cells }, b""))
}

/// What comes of a block, or the error of a kind or cell that isn't known.
fn came_of<H: Threads + Wait + Sync>(
    rt: &H,
    alloc: Global,
    block: &Block,
) -> Result<Vec<u8>, Fail> {
    let (kind, _) = parted(&block.form);
    let cells = block.cells.as_slice();
    match found(KINDS, kind)? {
        Kind::Run => seen(rt, alloc, RunView::Run, cells),
        Kind::Work => seen(rt, alloc, RunView::Work, cells),
        Kind::Counted => seen(rt, alloc, RunView::Counted, cells),
        Kind::Talk => bytes_of(alloc, talked(rt, alloc, cells)),
        Kind::Journal => bytes_of(alloc, journal_of(rt, alloc, cells)),
        Kind::Recorded => bytes_of(alloc, recorded(rt, alloc, cells)),
        Kind::Report => reported(alloc, cells),
        Kind::Command => command_of(alloc, block),
        Kind::Single => run_of(alloc, block),
        Kind::Host => host_of(alloc, block),
    }
}

fn main(rt: HostRuntime) -> Result<(), Fail> {
    for block in named_blocks(rt)?.as_slice() {
        let came = came_of(&rt, rt.alloc(), block)?;
        print_verdict(rt, block, &came)?;
    }
    Ok(())
}
