//! Runs the cases of the outside in memory, and of what reads it. Each argument is a file of cases.
//!
//! The crates under test are `edge_kit`, `object_dir` and `rehearsal`. A case's kind is the first word of its form, and
//! each module says which cells its kinds have.
#![tactic(auto)]

mod drivers;
mod objects;
mod rehearsals;
mod repositories;
mod worktrees;

use case_kit::{Block, Cases, parted, report_files, unknown};
use std::alloc::Global;
use std::test::Fail;

/// The kinds of cases of the outside.
struct Edge;

impl Cases for Edge {
    fn came_of(&self, alloc: Global, block: &Block) -> Result<Vec<u8>, Fail> {
        let (kind, _) = parted(&block.form);
        let cells = block.cells.as_slice();
        if kind == b"object".as_slice() {
            objects::read(alloc, cells)
        } else if kind == b"content".as_slice() {
            objects::named(alloc, cells)
        } else if kind == b"repository".as_slice() {
            repositories::read(alloc, cells)
        } else if kind == b"sink".as_slice() {
            worktrees::sunk(alloc, cells)
        } else if kind == b"leaf".as_slice() {
            worktrees::called(alloc, cells)
        } else if kind == b"worktree".as_slice() {
            worktrees::grown(alloc, cells)
        } else if kind == b"session".as_slice() {
            drivers::talked(alloc, cells)
        } else if kind == b"starts".as_slice() {
            drivers::started(alloc, cells)
        } else if kind == b"rehearsal".as_slice() {
            rehearsals::rehearsed(alloc, cells)
        } else {
            Err(unknown(kind))
        }
    }
}

fn main(rt: HostRuntime) -> Result<(), Fail> {
    report_files(rt, &Edge)
}
