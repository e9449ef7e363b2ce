//! Check-ins in memory: what each block of a file meets, and what it leaves. Each argument is a file of blocks.
//!
//! A block has the kind `checkin`, and the cells that `case` names, of any number and in any order. What it leaves is
//! the report, the status, a line for each object that was kept, with its name and its stored bytes, and a line for
//! the index, with the name that `git hash-object` gives to it. Behind the index there is a line for each starter
//! that was given back, with its command. Below it each start has the bytes that were sent, and whether the session
//! was shut.
#![tactic(auto)]

mod case;
mod cells;
mod index;
mod long_files;
mod objects;
mod outcome;

use case_kit::{Block, Cases, parted, report_files, unknown};
use cells::case_of;
use outcome::left_by;
use std::alloc::Global;
use std::test::Fail;

/// The one kind of blocks.
struct Checkins;

impl Cases for Checkins {
    fn came_of(&self, alloc: Global, block: &Block) -> Result<Vec<u8>, Fail> {
        let (kind, _) = parted(&block.form);
        if kind != b"checkin".as_slice() {
            return Err(unknown(kind));
        }
        let mut case = case_of(alloc, &block.cells)?;
        Ok(left_by(alloc, &mut case)?)
    }
}

fn main(rt: HostRuntime) -> Result<(), Fail> {
    report_files(rt, &Checkins)
}
