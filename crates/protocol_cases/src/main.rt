//! Runs the cases of the protocol of filter drivers, and of what stands on it. Each argument is a file of cases.
//!
//! The crates under test are `pkt_line`, `filter_words`, `delay_table`, `filter_proto`, `driver_host`,
//! `checkout_core` and `journal_audit`. A case's kind is the first word of its form, and each module, here and in
//! `core_views`, says which cells its kinds have.
#![tactic(auto)]

mod answers;
mod cleans;
mod delays;
mod hosts;
mod packets;
mod page;
mod pipe;
mod runs;
mod talks;
mod writings;

use case_kit::{Block, Cases, Words, found, parted, report_files};
use core_views::{followed, judged};
use std::alloc::Global;
use std::test::Fail;

/// The kind of a case.
#[derive(Clone, Copy)]
enum Kind {
    Packets,
    Reader,
    Writing,
    Line,
    Answer,
    Delays,
    Talk,
    Late,
    Host,
    Clean,
    Checkout,
    Journal,
}

const KINDS: Words<Kind> = &[
    (b"packets", Kind::Packets),
    (b"reader", Kind::Reader),
    (b"writing", Kind::Writing),
    (b"line", Kind::Line),
    (b"answer", Kind::Answer),
    (b"delays", Kind::Delays),
    (b"talk", Kind::Talk),
    (b"late", Kind::Late),
    (b"host", Kind::Host),
    (b"clean", Kind::Clean),
    (b"checkout", Kind::Checkout),
    (b"journal", Kind::Journal),
];

/// The kinds of cases of the protocol.
struct Protocol;

impl Cases for Protocol {
    fn came_of(&self, alloc: Global, block: &Block) -> Result<Vec<u8>, Fail> {
        let (kind, _) = parted(&block.form);
        let cells = block.cells.as_slice();
        match found(KINDS, kind)? {
            Kind::Packets => packets::read_anyhow(alloc, cells),
            Kind::Reader => packets::read_by_steps(alloc, cells),
            Kind::Writing => writings::written(alloc, cells),
            Kind::Line => answers::line_of(alloc, cells),
            Kind::Answer => answers::answered(alloc, cells),
            Kind::Delays => delays::delayed(alloc, cells),
            Kind::Talk => talks::talked(alloc, cells),
            Kind::Late => hosts::served(alloc, cells),
            Kind::Host => hosts::hosted(alloc, cells),
            Kind::Clean => cleans::cleaned(alloc, cells),
            Kind::Checkout => followed(alloc, cells),
            Kind::Journal => judged(alloc, cells),
        }
    }
}

fn main(rt: HostRuntime) -> Result<(), Fail> {
    report_files(rt, &Protocol)
}
