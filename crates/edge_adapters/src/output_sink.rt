ghost use Rattle.std.specs.Prelude.{◌≡◌, None};

use crate::patient::Patient;
use crate::whole_write::{told, write_whole};
use edge_kit::{SendFault, Sink};
use std::io::Write;

/// A writer that is written to, such as the program's standard output. Each piece is written at once. Where the
/// reader is slow it is waited for, also if the writer is a pipe that is set not to block.
#[derive(Drop)]
pub struct OutputSink<W: Write + Drop> {
    out: Patient<W>,
    pub faults: u64,
}

impl<W: Write + Drop> OutputSink<W> {
    pub fn new(rt: HostRuntime, out: W) -> OutputSink<W>
        ensures { result.faults ≡ 0 }
    {
        OutputSink {
            out: Patient::new(rt, out),
            faults: 0,
        }
    }
}

impl<W: Write + Drop> Sink for OutputSink<W> {
    ghost seen = { λ s. record { written = None; faults = s.faults } };

    fn write(&mut self, piece: &[u8]) -> Result<(), SendFault> {
        let written = write_whole(&mut self.out, piece).map_err(told);
        if let Err(SendFault::Failed) = written {
            self.faults = self.faults.saturating_add(1);
        }
        written
    }
}
