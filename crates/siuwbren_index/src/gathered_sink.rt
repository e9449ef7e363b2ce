//! A report's rows, gathered before they go out.
ghost use Rattle.std.specs.Prelude.{None};

use crate::channel::{Channel, sink_of};
use edge_adapters::OutputSink;
use edge_kit::{SendFault, Sink};
use exit_status::{ExitStatus, say};
use reports::ReportForm;

/// How many bytes are gathered: as many as a pipe takes at once.
const ROOM: usize = 65_536;

/// Rows that aren't out, and where they go.
#[derive(Drop)]
struct HeldRows {
    sink: OutputSink<Channel>,
    bytes: Vec<u8>,
}

impl HeldRows {
    /// Writes what is held. If that fails it is dropped, since a part of it may be out.
    fn put(&mut self) -> Result<(), SendFault> {
        let written = self.sink.write(&self.bytes);
        self.bytes.clear();
        written
    }

    /// Adds a piece, which goes out at once where there is no memory for it.
    fn add(&mut self, piece: &[u8]) -> Result<(), SendFault> {
        if self.bytes.len() >= ROOM {
            self.put()?;
        }
        if self.bytes.extend_from_slice(piece).is_ok() {
            return Ok(());
        }
        self.put()?;
        self.sink.write(piece)
    }
}

/// What takes the rows of a report or a plan. They go out 64 KiB at a time, and the last ones by `end`.
#[derive(Drop)]
pub struct GatheredSink {
    rows: HeldRows,
    faults: u64,
}

impl GatheredSink {
    /// What takes a report or a plan in this form.
    pub fn new(rt: HostRuntime, form: ReportForm) -> GatheredSink {
        GatheredSink {
            rows: HeldRows {
                sink: sink_of(rt, form),
                bytes: Vec::new(rt.alloc()),
            },
            faults: 0,
        }
    }

    /// Writes the last rows: the status is this one if they are written whole.
    pub fn end(mut self, status: ExitStatus) -> ExitStatus {
        say(&mut self.rows.sink, &self.rows.bytes, status)
    }
}

impl Sink for GatheredSink {
    ghost seen = { λ s. record { written = None; faults = s.faults } };

    fn write(&mut self, piece: &[u8]) -> Result<(), SendFault> {
        let written = self.rows.add(piece);
        if let Err(SendFault::Failed) = written {
            self.faults = self.faults.saturating_add(1);
        }
        written
    }
}
