//! An output that can't be written.
use edge_adapters::OutputSink;
use edge_kit::{SendFault, Sink};
use std::fs::OpenOptions;
use std::io;
use std::io::{ErrorKind, Write};
use std::test::Fail;

/// A writer that takes at most three bytes at once, and fails so often after some writes.
#[derive(Drop)]
struct Slow {
    writes: u32,
    fails_after: u32,
    fails: u32,
    kind: ErrorKind,
}

impl Write for Slow {
    fn write(&mut self, piece: &[u8]) -> io::Result<usize> {
        if self.writes >= self.fails_after && self.fails > 0 {
            self.fails -= 1;
            return Err(io::Error::from(self.kind));
        }
        self.writes = self.writes.saturating_add(1);
        Ok(piece.len().min(3))
    }

    fn flush(&mut self) -> io::Result<()> {
        Ok(())
    }
}

/// Whether a write of four bytes ends with this letter, `+` well, `x` with a failure or `n` without
/// memory, and this count of faults.
fn ends_so<W: Write + Drop>(rt: HostRuntime, writer: W, want: u8, faults: u64) -> bool {
    let mut sink = OutputSink::new(rt, writer);
    let told = match sink.write(b"done") {
        Ok(()) => b'+',
        Err(SendFault::Failed) => b'x',
        Err(SendFault::NoMemory) => b'n',
    };
    told == want && sink.faults == faults
}

#[test]
fn output_that_is_not_written_is_a_fault(rt: HostRuntime) -> Result<(), Fail> {
    // a full pipe that is set not to block is no fault: its reader is waited for
    let cases = [
        (2, 1, ErrorKind::StorageFull, b'+', 0),
        (1, 1, ErrorKind::StorageFull, b'x', 1),
        (1, 1, ErrorKind::OutOfMemory, b'x', 1),
        (0, 1, ErrorKind::OutOfMemory, b'n', 0),
        (0, 3, ErrorKind::WouldBlock, b'+', 0),
        (1, 3, ErrorKind::WouldBlock, b'+', 0),
    ];
    for (fails_after, fails, kind, want, faults) in cases {
        let slow = Slow {
            writes: 0,
            fails_after,
            fails,
            kind,
        };
        assert!(rt;
            ends_so(rt, slow, want, faults),
            "after {fails_after} writes"
        );
    }
    let full = OpenOptions::new().write(true).open(&rt, "/dev/full")?;
    assert!(rt; ends_so(rt, full, b'x', 1));
    Ok(())
}
