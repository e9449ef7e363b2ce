//! A writer that waits where another would give up.
use std::io;
use std::io::{ErrorKind, Write};
use std::thread::sleep;
use std::time::Duration;

/// The pause between two tries, in milliseconds.
const PAUSE: u64 = 1;

/// A writer over a pipe or a socket that may be set not to block: if that is full, it waits for the reader.
#[derive(Drop)]
pub struct Patient<W: Write + Drop> {
    rt: HostRuntime,
    out: W,
}

impl<W: Write + Drop> Patient<W> {
    pub fn new(rt: HostRuntime, out: W) -> Patient<W> {
        Patient { rt, out }
    }
}

impl<W: Write + Drop> Write for Patient<W> {
    fn write(&mut self, buf: &[u8]) -> io::Result<usize> {
        for _ in 0..u64::MAX {
            match self.out.write(buf) {
                Err(error) if error.kind() == ErrorKind::WouldBlock => {
                    sleep(&self.rt, Duration::from_millis(PAUSE));
                }
                ended => return ended,
            }
        }
        Err(io::Error::from(ErrorKind::WouldBlock))
    }

    fn flush(&mut self) -> io::Result<()> {
        self.out.flush()
    }
}
