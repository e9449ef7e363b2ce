//! A shell that removes what this program made, however that ends.
use std::alloc::Global;
use std::io;
use std::io::{PipeWriter, Read, Write};
use std::process::{Child, Command, Stdio};

/// A shell that waits for the end of its input, which comes however this program ends.
pub struct Keeper {
    child: Child,
    input: PipeWriter,
}

impl Keeper {
    /// Has a shell do this with a path. What it does says by a byte that it has begun, and then removes what it is to
    /// remove at the end of its input. There is no keeper if it says nothing, and then it removes nothing.
    pub fn start(
        rt: HostRuntime,
        alloc: Global,
        commands: &str,
        path: &str,
    ) -> io::Result<Option<Keeper>> {
        let mut shell = Command::new(alloc, "sh")?;
        shell.arg("-c")?;
        shell.arg(commands)?;
        shell.arg("siuwbren")?;
        shell.arg(path)?;
        let (waited, input) = io::pipe(&rt)?;
        let (mut output, said) = io::pipe(&rt)?;
        shell.stdin(waited);
        shell.stdout(said);
        shell.stderr(Stdio::null());
        let mut child = shell.spawn(&rt)?;
        drop(shell);
        let mut byte = [0u8];
        match output.read(byte.as_mut_slice()) {
            Ok(1) => Ok(Some(Keeper { child, input })),
            _ => {
                drop(input);
                let _ = child.wait();
                Ok(None)
            }
        }
    }

    /// Writes an empty line to it.
    pub fn tell(&mut self) -> io::Result<()> {
        self.input.write_all(b"\n")
    }

    /// Ends its input, and waits for it.
    pub fn end(self) {
        let Keeper { mut child, input } = self;
        drop(input);
        let _ = child.wait();
    }
}
