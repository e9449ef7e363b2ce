//! Where a report goes.
use edge_adapters::OutputSink;
use reports::ReportForm;
use std::io;
use std::io::{Stderr, Stdout, Write};

/// Standard output, or standard error for the lines of failures alone.
#[derive(Drop)]
pub enum Channel {
    Output(Stdout),
    Errors(Stderr),
}

impl Write for Channel {
    fn write(&mut self, buf: &[u8]) -> io::Result<usize> {
        match self {
            Channel::Output(out) => out.write(buf),
            Channel::Errors(out) => out.write(buf),
        }
    }

    fn flush(&mut self) -> io::Result<()> {
        Ok(())
    }
}

/// What takes a report or a plan in this form.
pub fn sink_of(rt: HostRuntime, form: ReportForm) -> OutputSink<Channel> {
    let channel = match form {
        ReportForm::Failures => Channel::Errors(rt.stderr()),
        ReportForm::Text | ReportForm::Nul | ReportForm::Json => Channel::Output(rt.stdout()),
    };
    OutputSink::new(rt, channel)
}
