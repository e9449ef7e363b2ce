//! The value of an end that has no report, where a report is to be in JSON.
use json::Writer;
use program_kit::message_of;
use reports::ReportForm;
use std::alloc::{AllocError, Global};
use std::io::Write;

/// The object of such an end, in a line (RFC 8259).
fn error_line(alloc: Global, status: u8, words: &str) -> Result<Vec<u8>, AllocError> {
    let mut writer = Writer::new(Vec::new(alloc));
    writer.begin_object()?;
    writer.key("error")?;
    writer.begin_object()?;
    writer.key("status")?;
    writer.u64(u64::from(status))?;
    writer.key("words")?;
    writer.string(words)?;
    writer.end_object()?;
    writer.end_object()?;
    let mut line = writer.into_inner();
    line.push(b'\n')?;
    Ok(line)
}

/// Writes the object of an end with this status and these words, if the form is JSON, and gives the status.
pub fn show_error(rt: HostRuntime, form: ReportForm, status: u8, words: &str) -> u8 {
    if let ReportForm::Json = form {
        if let Ok(line) = error_line(rt.alloc(), status, words) {
            let _ = rt.stdout().write_all(line.as_slice());
        }
    }
    status
}

/// Writes the object of an end with a status of the engine that has words of its own.
pub fn show_error_of(rt: HostRuntime, form: ReportForm, status: u8) -> u8 {
    match message_of(status) {
        Some(words) => show_error(rt, form, status, words),
        None => status,
    }
}
