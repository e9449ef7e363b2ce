//! What a checkout makes of contents.
ghost use Rattle.std.specs.Prelude.{◌≡◌, ◌++◌, OnOk};
ghost use Rattle.format_cases.specs.Task.{answer};

use crate::task::{convert, read_task};
use std::alloc::{AllocError, Global};
use std::test::Fail;

/// A line with bytes in hex, or `-` if there are none.
fn push_answer(alloc: Global, answers: &mut Vec<u8>, bytes: &[u8]) -> Result<(), AllocError>
    ensures { OnOk result (answers.new.items ≡ answers.old.items ++ answer bytes.now) }
{
    if bytes.is_empty() {
        answers.extend_from_slice(b"-\n")?;
        return Ok(());
    }
    let digits = hex::encode(alloc, bytes)?;
    answers.extend_from_slice(digits.as_bytes())?;
    answers.push(b'\n')?;
    Ok(())
}

/// The contents that the lines of a table ask for, each in a line.
pub fn converted(alloc: Global, text: &[u8]) -> Result<Vec<u8>, Fail> {
    let mut answers = Vec::new(alloc);
    for line in text.split(|byte| *byte == b'\n') {
        if !line.is_empty() {
            let bytes = convert(alloc, &read_task(alloc, line)?)?;
            push_answer(alloc, &mut answers, &bytes)?;
        }
    }
    Ok(answers)
}
