//! Long runs of one byte, which a file spells as `<3000 z>`.
use case_kit::{number_of, parted, push_all, unknown};
use std::alloc::{AllocError, Global};
use std::test::Fail;

/// Appends a run of one byte.
fn push_run(alloc: Global, text: &mut Vec<u8>, run: &[u8]) -> Result<(), AllocError> {
    if run.len() <= 100 {
        return text.extend_from_slice(run);
    }
    let count = format!(in alloc; "<{} ", run.len())?;
    let (byte, _) = run.split_at(1);
    push_all(text, &[count.as_bytes(), byte, b">"])
}

/// The bytes with each run of more than a hundred equal ones folded.
pub fn folded(alloc: Global, bytes: &[u8]) -> Result<Vec<u8>, AllocError> {
    let mut text = Vec::new(alloc);
    for run in bytes.chunk_by(|one, next| one == next) {
        push_run(alloc, &mut text, run)?;
    }
    Ok(text)
}

/// Appends what stands behind a `<`: a run, and the bytes behind it.
fn push_unfolded(bytes: &mut Vec<u8>, text: &[u8]) -> Result<(), Fail> {
    let (count, rest) = parted(text);
    let [byte, _, end @ ..] = rest else {
        return Err(unknown(text));
    };
    let len = bytes.len().saturating_add(number_of(count)? as usize);
    bytes.resize(len, *byte)?;
    bytes.extend_from_slice(end)?;
    Ok(())
}

/// The bytes that a text with folded runs stands for.
pub fn unfolded(alloc: Global, text: &[u8]) -> Result<Vec<u8>, Fail> {
    let mut bytes = Vec::new(alloc);
    let mut parts = text.split(|byte| *byte == b'<');
    if let Some(front) = parts.next() {
        bytes.extend_from_slice(front)?;
    }
    for part in parts {
        push_unfolded(&mut bytes, part)?;
    }
    Ok(bytes)
}
