//! SHA-1 of four messages at once.
use case_kit::push_all;
use sha1_lanes::digest_four;
use std::alloc::{AllocError, Global};

/// The digests of the messages in hex, with a space behind each.
pub fn digested(alloc: Global, [a, b, c, d]: [&[u8]; 4]) -> Result<Vec<u8>, AllocError> {
    let mut list = Vec::new(alloc);
    for digest in digest_four(a, b, c, d) {
        let digits = hex::encode(alloc, &digest)?;
        push_all(&mut list, &[digits.as_bytes(), b" "])?;
    }
    Ok(list)
}
