use crate::vectors::{BAD, COUNTS, GOOD};
use inflate::{InflateFault, inflate, inflate_behind};
use std::alloc::{AllocError, Global};
use std::test::Fail;

fn hex_of(bytes: &[u8], alloc: Global) -> Result<String, AllocError> {
    hex::encode(alloc, bytes)
}

/// The name of a fault, or the content and the count of bytes.
fn told(alloc: Global, stored: &[u8], limit: usize) -> Result<String, Fail> {
    let mut out = Vec::new(alloc);
    match inflate(alloc, stored, &mut out, limit) {
        Ok(used) => {
            let content = hex_of(out.as_slice(), alloc)?;
            Ok(format!(in alloc; "{content}|{used}")?)
        }
        Err(fault) => Ok(format!(in alloc; "{fault:?}")?),
    }
}

/// What is in front of a content.
const HEADER: &[u8] = b"blob 5\0";

/// The same for a stream that is inflated behind a header, without the header if that is kept.
fn told_behind(alloc: Global, stored: &[u8], limit: usize) -> Result<String, Fail> {
    let mut out = Vec::new(alloc);
    out.extend_from_slice(HEADER)?;
    match inflate_behind(alloc, stored, &mut out, limit) {
        Ok(used) => {
            let content = out.as_slice().strip_prefix(HEADER).unwrap_or(b"no header");
            let content = hex_of(content, alloc)?;
            Ok(format!(in alloc; "{content}|{used}")?)
        }
        Err(fault) => Ok(format!(in alloc; "{fault:?}")?),
    }
}

/// How many bytes the content has whose row tells it in hex.
fn size_of(want: &str) -> usize {
    want.find('|').unwrap_or(0) / 2
}

#[test]
fn streams_of_zlib_are_inflated(rt: HostRuntime) -> Result<(), Fail> {
    let alloc = rt.alloc();
    let mut count = 0usize;
    for row in GOOD.split('%') {
        let Some((stored, want)) = row.split_once('|') else {
            return Err(Fail::new(format_args!("a row has one cell")));
        };
        let stored = hex::decode(alloc, stored.as_bytes())?;
        let came = told(alloc, stored.as_slice(), 1000)?;
        assert_eq!(rt; came.as_str(), want);
        let came = told_behind(alloc, stored.as_slice(), size_of(want))?;
        assert_eq!(rt; came.as_str(), want);
        count = count.saturating_add(1);
    }
    assert_eq!(rt; count, COUNTS.0);
    Ok(())
}

#[test]
fn streams_that_zlib_refuses_are_refused(rt: HostRuntime) -> Result<(), Fail> {
    let alloc = rt.alloc();
    let mut count = 0usize;
    for row in BAD.split('%') {
        let Some((stored, want)) = row.split_once('|') else {
            return Err(Fail::new(format_args!("a row has one cell")));
        };
        let bytes = hex::decode(alloc, stored.as_bytes())?;
        let came = told(alloc, bytes.as_slice(), 1_000_000)?;
        assert_eq!(rt; came.as_str(), want, "{stored}");
        let came = told_behind(alloc, bytes.as_slice(), 100_000)?;
        assert_eq!(rt; came.as_str(), want, "{stored}");
        count = count.saturating_add(1);
    }
    assert_eq!(rt; count, COUNTS.1);
    Ok(())
}

#[test]
fn limit_is_kept(rt: HostRuntime) -> Result<(), Fail> {
    let alloc = rt.alloc();
    let stored = hex::decode(alloc, b"78da4bcac94f523065c848cdc9c9070019aa0409")?;
    let mut out = Vec::new(alloc);
    let fault = Err(InflateFault::TooLong);
    assert_eq!(rt; inflate(alloc, stored.as_slice(), &mut out, 11), fault);
    assert_eq!(rt;
        inflate_behind(alloc, stored.as_slice(), &mut out, 11),
        fault
    );
    Ok(())
}
