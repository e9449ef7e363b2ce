//! Zlib streams of stored blocks.
use crate::table::cut;
use checkin_edge::zlib_stored;
use inflate::inflate;
use std::test::Fail;

/// A content and its stream in hexadecimal digits, as zlib makes it without compression: Python's
/// `zlib.compress(.., 0)`.
const STREAMS: &[&str] = &[
    "|7801010000ffff00000001",
    "hi\n|7801010300fcff68690a021700dc",
    "blob 3\0hi\n|7801010a00f5ff626c6f6220330068690a11a302ce",
];

#[test]
fn short_contents_have_the_streams_of_zlib(rt: HostRuntime) -> Result<(), Fail> {
    let alloc = rt.alloc();
    for row in STREAMS {
        let (content, wanted) = cut(row, '|');
        let stream = zlib_stored(alloc, content.as_bytes())?;
        let came = hex::encode(alloc, stream.as_slice())?;
        assert_eq!(rt; came.as_str(), wanted, "{content}");
    }
    Ok(())
}

/// Lengths beside those of whole blocks, and how many bytes their streams have.
const LENGTHS: &[(usize, usize)] = &[
    (65_534, 65_545),
    (65_535, 65_546),
    (65_536, 65_552),
    (131_070, 131_086),
    (131_071, 131_092),
];

#[test]
fn long_contents_come_back(rt: HostRuntime) -> Result<(), Fail> {
    let alloc = rt.alloc();
    for (len, wanted) in LENGTHS {
        let content = vec![in alloc; 0xa5u8; *len]?;
        let stream = zlib_stored(alloc, content.as_slice())?;
        let mut out = Vec::new(alloc);
        let used = inflate(alloc, stream.as_slice(), &mut out, *len).unwrap_or(0);
        assert_eq!(rt; stream.len(), *wanted, "{len}");
        assert_eq!(rt; used, *wanted, "{len}");
        assert!(rt; out.as_slice() == content.as_slice(), "{len}");
    }
    Ok(())
}
