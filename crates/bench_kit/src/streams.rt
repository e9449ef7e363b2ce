//! Zlib streams of a file, which is inflated so many times.
//!
//! The file has for each stream its size and its content's size, each in four bytes, the least significant first, and
//! then the stream.
use inflate::inflate;
use std::alloc::Global;
use std::io::Print;
use std::{fs, io};

/// What came out of a file's streams.
#[derive(Clone, Copy)]
struct Seen {
    streams: u64,
    /// How many bytes their contents have.
    bytes: u64,
    /// A sum over the last byte of each content.
    sum: u64,
}

/// The first stream of a file, its content's size, and what is behind it.
fn first_stream(file: &[u8]) -> Option<(&[u8], usize, &[u8])> {
    let (size, rest) = file.split_first_chunk::<4>()?;
    let (whole, rest) = rest.split_first_chunk::<4>()?;
    let (stream, rest) = rest.split_at_checked(u32::from_le_bytes(*size) as usize)?;
    Some((stream, u32::from_le_bytes(*whole) as usize, rest))
}

/// Inflates each stream of a file.
fn inflate_all(alloc: Global, file: &[u8], out: &mut Vec<u8>) -> io::Result<Seen> {
    let mut seen = Seen {
        streams: 0,
        bytes: 0,
        sum: 0,
    };
    let mut rest = file;
    for _ in 0..u64::MAX {
        let Some((stream, size, behind)) = first_stream(rest) else {
            break;
        };
        if inflate(alloc, stream, out, size).is_err() {
            return Err(io::ErrorKind::InvalidData.into());
        }
        let last = out.last().copied().unwrap_or(0);
        seen.streams = seen.streams.wrapping_add(1);
        seen.bytes = seen.bytes.wrapping_add(out.len() as u64);
        seen.sum = seen.sum.wrapping_mul(31).wrapping_add(u64::from(last));
        rest = behind;
    }
    Ok(seen)
}

/// Inflates all streams of a file so many times, and tells how many there are, the bytes of their contents and a sum
/// over them, with a tab between.
pub fn tell(rt: HostRuntime, turns: u32, name: &str) -> io::Result<()> {
    let file = fs::read(&rt, name)?;
    let mut out = Vec::new(rt.alloc());
    let mut seen = inflate_all(rt.alloc(), &file, &mut out)?;
    for _ in 1..turns {
        seen = inflate_all(rt.alloc(), &file, &mut out)?;
    }
    let Seen {
        streams,
        bytes,
        sum,
    } = seen;
    println!(rt; "{streams}\t{bytes}\t{sum}")
}
