// What a driver says: its packets, their keys and values, and its statuses.
use bench_books::marks::{begin, end};
use filter_words::{Status, key_value, read_status};
use pkt_line::{Next, PktReader, push_line};
use std::io;
use std::io::Print;

/// Appends a line, which takes memory: whoever counts has to see it.
fn make_line<R: Print + AllocGlobal>(rt: &R) -> io::Result<()> {
    let mut out = Vec::new(rt.alloc());
    begin(rt, "push_line")?;
    let made = push_line(rt.alloc(), &mut out, b"status=success");
    end(
        rt,
        made.is_ok() && out.as_slice() == b"0013status=success\n".as_slice(),
    )
}

/// Reads a line and the flush behind it.
fn read_line<R: Print>(rt: &R, reader: &mut PktReader) -> io::Result<()> {
    begin(rt, "PktReader::feed")?;
    end(rt, reader.feed(b"0013status=success\n0000") == 23)?;
    begin(rt, "PktReader::next")?;
    let is_line = reader.next() == Ok(Next::Payload(b"status=success\n"));
    end(
        rt,
        is_line && reader.next() == Ok(Next::Flush) && reader.next() == Ok(Next::NeedMore),
    )
}

pub fn make_calls<R: Print + AllocGlobal>(rt: &R) -> io::Result<()> {
    let mut reader = PktReader::reserve(rt.alloc())?;
    read_line(rt, &mut reader)?;
    begin(rt, "key_value")?;
    end(
        rt,
        matches!(
            key_value(b"status=success\n"),
            Some((b"status", b"success"))
        ),
    )?;
    begin(rt, "read_status")?;
    end(rt, matches!(read_status(b"delayed"), Status::Delayed))?;
    make_line(rt)
}
