// Paths, numbers, patterns and names of objects.
use bench_books::marks::{begin, end};
use byte_path::{ObjectId, PathFault, check_path, read_decimal};
use object_dir::blob_name;
use std::io;
use std::io::Print;
use wild_match::matches;

/// The name of the object with the content `hello` and a line feed, as `git hash-object` prints it.
const HELLO: ObjectId =
    *b"\xce\x01\x36\x25\x03\x0b\xa8\xdb\xa9\x06\xf7\x56\x96\x7f\x9e\x9c\xa3\x94\x46\x4a";

pub fn make_calls<R: Print>(rt: &R) -> io::Result<()> {
    begin(rt, "check_path")?;
    end(
        rt,
        matches!(check_path(b"folder/.GIT/file"), Err(PathFault::DotGit)),
    )?;
    begin(rt, "read_decimal")?;
    end(
        rt,
        read_decimal(b"18446744073709551615", u64::MAX) == Some(u64::MAX),
    )?;
    begin(rt, "matches")?;
    end(
        rt,
        matches(b"a/**/b*[c-e]?", b"a/x/y/bbad.") && !matches(b"*.txt", b"a/b.tx"),
    )?;
    begin(rt, "blob_name")?;
    end(rt, blob_name(b"hello\n") == HELLO)
}
