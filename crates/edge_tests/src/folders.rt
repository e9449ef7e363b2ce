//! What is read of a Git folder, and of a file by its path alone.
use crate::place::{folder_with, path_in};
use crate::table::{cut, is_read, is_right, read_part};
use edge_adapters::{FolderBlob, FolderRepo};
use edge_kit::{Blob, TakeFault};
use std::fs::remove_dir_all;
use std::test::Fail;

/// The name 0123456789abcdef0123456789abcdef01234567.
const NAME: [u8; 20] =
    *b"\x01\x23\x45\x67\x89\xAB\xCD\xEF\x01\x23\x45\x67\x89\xAB\xCD\xEF\x01\x23\x45\x67";

/// What is there, the letter of what is read of the folder `repo` (`f` of a file of that path), a limit of one digit,
/// and what is read.
const CASES: &[&str] = &[
    // no Git folder
    "|i9.",
    "|c9.",
    "|a9.",
    "|u9.",
    "|o9.",
    // each file at its place
    "d repo;f repo/index DIRC!|i5=DIRC!",
    "d repo;f repo/config [core]|c6=[core]",
    "d repo;d repo/info;f repo/info/attributes * text|a6=* text",
    "d repo;d repo/objects;d repo/objects/01;\
      f repo/objects/01/23456789abcdef0123456789abcdef01234567 blob 1\0a|o8=blob 1\0a",
    "d repo;f repo/index |i0=",
    // a link to a file
    "d repo;f repo/a x;l repo/index a|i9=x",
    // over the limit
    "d repo;f repo/index DIRC!|i4l",
    "d repo;d repo/objects;d repo/objects/01;\
      f repo/objects/01/23456789abcdef0123456789abcdef01234567 blob 1\0a|o7l",
    // an object that isn't there
    "d repo;d repo/objects|o9.",
    "d repo;d repo/objects;d repo/objects/01|o9.",
    // no regular file
    "d repo;d repo/index|i9x",
    "d repo;l repo/index /dev/null|i9x",
    "d repo;l repo/config /dev/zero|c9x",
    // a link to itself
    "d repo;l repo/config config|c9x",
    // a file in the place of a folder
    "f repo |c9x",
    "f repo |a9x",
    "d repo;d repo/objects;f repo/objects/01 |o9x",
    // a file by its path
    "|f9.",
    "f repo journal|f7=journal",
    "f repo journal|f6l",
    "d repo|f9x",
];

/// What is read of a path.
fn read(rt: HostRuntime, path: String, part: u8, limit: u64) -> Result<Option<Vec<u8>>, TakeFault> {
    if part == b'f' {
        return FolderBlob::of_file(rt, path).take_all(limit);
    }
    let mut repo = FolderRepo::new(rt, path)?;
    read_part(&mut repo, part, &NAME, limit)
}

fn is_so(rt: HostRuntime, row: &str) -> Result<bool, Fail> {
    let (things, rest) = cut(row, '|');
    let [part, limit, want @ ..] = rest.as_bytes() else {
        return Ok(false);
    };
    let folder = folder_with(rt, "repo", things)?;
    let path = path_in(rt, folder.as_str(), "repo")?;
    let limit = u64::from(limit.wrapping_sub(b'0'));
    let is_wanted = is_read(read(rt, path, *part, limit), want);
    remove_dir_all(&rt, folder.as_str())?;
    Ok(is_wanted)
}

#[test]
fn files_are_read_whole(rt: HostRuntime) -> Result<(), Fail> {
    for row in CASES {
        is_right(&rt, is_so(rt, row)?, row.as_bytes());
    }
    Ok(())
}
