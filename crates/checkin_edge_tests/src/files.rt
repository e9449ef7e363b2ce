//! What is read of a worktree's folder.
use crate::place::{folder_after, path_in};
use crate::table::{cut, is_right};
use byte_path::Bytes;
use checkin_edge::{FolderFiles, IndexLinks};
use checkin_paths::Files;
use edge_kit::TakeFault;
use std::fs::remove_dir_all;
use std::test::Fail;

/// What the shell does in the folder `tree`, a path, a limit of one digit, and what is read there: `=` and these bytes,
/// `.` nothing, `l` more than the limit, or `x` a failure.
const CASES: &[&str] = &[
    "printf hi > a~a~9=hi",
    "printf hi > a~a~2=hi",
    "printf hi > a~a~1l",
    ": > a~a~0=",
    "mkdir -p d/e; printf hi > d/e/a~d/e/a~9=hi",
    "printf hi > '-a b'~-a b~9=hi",
    // there is no file, and no folder
    "~a~9.",
    "~d/e/a~9.",
    "rmdir ../tree~a~9.",
    "printf hi > d~d/a~9.",
    "mkfifo d~d/a~9.",
    // a link is its text, wherever it leads
    "ln -s nowhere a~a~9=nowhere",
    "printf hi > b; ln -s b a~a~9=b",
    "mkdir b; ln -s b a~a~9=b",
    "ln -s nowhere a~a~7=nowhere",
    "ln -s nowhere a~a~6l",
    // nothing is read through a link to a folder, but the worktree's own may be one
    "mkdir b; printf hi > b/a; ln -s b d~d/a~9.",
    "mkdir -p b/e; printf hi > b/e/a; ln -s b d~d/e/a~9.",
    "mkdir ../b; printf hi > ../b/a; rmdir ../tree; ln -s b ../tree~a~9=hi",
    // what is no file is never waited for
    "mkdir a~a~9x",
    "mkfifo a~a~9x",
];

/// Rows as above where `l` is a link in the index, and `a` a file. `k` is a failure by the kind of the file.
const KINDS: &[&str] = &[
    "printf hi > a~a~9=hi",
    "ln -s nowhere a~a~9k",
    "ln -s nowhere l~l~9=nowhere",
    "printf hi > l~l~9k",
    "mkdir l~l~9x",
    "~l~9.",
];

/// Whether a read gives what is wanted.
fn is_read(taken: &Result<Option<Vec<u8>>, TakeFault>, want: &[u8]) -> bool {
    match (taken, want) {
        (Ok(Some(bytes)), [b'=', wanted @ ..]) => bytes.as_slice() == wanted,
        (Ok(None), [b'.']) => true,
        (Err(TakeFault::TooLong), [b'l']) => true,
        (Err(TakeFault::Failed), [b'x' | b'k']) => true,
        _ => false,
    }
}

/// Whether a failure is one that is kept with its error, and no other is, and whether it is by the kind of the file.
fn is_counted(files: &FolderFiles, want: &[u8]) -> bool {
    let is_kind = want == b"k".as_slice();
    let is_failure = is_kind || want == b"x".as_slice();
    files.errors().counts().len() == usize::from(is_failure) && files.failed_by_kind() == is_kind
}

/// Whether a path of these files gives this: a path, a limit of one digit, and what is read.
fn gives(mut files: FolderFiles, cells: &str) -> Result<bool, Fail> {
    let (path, cells) = cut(cells, '~');
    let [limit, want @ ..] = cells.as_bytes() else {
        return Ok(false);
    };
    let taken = files.take(path, u64::from(limit.wrapping_sub(b'0')));
    Ok(is_read(&taken, want) && is_counted(&files, want))
}

/// Whether a row is right. Its files are those of an index with the link `l` if kinds count.
fn goes(rt: HostRuntime, row: &str, kinds: bool) -> Result<bool, Fail> {
    let (script, cells) = cut(row, '~');
    let script = format!(in rt.alloc(); "mkdir tree; cd tree; {script}")?;
    let folder = folder_after(rt, "files", script.as_str())?;
    let mut files = FolderFiles::new(rt, path_in(rt, folder.as_str(), "tree")?);
    if kinds {
        files = files.of_links(IndexLinks {
            paths: vec![in rt.alloc(); Bytes::copy_of(rt.alloc(), b"l")?]?,
            kept: true,
        });
    }
    let goes = gives(files, cells)?;
    remove_dir_all(&rt, folder.as_str())?;
    Ok(goes)
}

#[test]
fn files_are_read_and_links_are_not_followed(rt: HostRuntime) -> Result<(), Fail> {
    for row in CASES {
        is_right(&rt, goes(rt, row, false)?, row, "other bytes");
    }
    for row in KINDS {
        is_right(&rt, goes(rt, row, true)?, row, "other bytes");
    }
    Ok(())
}
