//! The files that leaves make.
use crate::place::{folder_with, holds, path_in};
use crate::table::{cut, is_right};
use edge_adapters::{FileLeaf, FolderTree};
use edge_kit::{Leaf, LeafState, Mark, Worktree};
use std::fs::{remove_dir_all, remove_file};
use std::io::ErrorKind;
use std::test::Fail;

/// Calls the leaf, and returns whether that went well: `p` puts these bytes, `r` restarts, `s`
/// seals, `d` discards.
fn goes_well(leaf: &mut FileLeaf, call: &[u8]) -> bool {
    match (call, leaf.state) {
        (_, LeafState::Sealed(_)) => false,
        ([b'd'], _) => leaf.discard().is_ok(),
        ([b'p', piece @ ..], LeafState::Fresh | LeafState::Partly) => leaf.put(piece).is_ok(),
        ([b'r'], LeafState::Fresh | LeafState::Partly) => leaf.restart().is_ok(),
        ([b's'], LeafState::Fresh | LeafState::Partly) => leaf.seal(Mark::Plain).is_ok(),
        (_, _) => false,
    }
}

/// Whether each call goes as it should, well after `+` and not after `-`.
fn all_go(leaf: &mut FileLeaf, calls: &str) -> bool {
    let mut rest = calls;
    for _ in 0..calls.len() {
        let (call, more) = cut(rest, ';');
        if let [well, made @ ..] = call.as_bytes() {
            if goes_well(leaf, made) != (*well == b'+') {
                return false;
            }
        }
        rest = more;
    }
    true
}

/// What is there, the path of a leaf, the calls on it, and the path and the text of the file that
/// is there then, or `!`.
const CASES: &[&str] = &[
    // pieces follow one another, and folders are made, also that of the worktree
    "|a/b/c|+pone ;+ptwo;+s|tree/a/b/c|one two",
    // nothing is made before the first call
    "d tree|a/b||tree/a|!",
    // a seal alone leaves an empty file
    "d tree|a/b|+s|tree/a/b|",
    // a restart drops what was put
    "d tree|a|+pthe first;+r;+pother;+s|tree/a|other",
    // a put makes the file, and a discard leaves none
    "d tree|a|+pone|tree/a|one",
    "d tree|a|+pone;+d|tree/a|!",
    // a file that is already there is kept, by a put, a seal and a discard
    "d tree;f tree/a old|a|-pnew|tree/a|old",
    "d tree;f tree/a old|a|-pnew;+d|tree/a|old",
    "d tree;f tree/a old|a|-s|tree/a|old",
    // a file in the place of a folder
    "d tree;f tree/a old|a/b|-pnew|tree/a|old",
    // no link is followed, in the place of the file or of one of its folders
    "d tree;l tree/a target|a|-pnew|tree/target|!",
    "d tree;d other;l tree/a ../other|a/b|-pnew|other/b|!",
    "d tree;d other;l tree/a ../other|a/b/c|-s|other/b|!",
    // but the worktree's own folder may be a link
    "d other;l tree other|a/b|+pnew;+s|other/a/b|new",
];

/// Whether the calls on the leaf go as they should in this folder.
fn leaf_goes(rt: HostRuntime, folder: &str, path: &str, calls: &str) -> Result<bool, Fail> {
    let mut tree = FolderTree::new(rt, path_in(rt, folder, "tree")?);
    let mut leaf = tree.leaf(path)?;
    let well = all_go(&mut leaf, calls);
    tree.take_back(leaf);
    Ok(well)
}

fn is_so(rt: HostRuntime, row: &str) -> Result<bool, Fail> {
    let (things, rest) = cut(row, '|');
    let (path, rest) = cut(rest, '|');
    let (calls, rest) = cut(rest, '|');
    let (held, text) = cut(rest, '|');
    let folder = folder_with(rt, "leaf", things)?;
    let well = leaf_goes(rt, folder.as_str(), path, calls)?;
    let is_held = holds(rt, folder.as_str(), held, text)?;
    remove_dir_all(&rt, folder.as_str())?;
    Ok(well && is_held)
}

#[test]
fn a_discard_leaves_what_another_put_at_the_path(rt: HostRuntime) -> Result<(), Fail> {
    let folder = folder_with(rt, "other", "d tree")?;
    let mut tree = FolderTree::new(rt, path_in(rt, folder.as_str(), "tree")?);
    let mut leaf = tree.leaf("a")?;
    assert!(rt; goes_well(&mut leaf, b"pmine"));
    let path = path_in(rt, folder.as_str(), "tree/a")?;
    remove_file(&rt, path.as_str())?;
    std::fs::write(&rt, path.as_str(), "theirs")?;
    assert!(rt; !goes_well(&mut leaf, b"d"));
    tree.take_back(leaf);
    assert!(rt; holds(rt, folder.as_str(), "tree/a", "theirs")?);
    remove_dir_all(&rt, folder.as_str())?;
    Ok(())
}

#[test]
fn errors_are_counted_by_path(rt: HostRuntime) -> Result<(), Fail> {
    let folder = folder_with(rt, "errors", "d tree;f tree/a old")?;
    let mut tree = FolderTree::new(rt, path_in(rt, folder.as_str(), "tree")?);
    for (path, calls) in [
        ("a", "-pnew;+d"),
        ("a/b", "-pnew;+d"),
        ("c", "+s"),
        ("a/d", "-s;+d"),
    ] {
        let mut leaf = tree.leaf(path)?;
        is_right(&rt, all_go(&mut leaf, calls), path.as_bytes());
        tree.take_back(leaf);
    }
    // EEXIST for one path, and ENOTDIR for two
    match tree.errors().counts() {
        [exists, folder] => {
            assert!(rt; exists.paths == 1 && exists.error.kind() == ErrorKind::AlreadyExists);
            assert!(rt; folder.paths == 2 && folder.error.kind() == ErrorKind::NotADirectory);
        }
        _ => panic!(rt; "other errors"),
    }
    assert!(rt; tree.errors().others() == 0);
    remove_dir_all(&rt, folder.as_str())?;
    Ok(())
}

#[test]
fn leaves_make_their_files_and_no_other(rt: HostRuntime) -> Result<(), Fail> {
    for row in CASES {
        is_right(&rt, is_so(rt, row)?, row.as_bytes());
    }
    Ok(())
}
