//! The files, programs and links that leaves make as git does.
use crate::place::{folder_after, path_in, runs};
use crate::table::{cut, is_right};
use edge_kit::{Leaf, LeafState, Mark, Worktree};
use git_worktree::{GitLeaf, GitTree, Keeps};
use std::fs::{remove_dir_all, remove_file};
use std::sync::Arc;
use std::sync::atomic::AtomicBool;
use std::test::Fail;

/// A piece that is longer than a link's text.
const LONG: [u8; 5000] = [b'z'; 5000];

fn seal(leaf: &mut GitLeaf, mark: Mark) -> bool {
    match leaf.state {
        LeafState::Fresh | LeafState::Partly => leaf.seal(mark).is_ok(),
        _ => false,
    }
}

fn put(leaf: &mut GitLeaf, piece: &[u8]) -> bool {
    match leaf.state {
        LeafState::Fresh | LeafState::Partly => leaf.put(piece).is_ok(),
        _ => false,
    }
}

fn restart(leaf: &mut GitLeaf) -> bool {
    match leaf.state {
        LeafState::Fresh | LeafState::Partly => leaf.restart().is_ok(),
        _ => false,
    }
}

fn discard(leaf: &mut GitLeaf) -> bool {
    match leaf.state {
        LeafState::Sealed(_) => false,
        _ => leaf.discard().is_ok(),
    }
}

/// Calls the leaf, and returns whether that went well: `p` puts these bytes, `z` a long piece, `r` restarts, `d`
/// discards, and `s`, `x` and `l` seal a file, a program and a link. `m` removes its file, as a driver may.
fn goes_well(rt: HostRuntime, leaf: &mut GitLeaf, call: &[u8]) -> bool {
    match call {
        [b'p', piece @ ..] => put(leaf, piece),
        [b'z'] => put(leaf, LONG.as_slice()),
        [b'r'] => restart(leaf),
        [b'd'] => discard(leaf),
        [b's'] => seal(leaf, Mark::Plain),
        [b'x'] => seal(leaf, Mark::Executable),
        [b'l'] => seal(leaf, Mark::LinkText),
        [b'm'] => remove_file(&rt, leaf.place.full()).is_ok(),
        _ => false,
    }
}

/// Whether each call goes as it should, well after `+` and not after `-`.
fn all_go(rt: HostRuntime, leaf: &mut GitLeaf, calls: &str) -> bool {
    let mut rest = calls;
    for _ in 0..calls.len() {
        let (call, more) = cut(rest, ';');
        if let [well, made @ ..] = call.as_bytes() {
            if goes_well(rt, leaf, made) != (*well == b'+') {
                return false;
            }
        }
        rest = more;
    }
    true
}

/// What the shell does, `l` if links are kept or `-`, with `d` if a driver has run and then the seal that a leaf is
/// made for, its path, the calls on it, and what a shell finds. A file that the shell makes has the mode of a plain
/// file by its umask, and a folder that of a program.
const CASES: &[&str] = &[
    "|ls|a/b|+px;+s|test -f tree/a/b; test $(stat -c %a tree/a/b) = $(stat -c %a plain)",
    "|lx|a/b|+px;+x|test $(cat tree/a/b) = x; test $(stat -c %a tree/a/b) = $(stat -c %a made)",
    "|lx|a|+x|test ! -s tree/a; test $(stat -c %a tree/a) = $(stat -c %a made)",
    // a long content
    "|ls|a|+z;+s|test $(wc -c < tree/a) = 5000; test $(stat -c %a tree/a) = $(stat -c %a plain)",
    "|lx|a|+z;+px;+x|test $(wc -c < tree/a) = 5001; test $(stat -c %a tree/a) = $(stat -c %a made)",
    "|ls|a|+z;+r;+py;+s|test $(cat tree/a) = y; test $(stat -c %a tree/a) = $(stat -c %a plain)",
    "|ls|a|+z;+d|test ! -e tree/a",
    // a file that a driver removed, or replaced, isn't sealed, and what has its name now stays
    "|lds|a|+z;+m;-s|test ! -e tree/a",
    "|lds|a|+z;+px;+s|test $(wc -c < tree/a) = 5001",
    // a link is made by its seal, and leads anywhere
    "|ll|a/b|+p../;+pc;+l|test $(readlink tree/a/b) = ../c",
    "|ll|a|+pb|test ! -e tree",
    "|ll|a|+pc;+r;+pb;+l|test $(readlink tree/a) = b",
    "|-l|a|+pb;+l|test ! -L tree/a; test $(cat tree/a) = b",
    // no text, and one that is too long for a link
    "|ll|a|-l;+d|test ! -e tree/a",
    "|ll|a|-z;+d|test ! -e tree/a",
    // what is there stays, and no link is followed
    "mkdir tree; printf old > tree/a|ll|a|+pb;-l;+d|test $(cat tree/a) = old",
    "mkdir tree; ln -s b tree/a|ls|a|-px;+d|test ! -e tree/b",
    "mkdir tree c; ln -s ../c tree/a|ll|a/b|+px;-l;+d|test ! -e c/b; test ! -L c/b",
    // another mark than the one that it was made for
    "|ls|a|+pb;-x;+d|test ! -e tree/a",
];

/// The mark whose letter stands last.
fn mark_of(kept: &str) -> Mark {
    match kept.as_bytes() {
        [.., b'x'] => Mark::Executable,
        [.., b'l'] => Mark::LinkText,
        _ => Mark::Plain,
    }
}

/// Whether the calls on the leaf go as they should in this folder.
fn leaf_goes(rt: HostRuntime, folder: &str, rest: &str) -> Result<bool, Fail> {
    let (kept, rest) = cut(rest, '|');
    let (path, calls) = cut(rest, '|');
    let keeps = Keeps {
        links: kept.starts_with('l'),
    };
    let driven = Arc::new(rt.alloc(), AtomicBool::new(kept.contains('d')))?;
    let mut tree = GitTree::new(rt, path_in(rt, folder, "tree")?, keeps, driven);
    let mut leaf = tree.leaf_for(path, mark_of(kept))?;
    let well = all_go(rt, &mut leaf, calls);
    tree.take_back(leaf);
    Ok(well)
}

fn is_so(rt: HostRuntime, row: &str) -> Result<bool, Fail> {
    let (things, rest) = cut(row, '|');
    let Some((calls, text)) = rest.rsplit_once('|') else {
        return Ok(false);
    };
    let folder = folder_after(rt, "made", things)?;
    let well = leaf_goes(rt, folder.as_str(), calls)?;
    let text = format!(in rt.alloc(); "mkdir made; : > plain; {text}")?;
    let is_found = runs(rt, folder.as_str(), text.as_str())?;
    remove_dir_all(&rt, folder.as_str())?;
    Ok(well && is_found)
}

#[test]
fn leaves_make_files_programs_and_links(rt: HostRuntime) -> Result<(), Fail> {
    for row in CASES {
        is_right(&rt, is_so(rt, row)?, row, "another thing");
    }
    Ok(())
}
