//! Which folders are an empty worktree.
use crate::place::{folder_with, path_in};
use crate::table::{cut, is_right};
use edge_adapters::FolderTree;
use edge_kit::Worktree;
use std::fs::remove_dir_all;
use std::test::Fail;

/// What is there, and whether the folder `tree` is empty, `+` or `-`, or can't tell, `!`.
const CASES: &[&str] = &[
    "|+",
    "d tree|+",
    "d tree;d tree/.git|+",
    "d tree;f tree/a |-",
    // whichever entry comes first
    "d tree;d tree/.git;f tree/a |-",
    "d tree;f tree/a ;d tree/.git|-",
    "f tree |!",
    // a link to a folder is followed
    "d other;l tree other|+",
    "d other;f other/a ;l tree other|-",
];

fn is_so(rt: HostRuntime, row: &str) -> Result<bool, Fail> {
    let (things, want) = cut(row, '|');
    let folder = folder_with(rt, "tree", things)?;
    let mut tree = FolderTree::new(rt, path_in(rt, folder.as_str(), "tree")?);
    let told = match tree.is_empty() {
        Ok(true) => "+",
        Ok(false) => "-",
        Err(_) => "!",
    };
    remove_dir_all(&rt, folder.as_str())?;
    Ok(told == want)
}

#[test]
fn worktrees_are_empty_but_for_git(rt: HostRuntime) -> Result<(), Fail> {
    for row in CASES {
        is_right(&rt, is_so(rt, row)?, row.as_bytes());
    }
    Ok(())
}
