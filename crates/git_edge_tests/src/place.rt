//! A folder of a test's own, and the repository in it.
use byte_path::ObjectId;
use edge_kit::{Blob, Repo, TakeFault};
use git_edge::{GitFault, GitRepo};
use std::alloc::AllocError;
use std::env::temp_dir;
use std::fs::{create_dir, remove_dir_all};
use std::process::Command;
use std::test::Fail;
use std::{io, process};

/// What a test's shell begins with. `git` and the program `git` of the folder are git without the settings of the user
/// and of the system. `new` makes a repository `repo` with the object `hi`, `lend` has it borrow its objects by a
/// quoted path, which git alone reads, and `fake` has the program do this first.
const PRELUDE: &str = r#"
set -e
unset GIT_DIR GIT_INDEX_FILE GIT_OBJECT_DIRECTORY GIT_ALTERNATE_OBJECT_DIRECTORIES GIT_WORK_TREE
export HOME="$PWD" XDG_CONFIG_HOME="$PWD/git" GIT_CONFIG_NOSYSTEM=1 GIT_ATTR_NOSYSTEM=1
export GIT_AUTHOR_NAME=a GIT_AUTHOR_EMAIL=a@b GIT_COMMITTER_NAME=a GIT_COMMITTER_EMAIL=a@b
fake() {
    {
        echo '#!/bin/sh'
        printf 'export HOME="%s" XDG_CONFIG_HOME="%s/git"\n' "$PWD" "$PWD"
        printf 'export GIT_CONFIG_NOSYSTEM=1 GIT_ATTR_NOSYSTEM=1\n%s\nexec git "$@"\n' "$1"
    } > git
    chmod +x git
}
new() { git init -q repo; cd repo; echo hi | git hash-object -w --stdin > ../hi; }
lend() {
    mv .git/objects ../lent
    mkdir .git/objects .git/objects/info .git/objects/pack
    echo "\"$PWD/../lent\"" > .git/objects/info/alternates
}
fake ''
"#;

/// Whether git says its version.
fn says_version(rt: HostRuntime, git: &mut Command) -> io::Result<bool> {
    git.arg("--version")?;
    Ok(git.output(&rt)?.status.success())
}

/// Whether git is there. Where it isn't, a test of it passes without a look.
pub fn has_git(rt: HostRuntime) -> io::Result<bool> {
    let mut git = Command::new(rt.alloc(), "git")?;
    match says_version(rt, &mut git) {
        Err(error) if error.kind() == io::ErrorKind::NotFound => Ok(false),
        said => said,
    }
}

/// Runs a text by a shell in the folder, and returns whether it ended well.
fn runs_by(rt: HostRuntime, shell: &mut Command, folder: &str, text: &str) -> io::Result<bool> {
    shell.arg("-c")?;
    shell.arg(text)?;
    shell.current_dir(folder)?;
    Ok(shell.status(&rt)?.success())
}

/// Runs a shell's text in the folder, and returns whether it ended well.
pub fn runs(rt: HostRuntime, folder: &str, text: &str) -> io::Result<bool> {
    let whole = format!(in rt.alloc(); "{PRELUDE}{text}")?;
    let mut shell = Command::new(rt.alloc(), "sh")?;
    runs_by(rt, &mut shell, folder, whole.as_str())
}

/// The path of what is in a folder.
pub fn path_in(rt: HostRuntime, folder: &str, path: &str) -> Result<String, AllocError> {
    format!(in rt.alloc(); "{folder}/{path}")
}

/// A fresh folder for the test with this name.
fn fresh_folder(rt: HostRuntime, test: &str) -> io::Result<String> {
    let base = temp_dir(&rt)?;
    let id = process::id(rt.process());
    let folder = format!(in rt.alloc(); "{}/git-edge-{test}-{id}", base.display())?;
    let _ = remove_dir_all(&rt, folder.as_str());
    create_dir(&rt, folder.as_str())?;
    Ok(folder)
}

/// A fresh folder for the test with this name, in which this shell's text was run.
pub fn folder_after(rt: HostRuntime, test: &str, text: &str) -> Result<String, Fail> {
    let folder = fresh_folder(rt, test)?;
    if !runs(rt, folder.as_str(), text)? {
        return Err(Fail::new(format_args!("the shell fails: {text}")));
    }
    Ok(folder)
}

/// The repository in the folder, asked by the folder's own program git. `-` is no revision.
pub fn open(rt: HostRuntime, folder: &str, revision: &str) -> Result<GitRepo, GitFault> {
    let program = path_in(rt, folder, "git")?;
    let git_dir = path_in(rt, folder, "repo/.git")?;
    let revision = if revision == "-" {
        None
    } else {
        Some(revision)
    };
    GitRepo::open_by(rt, program.as_str(), Some(git_dir.as_str()), revision)
}

/// The SHA-1 of `blob 3`, NUL, `hi\n`.
const HI: ObjectId =
    *b"\x45\xB9\x83\xBE\x36\xB7\x3C\x07\x88\xDC\x9C\xBC\xB7\x6C\xBB\x80\xFC\x7B\xB0\x57";

/// What is read of the object `hi`.
pub fn read_hi(repo: &mut GitRepo, limit: u64) -> Result<Option<Vec<u8>>, TakeFault> {
    let mut blob = repo.blob(&HI)?;
    let taken = blob.take_all(limit);
    repo.take_back(blob);
    taken
}
