//! A folder of a test's own, and the repository in it.
use std::env::temp_dir;
use std::fs::{create_dir, remove_dir_all};
use std::process::Command;
use std::test::Fail;
use std::{io, process};

/// What a test's shell begins with: git without the settings of the user and of the system.
///
/// `new` makes a repository `repo`, `many` commits 220 files each of which has one changed line more, `chains` commits
/// them as chains of so many deltas, `deep` fails unless the longest chain has so many, and `list` writes the names of
/// all objects to the file `names`. `hi` keeps a blob and writes its name to the file `name`, `file` goes where that is
/// a file `$f`, and `pack` packs it.
const PRELUDE: &str = r#"
set -e
unset GIT_DIR GIT_INDEX_FILE GIT_OBJECT_DIRECTORY GIT_ALTERNATE_OBJECT_DIRECTORIES GIT_WORK_TREE
export HOME="$PWD" XDG_CONFIG_HOME="$PWD/git" GIT_CONFIG_NOSYSTEM=1
export GIT_AUTHOR_NAME=a GIT_AUTHOR_EMAIL=a@b GIT_COMMITTER_NAME=a GIT_COMMITTER_EMAIL=a@b
top=$PWD
new() { git init -q repo; cd repo; git config gc.auto 0; }
list() { git cat-file --batch-all-objects --batch-check='%(objectname)' > $top/names; }
lines='for (i = 1; i <= 300; i++) print (i <= n ? "changed " : "line ") i * 7919 % 1009'
many() {
    awk 'BEGIN { for (n = 1; n <= 220; n++) { f = "f" n; '"$lines"' > f; close(f) } }'
    git add .
    git commit -qm many
    git tag -a -m tag tag
}
chains() {
    awk 'BEGIN {
        for (n = 1; n <= 220; n++) { print "blob\nmark :" n "\ndata <<."; '"$lines"'; print "." }
        print "commit refs/heads/chains\ncommitter a <a@b> 0 +0000\ndata 0"
        for (n = 1; n <= 220; n++) print "M 100644 :" n " f" n
    }' | git fast-import --quiet --depth=$1
}
deep() { test $1 = $(git verify-pack -v .git/objects/pack/*.idx | awk '/^chain/ { d = $4 } END { print d + 0 }'); }
hi() { echo hi | git hash-object -w --stdin > $top/name; }
file() { cd .git/objects/45; chmod u+w *; f=$(echo *); }
pack() {
    git pack-objects -q "$@" .git/objects/pack/p < $top/name > /dev/null
    rm -r .git/objects/45
    cd .git/objects/pack
    chmod u+w *
}
"#;

/// Whether git is there.
pub fn has_git(rt: HostRuntime) -> io::Result<bool> {
    let mut command = Command::new(rt.alloc(), "git")?;
    command.arg("--version")?;
    match command.output(&rt) {
        Ok(ran) => Ok(ran.status.success()),
        Err(error) if error.kind() == io::ErrorKind::NotFound => Ok(false),
        Err(error) => Err(error),
    }
}

/// Runs a shell's text in the folder.
pub fn run(rt: HostRuntime, folder: &str, text: &str) -> Result<(), Fail> {
    let mut shell = Command::new(rt.alloc(), "sh")?;
    shell.arg("-c")?;
    shell.arg(format!(in rt.alloc(); "{PRELUDE}{text}")?.as_str())?;
    shell.current_dir(folder)?;
    if shell.status(&rt)?.success() {
        return Ok(());
    }
    Err(Fail::new(format_args!("the shell fails: {text}")))
}

/// A fresh folder for the test with this name, in which this shell's text was run.
pub fn folder_after(rt: HostRuntime, test: &str, text: &str) -> Result<String, Fail> {
    let base = temp_dir(&rt)?;
    let id = process::id(rt.process());
    let folder = format!(in rt.alloc(); "{}/git-objects-{test}-{id}", base.display())?;
    let _ = remove_dir_all(&rt, folder.as_str());
    create_dir(&rt, folder.as_str())?;
    run(rt, folder.as_str(), text)?;
    Ok(folder)
}
