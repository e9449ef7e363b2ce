//! The index of a repository, and what is said of one.
use crate::place::{folder_after, has_git, open, read_hi, runs};
use crate::table::{cut, is_right};
use byte_path::ObjectId;
use edge_kit::{Blob, Repo};
use git_edge::GitRepo;
use git_index::{Entry, read_index};
use std::alloc::{AllocError, Global};
use std::fs::remove_dir_all;
use std::io;
use std::test::Fail;

/// What the shell does, a revision, and the first words of the refusal.
const REFUSED: &[&str] = &[
    "mkdir repo~-~not a git repository",
    "git init -q --object-format=sha256 repo~-~object names are by sha256, and only names by SHA-1 are read",
    "new; echo '[' >> .git/config~-~bad config line",
    "new~v9~'v9' names no commit, tag or tree",
    "new~--all~'--all' names no commit, tag or tree",
    // a git that fails at a revision, and one that doesn't know what it is asked, and so says it again
    // (git-rev-parse(1))
    "new; cd ..; fake 'case $* in *--verify*) echo fatal: it fails >&2; exit 128;; esac'~HEAD~it fails",
    "new; cd ..; fake 'case $* in *--verify*) kill -9 $$;; esac'~HEAD~git names no tree",
    "new; cd ..; fake 'case $* in *path-format*) \
      printf -- \"--path-format=absolute\\n/a\\nb\\nc\\nd\\nsha1\\n\"; exit;; esac'~-~\
      git is too old: it has to be of version 2.31 or later",
    "new; rm ../git~-~git can't be run: No such file or directory",
];

/// What is said where the repository is refused.
fn refusal_of(rt: HostRuntime, folder: &str, revision: &str) -> Result<String, AllocError> {
    match open(rt, folder, revision) {
        Ok(_) => Ok(String::new(rt.alloc())),
        Err(fault) => format!(in rt.alloc(); "{fault}"),
    }
}

#[test]
fn what_git_cannot_give_is_refused_in_words(rt: HostRuntime) -> Result<(), Fail> {
    if !has_git(rt)? {
        return Ok(());
    }
    for row in REFUSED {
        let (script, rest) = cut(row, '~');
        let (revision, words) = cut(rest, '~');
        let folder = folder_after(rt, "refused", script)?;
        let said = refusal_of(rt, folder.as_str(), revision);
        remove_dir_all(&rt, folder.as_str())?;
        let said = said?;
        is_right(&rt, said.as_str().starts_with(words), row, said.as_str());
    }
    Ok(())
}

/// What the shell does, a revision, and the paths of the index, a `*` behind one that is marked skip-worktree.
const INDEXES: &[&str] = &[
    "new~-~!",
    "new; mkdir d; echo a > d/a; echo b > b; git add .~-~b d/a ",
    // of version 4, split, and with folders among its entries
    "new; mkdir d; echo a > d/a; echo b > d/b; git add .; git update-index --index-version 4~-~d/a d/b ",
    "new; echo a > a; git add .; git update-index --split-index; echo b > b; git add b~-~a b ",
    "new; mkdir d; echo a > d/a; echo b > b; git add .; git commit -qm b; \
      git sparse-checkout set --cone --sparse-index~-~b d/a* ",
    "new; echo a > a; git add .; git commit -qm a; git tag -am v v; git rm -q a~v~a ",
    "new; echo a > a; git add .; git commit -qm a; git rm -q a~HEAD^{tree}~a ",
];

/// The paths of these entries.
fn paths_in(alloc: Global, entries: &[Entry]) -> Result<String, AllocError> {
    let mut paths = String::new(alloc);
    for entry in entries {
        paths.push_str(str::from_utf8(entry.path.as_slice()).unwrap_or("?"))?;
        paths.push_str(if entry.sparse { "* " } else { " " })?;
    }
    Ok(paths)
}

/// The paths of an index.
fn paths_told(alloc: Global, bytes: &[u8]) -> Result<String, AllocError> {
    match read_index(alloc, bytes) {
        Ok(index) => paths_in(alloc, index.entries()),
        Err(_) => Ok(String::new(alloc)),
    }
}

/// The paths of the repository's index, or `!` if there is none.
fn paths_from(rt: HostRuntime, repo: &mut GitRepo) -> Result<String, AllocError> {
    match repo.index_bytes(1_048_576) {
        Ok(Some(bytes)) => paths_told(rt.alloc(), bytes.as_slice()),
        Ok(None) => String::from_str(rt.alloc(), "!"),
        Err(_) => Ok(String::new(rt.alloc())),
    }
}

/// The paths of the index of the repository in the folder.
fn paths_of(rt: HostRuntime, folder: &str, revision: &str) -> Result<String, AllocError> {
    match open(rt, folder, revision) {
        Ok(mut repo) => paths_from(rt, &mut repo),
        Err(_) => Ok(String::new(rt.alloc())),
    }
}

#[test]
fn indexes_are_whole_however_git_keeps_them(rt: HostRuntime) -> Result<(), Fail> {
    if !has_git(rt)? {
        return Ok(());
    }
    for row in INDEXES {
        let (script, rest) = cut(row, '~');
        let (revision, want) = cut(rest, '~');
        let folder = folder_after(rt, "index", script)?;
        let paths = paths_of(rt, folder.as_str(), revision);
        remove_dir_all(&rt, folder.as_str())?;
        let paths = paths?;
        is_right(&rt, paths.as_str() == want, row, paths.as_str());
    }
    Ok(())
}

/// What the shell does, and how the first note begins on what is said of the object `hi` and of the index.
const NOTES: &[&str] = &[
    "new~",
    "new; git replace $(cat ../hi) $(echo ho | git hash-object -w --stdin)~\
      object 45b983be36b73c0788dc9cbcb76cbb80fc7bb057 is replaced (git replace)",
    // a partial clone is one whose remote is said to be a promisor, or has a filter, whatever is said behind
    "git init -q repo; git -C repo config remote.a.promisor false~",
    "git init -q repo; git -C repo config remote.a.promisor true; git -C repo config --add remote.a.promisor false~\
      this partial clone lacks 1 object. To fetch them: ",
    "git init -q repo; git -C repo config remote.a.partialCloneFilter blob:none~\
      this partial clone lacks 1 object. To fetch them: ",
    "git init -q repo; git -C repo config extensions.partialClone a~\
      this partial clone lacks 1 object. To fetch them: ",
    "new; printf '100644 %s 1\\td/.gitattributes\\n100644 %s 2\\td/.gitattributes\\n' $(cat ../hi) $(cat ../hi) | \
      git update-index --index-info~d/.gitattributes is unmerged",
];

/// The first note on a repository once its index and the object `hi` were read.
fn note_from(rt: HostRuntime, repo: &mut GitRepo) -> Result<String, AllocError> {
    let _ = repo.index_bytes(1_048_576);
    let _ = read_hi(repo, 99);
    match repo.notes()?.first() {
        Some(note) => note.clone(),
        None => Ok(String::new(rt.alloc())),
    }
}

/// The first note on the repository in the folder.
fn first_note(rt: HostRuntime, folder: &str) -> Result<String, AllocError> {
    match open(rt, folder, "-") {
        Ok(mut repo) => note_from(rt, &mut repo),
        Err(_) => String::from_str(rt.alloc(), "no repository"),
    }
}

#[test]
fn notes_name_what_git_would_give_otherwise(rt: HostRuntime) -> Result<(), Fail> {
    if !has_git(rt)? {
        return Ok(());
    }
    for row in NOTES {
        let (script, want) = cut(row, '~');
        let folder = folder_after(rt, "notes", script)?;
        let note = first_note(rt, folder.as_str());
        remove_dir_all(&rt, folder.as_str())?;
        let note = note?;
        let is_so = note.as_str().starts_with(want) && note.is_empty() == want.is_empty();
        is_right(&rt, is_so, row, note.as_str());
    }
    Ok(())
}

/// Makes a partial clone that lacks thirty objects, of a remote with a name that has to be quoted for a shell.
const PARTIAL: &str =
    "new; git config uploadpack.allowFilter true; for n in $(seq 30); do echo $n > $n; done; \
    git add .; git commit -qm a; cd ..; mv repo a; git clone -qn -o \"it's\" --filter=blob:none file://$PWD/a repo; \
    git -C repo read-tree HEAD";

/// Whether the object with this name is there.
fn is_there(repo: &mut GitRepo, name: &ObjectId) -> io::Result<bool> {
    let mut blob = repo.blob(name)?;
    let taken = blob.take_all(99);
    repo.take_back(blob);
    Ok(matches!(taken, Ok(Some(_))))
}

/// How many objects of these entries are there. Each is read twice.
fn count_of(repo: &mut GitRepo, entries: &[Entry]) -> io::Result<usize> {
    let mut count = 0usize;
    for entry in entries {
        let was_there = is_there(repo, &entry.name)?;
        if is_there(repo, &entry.name)? && was_there {
            count = count.saturating_add(1);
        }
    }
    Ok(count)
}

/// How many objects of the index are there.
fn count_there(rt: HostRuntime, repo: &mut GitRepo) -> io::Result<usize> {
    let Ok(Some(bytes)) = repo.index_bytes(1_048_576) else {
        return Ok(0);
    };
    match read_index(rt.alloc(), bytes.as_slice()) {
        Ok(index) => count_of(repo, index.entries()),
        Err(_) => Ok(0),
    }
}

/// Whether the first note says what is lacking, and its command ends well.
fn runs_note(rt: HostRuntime, folder: &str, repo: &mut GitRepo) -> io::Result<bool> {
    let notes = repo.notes()?;
    let (words, command) = cut(notes.first().map_or("", |note| note.as_str()), ':');
    let is_said = words == "this partial clone lacks 30 objects. To fetch them";
    Ok(is_said && runs(rt, folder, command)?)
}

/// Whether no object is there before the note's command, and each after it.
fn fetches_all(rt: HostRuntime, folder: &str, repo: &mut GitRepo) -> io::Result<bool> {
    let before = count_there(rt, repo)?;
    let is_run = runs_note(rt, folder, repo)?;
    let after = count_there(rt, repo)?;
    Ok(is_run && before == 0 && after == 30)
}

/// Whether the note on the repository in the folder has the command that fetches what is lacking.
fn is_fetched(rt: HostRuntime, folder: &str, revision: &str) -> io::Result<bool> {
    match open(rt, folder, revision) {
        Ok(mut repo) => fetches_all(rt, folder, &mut repo),
        Err(_) => Ok(false),
    }
}

#[test]
fn a_note_has_the_command_that_fetches_what_a_partial_clone_lacks(
    rt: HostRuntime,
) -> Result<(), Fail> {
    if !has_git(rt)? {
        return Ok(());
    }
    for revision in ["-", "HEAD"] {
        let folder = folder_after(rt, "partial", PARTIAL)?;
        let is_so = is_fetched(rt, folder.as_str(), revision);
        remove_dir_all(&rt, folder.as_str())?;
        is_right(&rt, is_so?, revision, "it isn't fetched");
    }
    Ok(())
}
