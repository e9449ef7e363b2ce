//! What is read of a repository through git.
use crate::place::{folder_after, has_git, open, read_hi};
use crate::table::{cut, is_right};
use edge_kit::{Repo, TakeFault};
use git_edge::GitRepo;
use std::fs::remove_dir_all;
use std::test::Fail;

/// What the shell does, the letter of what is read, a limit of one character from `0` on, and what is read.
const CASES: &[&str] = &[
    // an object, loose, packed and in another repository
    "new~o:=blob 3\0hi\n",
    "new; git pack-objects -q .git/objects/pack/p < ../hi; rm -r .git/objects/45~o:=blob 3\0hi\n",
    "new; cd ..; mv repo a; git init -q repo; echo \"$PWD/a/.git/objects\" > repo/.git/objects/info/alternates~o:=blob 3\0hi\n",
    "new; lend~o:=blob 3\0hi\n",
    "new~o9l",
    "new; lend~o9l",
    // where the files give it git isn't asked, and a broken file is a failure
    "new; cd ..; fake 'case $* in *cat-file*) kill -9 $$;; esac'~o:=blob 3\0hi\n",
    "new; cd .git/objects/45; f=$(ls); head -c 9 $f > new; mv -f new $f~o:x",
    "git init -q repo~o:.",
    // one that is replaced is given as it is
    "new; git replace $(cat ../hi) $(echo ho | git hash-object -w --stdin)~o:=blob 3\0hi\n",
    // a child that is killed, and answers that are cut short, too long, of another object, or none
    "new; lend; cd ..; fake 'case $* in *cat-file*) kill -9 $$;; esac'~o:x",
    "new; lend; cd ..; fake 'case $* in *cat-file*) read n; printf \"$n blob 3\\nhi\"; exit;; esac'~o:x",
    "new; lend; cd ..; fake 'case $* in *cat-file*) read n; printf \"$n blob 3\\nhi\\n more\\n\"; exit;; esac'~o:x",
    "new; lend; cd ..; fake 'case $* in *cat-file*) read n; printf \"$n blob 99999\\nhi\\n\\n\"; exit;; esac'~o:l",
    "new; lend; cd ..; fake 'case $* in *cat-file*) read n; printf \"0$n blob 3\\nhi\\n\\n\"; exit;; esac'~o:x",
    "new; lend; cd ..; fake 'case $* in *cat-file*) read n; printf \"$n blob\\nhi\\n\\n\"; exit;; esac'~o:x",
    "new; lend; cd ..; fake 'case $* in *cat-file*) exit;; esac'~o:x",
    // what isn't there in a partial clone is not fetched
    "new; git config uploadpack.allowFilter true; echo hi > f; git add f; git commit -qm f; cd ..; mv repo a; \
      git clone -qn --filter=blob:none file://$PWD/a repo~o:.",
    // the settings that count, from wherever they are
    "new; git config filter.a.process 'x \"y'; git config core.bare false; echo '[core] eol = lf' > ../.gitconfig~\
      cz=[core]\neol = \"lf\"\n[filter \"a\"]\nprocess = \"x \\\"y\"\n",
    // the repository's own attributes, also where a linked worktree is asked, and those of the user
    "new; echo '* text' > .git/info/attributes~a:=* text\n",
    "new; git commit -q --allow-empty -m e; echo '* text' > .git/info/attributes; git worktree add -q ../w; cd ..; \
      mv repo b; git -C b worktree repair ../w 2> err; mv w repo~a:=* text\n",
    "new; printf '\\357\\273\\277* text\\n' > ../a; git config core.attributesFile $PWD/../a~b:=* text\n",
    "new~b:.",
    "new~a:.",
];

/// What a letter stands for: `c` the configuration, `a` the attributes, `b` those of the user and the system, and else
/// the object `hi`.
fn read_part(repo: &mut GitRepo, part: u8, limit: u64) -> Result<Option<Vec<u8>>, TakeFault> {
    match part {
        b'c' => repo.config_bytes(limit),
        b'a' => repo.info_attributes(limit),
        b'b' => repo.base_attributes(limit),
        _ => read_hi(repo, limit),
    }
}

/// Whether a read gives `=` and these bytes, `.` nothing, `l` more than its limit, or `x` a failure.
fn is_read(taken: &Result<Option<Vec<u8>>, TakeFault>, want: &[u8]) -> bool {
    match (taken, want) {
        (Ok(Some(bytes)), [b'=', wanted @ ..]) => bytes.as_slice() == wanted,
        (Ok(None), [b'.']) => true,
        (Err(TakeFault::TooLong), [b'l']) => true,
        (Err(TakeFault::Failed), [b'x']) => true,
        _ => false,
    }
}

/// Whether the folder's repository gives this: a letter, a limit of one character from `0` on, and what is read.
fn gives(rt: HostRuntime, folder: &str, cells: &str) -> bool {
    let ([part, limit, want @ ..], Ok(mut repo)) = (cells.as_bytes(), open(rt, folder, "-")) else {
        return false;
    };
    let limit = u64::from(limit.wrapping_sub(b'0'));
    is_read(&read_part(&mut repo, *part, limit), want)
}

#[test]
fn parts_of_a_repository_are_read_through_git(rt: HostRuntime) -> Result<(), Fail> {
    if !has_git(rt)? {
        return Ok(());
    }
    for row in CASES {
        let (script, cells) = cut(row, '~');
        let folder = folder_after(rt, "parts", script)?;
        is_right(&rt, gives(rt, folder.as_str(), cells), row, "other bytes");
        remove_dir_all(&rt, folder.as_str())?;
    }
    Ok(())
}
