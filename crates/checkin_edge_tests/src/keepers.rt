//! Objects and an index that are kept.
use crate::place::{folder_after, has_git, path_in, runs};
use crate::table::{cut, is_right};
use checkin_edge::{FolderKeep, ObjectForm};
use checkin_paths::Keep;
use object_dir::{blob_name, spell_blob};
use std::fs::remove_dir_all;
use std::test::Fail;

/// What the shell does, the form of objects, `p` or `z`, the calls, and what the shell finds. A call is well after `+`
/// and not after `-`: `o` keeps the object of these bytes, `z` that of 200,000 zeros, and `i` an index. `$f` is the
/// file of the object of `hi`, and `$n` its name, which git gives.
const CASES: &[&str] = &[
    // an object as it is, which nobody may change
    "~p~+ohi~test $(stat -c %a $f) = 444; printf 'blob 2\\0hi' | cmp - $f",
    "~p~+ohi;+ohi~printf 'blob 2\\0hi' | cmp - $f; test $(find . -type f | wc -l) = 1",
    "mkdir objects~p~+ohi~printf 'blob 2\\0hi' | cmp - $f",
    // a file that has the object stays, and any other is replaced: other bytes, a link, an empty file
    "mkdir -p ${f%/*}; printf 'blob 2\\0hi' > $f; ln $f first~p~+ohi~test $f -ef first",
    "mkdir -p ${f%/*}; printf old > $f~p~+ohi~printf 'blob 2\\0hi' | cmp - $f",
    "mkdir -p ${f%/*}; ln -s nowhere $f~p~+ohi~test ! -L $f; printf 'blob 2\\0hi' | cmp - $f",
    "mkdir -p ${f%/*}; : > $f~p~+ohi~printf 'blob 2\\0hi' | cmp - $f",
    "mkdir -p $f~p~-ohi~rmdir $f; test $(find . -type f | wc -l) = 0",
    // a new index takes the place of the last one
    "~p~+iold;+inew~test $(cat index-checkin) = new; test $(ls | wc -l) = 1",
    "printf a > index~p~+inew~test $(cat index) = a; test $(cat index-checkin) = new",
    // what can't be kept leaves nothing
    ": > objects~p~-ohi~test ! -s objects; test $(ls | wc -l) = 1",
    "mkdir -p objects; : > ${f%/*}~p~-ohi~test $(find . -type f | wc -l) = 1",
    "mkdir index-checkin~p~-inew~rmdir index-checkin; test $(ls | wc -l) = 0",
    // git reads an object of each size
    "git init -q --bare .~z~+ohi~test $(git cat-file blob $n) = hi",
    "git init -q --bare .~z~+o~git cat-file -e $(: | git hash-object --stdin)",
    "git init -q --bare .~z~+z~head -c 200000 /dev/zero > z; git cat-file blob $(git hash-object z) | cmp - z",
    "git init -q --bare .~z~+z;+ohi~git fsck 2>&1 | grep -c dangling | grep -qx 2",
    // the object's file as git writes it stays, and a broken one is replaced: garbage, a cut stream, bytes behind it,
    // another object's stream
    "git init -q --bare .; printf hi | git hash-object -w --stdin; ln $f first~z~+ohi~test $f -ef first",
    "git init -q --bare .; mkdir -p ${f%/*}; printf old > $f~z~+ohi~git fsck && test $(git cat-file blob $n) = hi",
    "git init -q --bare .; printf hi | git hash-object -w --stdin; chmod u+w $f; truncate -s -1 $f~z~+ohi~git fsck && test $(git cat-file blob $n) = hi",
    "git init -q --bare .; printf hi | git hash-object -w --stdin; chmod u+w $f; printf x >> $f~z~+ohi~git fsck && test $(git cat-file blob $n) = hi",
    "git init -q --bare .; o=$(printf ho | git hash-object -w --stdin); mkdir -p ${f%/*}; cp objects/$(echo $o | cut -c1-2)/$(echo $o | cut -c3-) $f~z~+ohi~test $(git cat-file blob $n) = hi",
];

/// What stands before a shell's text.
const NAMES: &str =
    "n=$(printf hi | git hash-object --stdin); f=objects/$(echo $n | cut -c1-2)/$(echo $n | cut -c3-);";

/// Keeps the object of a content.
fn keep_object(rt: HostRuntime, keep: &mut FolderKeep, content: &[u8]) -> bool {
    match spell_blob(rt.alloc(), content) {
        Ok(raw) => keep.object(&blob_name(content), &raw).is_ok(),
        Err(_) => false,
    }
}

/// Makes a call, and returns whether that went well.
fn goes_well(rt: HostRuntime, keep: &mut FolderKeep, call: &[u8]) -> bool {
    match call {
        [b'o', content @ ..] => keep_object(rt, keep, content),
        [b'z'] => keep_object(rt, keep, [0u8; 200_000].as_slice()),
        [b'i', bytes @ ..] => keep.index(bytes).is_ok(),
        _ => false,
    }
}

/// Whether each call goes as it should.
fn all_go(rt: HostRuntime, keep: &mut FolderKeep, calls: &str) -> bool {
    let mut rest = calls;
    for _ in 0..calls.len() {
        let (call, more) = cut(rest, ';');
        if let [well, made @ ..] = call.as_bytes() {
            if goes_well(rt, keep, made) != (*well == b'+') {
                return false;
            }
        }
        rest = more;
    }
    true
}

/// Whether the calls on a keeper in this folder go as they should.
fn keeps(rt: HostRuntime, folder: &str, cells: &str) -> Result<bool, Fail> {
    let (form, calls) = cut(cells, '~');
    let form = if form == "z" {
        ObjectForm::Zlib
    } else {
        ObjectForm::Plain
    };
    let objects = path_in(rt, folder, "objects")?;
    let index = path_in(rt, folder, "index-checkin")?;
    let mut keep = FolderKeep::new(rt, objects, index, form);
    Ok(all_go(rt, &mut keep, calls) && keep.error().is_some() == calls.contains('-'))
}

fn is_so(rt: HostRuntime, row: &str) -> Result<bool, Fail> {
    let (script, rest) = cut(row, '~');
    let Some((cells, text)) = rest.rsplit_once('~') else {
        return Ok(false);
    };
    let script = format!(in rt.alloc(); "{NAMES} {script}")?;
    let folder = folder_after(rt, "kept", script.as_str())?;
    let well = keeps(rt, folder.as_str(), cells)?;
    let text = format!(in rt.alloc(); "{NAMES} {text}")?;
    let is_found = runs(rt, folder.as_str(), text.as_str())?;
    remove_dir_all(&rt, folder.as_str())?;
    Ok(well && is_found)
}

#[test]
fn objects_and_an_index_are_kept(rt: HostRuntime) -> Result<(), Fail> {
    if !has_git(rt)? {
        return Ok(());
    }
    for row in CASES {
        is_right(&rt, is_so(rt, row)?, row, "another thing");
    }
    Ok(())
}
