//! What is read of repositories.
use crate::place::{folder_after, has_git, run};
use git_objects::{Objects, ObjectsFault};
use sha1::Sha1;
use std::fs;
use std::fs::remove_dir_all;
use std::test::Fail;

/// A limit that nothing here is longer than.
const WIDE: u64 = 1 << 20;

/// Loose objects, at levels 0, 1 and 9.
const LOOSE: &[&str] = &[
    "new; git config core.looseCompression 0; many; list",
    "new; git config core.looseCompression 1; many; list",
    "new; git config core.looseCompression 9; many; list",
];

/// Packs, with few deltas or none, offsets of eight bytes, and two packs beside loose objects.
const PACKED: &[&str] = &[
    "new; many; git repack -qadf --depth=0; deep 0; list",
    "new; many; git repack -qadf --depth=50 --window=50; list",
    "new; many; git repack -qad; cd .git/objects/pack; chmod u+w *.idx; \
      git index-pack --index-version=2,0x10 -o $(echo *.idx) $(echo *.pack) > /dev/null; cd $top/repo; list",
    "new; many; git repack -qad; echo a > a; git add a; git commit -qm a; git repack -q; echo b > b; git add b; list",
];

/// Chains of deltas, on bases by their place and by their names.
const CHAINS: &[&str] = &[
    "new; chains 10; deep 10; list",
    "new; chains 50; deep 50; list",
    "new; chains 50; git -c repack.useDeltaBaseOffset=false repack -qad; deep 50; list",
];

/// Objects that are borrowed, by absolute and by relative paths, six folders deep.
const BORROWED: &[&str] = &[
    "new; many; git repack -qad; list; cd ..; mv repo a; git init -q repo; \
      echo $PWD/a/.git/objects > repo/.git/objects/info/alternates",
    "new; many; list; cd ..; mv repo r0; for n in 1 2 3 4 5 6; do git init -q r$n; \
      echo ../../../r$((n-1))/.git/objects > r$n/.git/objects/info/alternates; done; mv r6 repo",
];

/// The SHA-1 of these bytes in hex.
fn is_named(rt: HostRuntime, stored: &[u8], name: &str) -> Result<bool, Fail> {
    let mut hasher = Sha1::new();
    hasher.update(stored);
    let hash = hex::encode(rt.alloc(), hasher.finalize().as_slice())?;
    Ok(hash.as_str() == name)
}

/// The bytes that a name in hex stands for.
fn name_of(rt: HostRuntime, name: &str) -> Result<[u8; 20], Fail> {
    let bytes = hex::decode(rt.alloc(), name.as_bytes())?;
    match bytes.as_slice().first_chunk::<20>() {
        Some(name) => Ok(*name),
        None => Err(Fail::new(format_args!("no name: {name}"))),
    }
}

/// A word for a cause.
fn word_of_fault(fault: ObjectsFault) -> &'static str {
    match fault {
        ObjectsFault::TooLong => "long",
        ObjectsFault::Broken => "broken",
        ObjectsFault::Unread => "unread",
        ObjectsFault::Elsewhere => "elsewhere",
        ObjectsFault::NoMemory => "memory",
    }
}

/// A word for what is read of an object: `right`, `wrong` or `absent`, or the cause.
fn word_of(
    rt: HostRuntime,
    objects: &mut Objects,
    name: &str,
    limit: u64,
) -> Result<&'static str, Fail> {
    match objects.take(&name_of(rt, name)?, limit) {
        Ok(Some(stored)) => {
            let is_right = is_named(rt, stored.as_slice(), name)?;
            Ok(if is_right { "right" } else { "wrong" })
        }
        Ok(None) => Ok("absent"),
        Err(fault) => Ok(word_of_fault(fault)),
    }
}

/// The objects of the folder's repository.
fn open(rt: HostRuntime, folder: &str) -> Result<Objects, Fail> {
    let git_dir = format!(in rt.alloc(); "{folder}/repo/.git")?;
    match Objects::open(rt, git_dir.as_str()) {
        Ok(objects) => Ok(objects),
        Err(fault) => Err(Fail::new(format_args!("not opened: {fault}"))),
    }
}

/// How many of the names in the file `names` are read right, and how many there are.
fn right_in(rt: HostRuntime, folder: &str) -> Result<(u64, u64), Fail> {
    let mut objects = open(rt, folder)?;
    let path = format!(in rt.alloc(); "{folder}/names")?;
    let names = fs::read_to_string(&rt, path.as_str())?;
    let mut right = 0u64;
    let mut all = 0u64;
    for name in names.lines() {
        all = all.wrapping_add(1);
        if word_of(rt, &mut objects, name, WIDE)? == "right" {
            right = right.wrapping_add(1);
        }
    }
    Ok((right, all))
}

/// Fails unless after each of these scripts each object of the repository is read right.
fn check_right(rt: HostRuntime, test: &str, scripts: &[&str]) -> Result<(), Fail> {
    if !has_git(rt)? {
        return Ok(());
    }
    for script in scripts {
        let folder = folder_after(rt, test, script)?;
        let (right, all) = right_in(rt, folder.as_str())?;
        if all < 200 || right != all {
            return Err(Fail::new(format_args!("{right} of {all}: {script}")));
        }
        remove_dir_all(&rt, folder.as_str())?;
    }
    Ok(())
}

#[test]
fn loose_objects_are_read_right(rt: HostRuntime) -> Result<(), Fail> {
    check_right(rt, "loose", LOOSE)
}

#[test]
fn packed_objects_are_read_right(rt: HostRuntime) -> Result<(), Fail> {
    check_right(rt, "packed", PACKED)
}

#[test]
fn chains_of_deltas_are_read_right(rt: HostRuntime) -> Result<(), Fail> {
    check_right(rt, "chains", CHAINS)
}

#[test]
fn borrowed_objects_are_read_right(rt: HostRuntime) -> Result<(), Fail> {
    check_right(rt, "borrowed", BORROWED)
}

/// A script that writes the name of an object to the file `name`, a limit, and the word for what is read.
const WORDS: &[(&str, u64, &str)] = &[
    ("new; hi", 10, "right"),
    ("new; hi", 9, "long"),
    ("new; hi; rm -r .git/objects/45", 10, "absent"),
    ("new; hi; pack", 10, "right"),
    ("new; hi; pack", 9, "long"),
    // an object that is cut short, one with bytes behind it, and one that is no zlib stream
    ("new; hi; file; head -c 12 $f > c; mv c $f", 10, "broken"),
    ("new; hi; file; echo >> $f", 10, "broken"),
    ("new; hi; file; echo a > $f", 10, "broken"),
    // one that can't be read
    ("new; hi; file; rm -f $f; mkdir $f", 10, "unread"),
    // a pack and an index that are cut short, and an index that counts more names up to one byte than up to the next
    (
        "new; hi; pack; head -c 14 p*.pack > c; mv c p*.pack",
        10,
        "broken",
    ),
    (
        "new; hi; pack; head -c 1040 p*.idx > c; mv c p*.idx",
        10,
        "broken",
    ),
    (
        "new; hi; pack; printf '\\377' | dd of=$(echo p*.idx) bs=1 seek=280 conv=notrunc 2> /dev/null",
        10,
        "broken",
    ),
    // an index of version 1, and a pack of version 3
    ("new; hi; pack --index-version=1", 10, "elsewhere"),
    (
        "new; hi; pack; printf '\\003' | dd of=$(echo p*.pack) bs=1 seek=7 conv=notrunc 2> /dev/null",
        10,
        "elsewhere",
    ),
    // what a partial clone lacks, and what is borrowed by a path in quotes
    (
        "new; git config uploadpack.allowFilter true; echo hi > f; git add f; git commit -qm f; \
          git hash-object f > $top/name; cd ..; mv repo a; git clone -qn --filter=blob:none file://$PWD/a repo",
        10,
        "elsewhere",
    ),
    (
        "new; hi; rm -r .git/objects/45; echo '\"/a\"' > .git/objects/info/alternates",
        10,
        "elsewhere",
    ),
    // one folder too deep
    (
        "new; hi; cd ..; mv repo r0; for n in 1 2 3 4 5 6 7; do git init -q r$n; \
          echo $PWD/r$((n-1))/.git/objects > r$n/.git/objects/info/alternates; done; mv r7 repo",
        10,
        "absent",
    ),
];

/// The word for what is read of the object whose name is in the file `name`.
fn word_in(rt: HostRuntime, folder: &str, limit: u64) -> Result<&'static str, Fail> {
    let path = format!(in rt.alloc(); "{folder}/name")?;
    let name = fs::read_to_string(&rt, path.as_str())?;
    let mut objects = open(rt, folder)?;
    word_of(rt, &mut objects, name.trim_end(), limit)
}

#[test]
fn each_cause_is_told(rt: HostRuntime) -> Result<(), Fail> {
    if !has_git(rt)? {
        return Ok(());
    }
    for (script, limit, want) in WORDS {
        let folder = folder_after(rt, "words", script)?;
        assert_eq!(rt; word_in(rt, folder.as_str(), *limit)?, *want, "{script}");
        remove_dir_all(&rt, folder.as_str())?;
    }
    Ok(())
}
