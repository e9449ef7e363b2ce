//! What a child gives that is asked for objects ahead.
use crate::place::{folder_after, has_git, open, runs};
use crate::table::{cut, is_right};
use byte_path::ObjectId;
use edge_kit::{Blob, Repo, TakeFault};
use git_edge::{GitBlob, GitRepo};
use std::alloc::AllocError;
use std::fs::remove_dir_all;
use std::io;
use std::test::Fail;

/// Makes the objects of a row, and has each child write a line, and then do this.
const MAKE: &str =
    "new; echo ho | git hash-object -w --stdin > ../out; yes | head -c 200000 | git hash-object -w --stdin > ../out; \
    lend; cd ..; child() { fake \"case \\$* in *cat-file*) echo a >> $PWD/children\n$1\n;; esac\"; }; ";

/// What the shell does, the objects that are lent, the places of those that are taken, what comes, and how many
/// children that takes. `i` is `hi`, `o` is `ho`, `y` an object of 200,000 bytes, and `-` one that isn't there; `x`
/// is a failure.
const CASES: &[&str] = &[
    // taken as they were lent, also one twice and one that isn't there
    "child ''~ioy~012~ioy~1",
    "child ''~iio~012~iio~1",
    "child ''~i-o~012~i-o~1",
    // taken otherwise: what was asked ahead is dropped, or the child is ended if that is long
    "child ''~ioy~021~iyo~1",
    "child ''~i-o~020~ioi~1",
    "child ''~iyo~021~ioy~2",
    "child ''~ioi~01210~ioioi~1",
    // a child that has ended before it was asked, or is ended by what it was asked ahead
    "child 'read n; echo $n | git \"$@\"; exit'~ioi~012~ioi~3",
    "child 'read n; echo $n | git \"$@\"; read n; kill -9 $$'~ioi~012~ioi~3",
    // an answer that is cut short, and one of another object
    "child 'read n; echo $n | git \"$@\"; read n; printf \"$n blob 3\\nh\"; exit'~ioi~012~ixi~2",
    "child 'read n; echo $n | git \"$@\"; read m; echo $n | git \"$@\"; exit'~ioi~012~ixi~2",
    // the same where that answer is dropped
    "child 'read n; echo $n | git \"$@\"; read n; printf \"$n blob 3\\nh\"; exit'~ioi~02~ii~2",
    "child 'read n; echo $n | git \"$@\"; read m; echo $n | git \"$@\"; exit'~ioy~02~iy~2",
];

/// The SHA-1 of `blob 3`, NUL, `hi\n`, of the same with `ho\n`, and of `blob 200000`, NUL, 100,000 lines `y`.
const NAMES: [(u8, ObjectId); 3] = [
    (
        b'i',
        *b"\x45\xB9\x83\xBE\x36\xB7\x3C\x07\x88\xDC\x9C\xBC\xB7\x6C\xBB\x80\xFC\x7B\xB0\x57",
    ),
    (
        b'o',
        *b"\xAB\x4A\x98\x19\x0C\xF7\x76\xB4\x3C\xB0\xFE\x57\xCE\xF2\x31\xFB\x93\xFD\x07\xE6",
    ),
    (
        b'y',
        *b"\xCA\x68\x70\x5B\xE8\xB1\x03\x76\x95\xEA\x43\x3C\x7F\x1B\xB0\x35\x31\xF3\x65\xEC",
    ),
];

/// The name that a letter stands for.
fn name_of(letter: u8) -> ObjectId {
    for (known, name) in NAMES {
        if known == letter {
            return name;
        }
    }
    [0; 20]
}

/// The letter of what was taken.
fn letter_of(taken: &Result<Option<Vec<u8>>, TakeFault>) -> &'static str {
    match taken {
        Ok(None) => "-",
        Ok(Some(stored)) => match stored.as_slice() {
            b"blob 3\0hi\n" => "i",
            b"blob 3\0ho\n" => "o",
            long if long.len() == 200_012 && long.ends_with(b"y\ny\n") => "y",
            _ => "?",
        },
        Err(TakeFault::Failed) => "x",
        Err(_) => "?",
    }
}

/// The objects that these letters stand for.
fn lent_by(rt: HostRuntime, repo: &mut GitRepo, lent: &str) -> Result<Vec<GitBlob>, AllocError> {
    let mut blobs = Vec::new(rt.alloc());
    for letter in lent.bytes() {
        blobs.push(repo.blob(&name_of(letter))?)?;
    }
    Ok(blobs)
}

/// What comes if those in these places are taken.
fn taken_of(rt: HostRuntime, blobs: &mut [GitBlob], places: &str) -> Result<String, AllocError> {
    let mut came = String::new(rt.alloc());
    for digit in places.bytes() {
        if let Some(blob) = blobs.get_mut(usize::from(digit.wrapping_sub(b'0'))) {
            came.push_str(letter_of(&blob.take_all(1_000_000)))?;
        }
    }
    Ok(came)
}

/// What comes if these objects are lent, and then those in these places are taken.
fn comes_of(
    rt: HostRuntime,
    repo: &mut GitRepo,
    lent: &str,
    places: &str,
) -> Result<String, AllocError> {
    let mut blobs = lent_by(rt, repo, lent)?;
    taken_of(rt, blobs.as_mut_slice(), places)
}

/// What comes of the repository in the folder, whose children are ended then.
fn what_comes(
    rt: HostRuntime,
    folder: &str,
    lent: &str,
    places: &str,
) -> Result<String, AllocError> {
    let Ok(mut repo) = open(rt, folder, "-") else {
        return Ok(String::new(rt.alloc()));
    };
    let came = comes_of(rt, &mut repo, lent, places);
    repo.end();
    came
}

/// What comes of a told row (the objects that are lent, the places, what is wanted, how many children), and whether
/// there were so many children.
fn looked_at(rt: HostRuntime, folder: &str, told: &str) -> io::Result<(String, bool)> {
    let (lent, rest) = cut(told, '~');
    let (places, rest) = cut(rest, '~');
    let (_, children) = cut(rest, '~');
    let came = what_comes(rt, folder, lent, places)?;
    let counted = format!(in rt.alloc(); "test $(wc -l < children) = {children}")?;
    let are_so_many = runs(rt, folder, counted.as_str())?;
    Ok((came, are_so_many))
}

/// What is wanted of a told row.
fn wanted_of(told: &str) -> &str {
    let (_, rest) = cut(told, '~');
    let (_, rest) = cut(rest, '~');
    cut(rest, '~').0
}

#[test]
fn what_is_asked_ahead_is_no_other_object(rt: HostRuntime) -> Result<(), Fail> {
    if !has_git(rt)? {
        return Ok(());
    }
    for row in CASES {
        let (script, told) = cut(row, '~');
        let script = format!(in rt.alloc(); "{MAKE}{script}")?;
        let folder = folder_after(rt, "ahead", script.as_str())?;
        let looked = looked_at(rt, folder.as_str(), told);
        remove_dir_all(&rt, folder.as_str())?;
        let (came, are_so_many) = looked?;
        is_right(&rt, came.as_str() == wanted_of(told), row, came.as_str());
        is_right(&rt, are_so_many, row, "other children");
    }
    Ok(())
}
