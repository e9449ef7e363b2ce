// Books that are told of: small ones with their histories, and a large one with its time.
ghost use Rattle.std.specs.Prelude.{◌≡◌, IfOk};
ghost use Rattle.convert_plan.specs.Card.{IsNewCard};
ghost use Rattle.checkout_book.specs.Sights.{sight, seen};

use crate::cards::new_card;
use crate::lists::both;
use crate::runs::{by_all, by_one_worker};
use byte_path::ObjectId;
use checkout_book::ended::Ended;
use checkout_core::Verdict;
use convert_plan::Card;
use edge_kit::{Blob, Leaf, MemoryBlob, MemoryLeaf, MemoryRepo, MemoryTree};
use std::alloc::{AllocError, Global};
use std::io;
use std::io::Print;
use std::rt::Clock;
use std::sync::Wait;
use std::time::Instant;

/// The name of the object with the content `hello` and a line feed.
const HELLO: ObjectId =
    *b"\xce\x01\x36\x25\x03\x0b\xa8\xdb\xa9\x06\xf7\x56\x96\x7f\x9e\x9c\xa3\x94\x46\x4a";

/// The name of the object with the content `hi` and a line feed.
const HI: ObjectId =
    *b"\x45\xb9\x83\xbe\x36\xb7\x3c\x07\x88\xdc\x9c\xbc\xb7\x6c\xbb\x80\xfc\x7b\xb0\x57";

/// An object's name, and its raw bytes.
fn object(alloc: Global, name: &ObjectId, raw: &[u8]) -> Result<(ObjectId, Vec<u8>), AllocError> {
    let stored = Vec::from_slice(alloc, raw)?;
    Ok((*name, stored))
}

/// A repository in memory with the objects `HELLO` and `HI`.
fn repository(alloc: Global) -> Result<MemoryRepo, AllocError> {
    let hello = object(alloc, &HELLO, b"blob 6\0hello\n")?;
    let hi = object(alloc, &HI, b"blob 3\0hi\n")?;
    let objects = both(alloc, hello, hi)?;
    Ok(MemoryRepo::new(alloc, None, None, None, objects, Vec::new(alloc)))
}

/// That repository, and an empty worktree.
fn outside(alloc: Global) -> Result<(MemoryRepo, MemoryTree), AllocError> {
    let repo = repository(alloc)?;
    let tree = MemoryTree::new(alloc, true, Vec::new(alloc), false);
    Ok((repo, tree))
}

/// New cards of path 0 and of path 1, and the second has this object.
fn two_cards(
    alloc: Global,
    object: &ObjectId,
) -> Result<(Card<MemoryBlob, MemoryLeaf>, Card<MemoryBlob, MemoryLeaf>), AllocError>
    ensures first { IfOk result (λ r. r.0.path ≡ 0) }
    ensures second { IfOk result (λ r. r.1.path ≡ 1) }
    ensures first_new { IfOk result (λ r. IsNewCard (seen
        (sight ⟦<MemoryBlob as Blob>⟧.told ⟦<MemoryBlob as Blob>⟧.seen ⟦<MemoryLeaf as Leaf>⟧.seen) r.0)) }
    ensures second_new { IfOk result (λ r. IsNewCard (seen
        (sight ⟦<MemoryBlob as Blob>⟧.told ⟦<MemoryBlob as Blob>⟧.seen ⟦<MemoryLeaf as Leaf>⟧.seen) r.1)) }
{
    let (mut repo, mut tree) = outside(alloc)?;
    let first = new_card(alloc, &mut repo, &mut tree, 0, &HELLO)?;
    let second = new_card(alloc, &mut repo, &mut tree, 1, object)?;
    Ok((first, second))
}

/// What a book with so many cards is after one worker closed them all.
fn closed_by_one<H: Print + Wait>(
    rt: &H,
    alloc: Global,
    cards: u32,
) -> Result<Ended<MemoryBlob, MemoryLeaf>, AllocError> {
    let (mut repo, mut tree) = outside(alloc)?;
    by_one_worker(rt, alloc, &mut repo, &mut tree, cards)
}

/// What a path came to.
fn word_of(verdict: Option<Verdict>) -> &'static str {
    let Some(verdict) = verdict else {
        return "open";
    };
    match verdict {
        Verdict::Written { .. } => "written",
        Verdict::Unfiltered { .. } => "unfiltered",
        _ => "without its file",
    }
}

/// The history and the verdicts of a book, each as a line.
fn tell<R: Print>(rt: &R, ended: &Ended<MemoryBlob, MemoryLeaf>, paths: u32) -> io::Result<()> {
    for event in ended.history() {
        println!(rt; "{event:?}")?;
    }
    for path in 0..paths {
        let word = word_of(ended.verdict(path));
        println!(rt; "path {path}: {word}")?;
    }
    Ok(())
}

/// Tells of a book with so many cards and one worker.
fn tell_worker<R: Print + Wait + AllocGlobal>(rt: &R, cards: u32) -> io::Result<()> {
    println!(rt; "one worker, cards: {cards}")?;
    let ended = closed_by_one(rt, rt.alloc(), cards)?;
    tell(rt, &ended, cards)
}

/// Tells of a book with a worker and the desk of a driver that can't be started, of which each claims so many cards in
/// a turn, and the caller so many of those that are left. The size of each object is told in the order of the parts.
fn tell_pair<R: Print + Wait + AllocGlobal>(
    rt: &R,
    object: &ObjectId,
    claims: u32,
    left: u32,
) -> io::Result<()> {
    let (free, filtered) = two_cards(rt.alloc(), object)?;
    let Some(ended) = by_all(rt, true, rt.alloc(), free, filtered, claims, left)? else {
        println!(rt; "the object could not be read")?;
        return Ok(());
    };
    tell(rt, &ended, 2)?;
    for part in ended.into_parts() {
        tell_part(rt, part)?;
    }
    Ok(())
}

/// Tells the size of a part's object, if it is there.
fn tell_part<R: Print>(rt: &R, part: (MemoryBlob, MemoryLeaf)) -> io::Result<()> {
    if let Some(size) = size_of(part) {
        println!(rt; "parts with an object of {size} bytes")?;
    }
    Ok(())
}

/// How many bytes a part's object has, if it is there.
fn size_of(part: (MemoryBlob, MemoryLeaf)) -> Option<usize> {
    let (mut blob, _leaf) = part;
    match blob.take_all(100) {
        Ok(Some(stored)) => Some(stored.len()),
        _ => None,
    }
}

/// How many events the history of a book has.
fn count_events(ended: Ended<MemoryBlob, MemoryLeaf>) -> usize {
    ended.history().len()
}

/// How many events a book with so many cards has, and the microseconds from its beginning to its end.
fn measured<R: Clock + Print + Wait + AllocGlobal>(
    rt: &R,
    cards: u32,
) -> io::Result<(usize, u128)> {
    let begun = Instant::now(rt)?;
    let ended = closed_by_one(rt, rt.alloc(), cards)?;
    let took = begun.elapsed(rt);
    let events = count_events(ended);
    Ok((events, took?.as_micros()))
}

/// Tells how long it takes to make a book with so many cards, and to close them.
pub fn tell_large<R: Clock + Print + Wait + AllocGlobal>(rt: &R, cards: u32) -> io::Result<()> {
    let (events, micros) = measured(rt, cards)?;
    println!(rt; "{cards} cards: {events} events, {micros} microseconds")?;
    Ok(())
}

/// Tells of four small books.
pub fn tell_small<R: Print + Wait + AllocGlobal>(rt: &R) -> io::Result<()> {
    for cards in [1, 3] {
        tell_worker(rt, cards)?;
    }
    println!(rt; "a worker and a desk")?;
    tell_pair(rt, &HELLO, 3, 0)?;
    println!(rt; "a desk, and then the caller")?;
    tell_pair(rt, &HI, 0, 2)
}
