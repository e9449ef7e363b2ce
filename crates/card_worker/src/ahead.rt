//! The objects of the cards that a worker has in hand: their SHA-1 are found side by side, and the next ones are read
//! meanwhile.
ghost use Rattle.std.specs.Prelude.{◌≡◌, ◌≤◌, length, map, take, option_to_list};
ghost use Rattle.sha1.specs.Sha1.{sha1};
ghost use Rattle.checkout_book.specs.Sights.{sight};
ghost use Rattle.card_worker.specs.Holding.{AreSame, AreSameSlots, stored_in_slot};

use crate::few::{Few, ROOM};
use crate::held::{Held, keep_known, read_held};
use byte_path::ObjectId;
use edge_kit::{Blob, Leaf};
use object_dir::Taken;
use sha1_lanes::digest_all;
use std::thread::{Threads, join};

/// From so many stored bytes on it is worth a thread to read ahead while their SHA-1 are found.
const MUCH: usize = 256 << 10;

/// From so many stored bytes on no more cards are claimed and nothing is read ahead, so that a worker holds no second
/// large content.
const TOO_MUCH: usize = 8 << 20;

/// How many SHA-1 are found at once.
const LANES: usize = 4;

/// From so many cards on it shows little that the SHA-1 of the last ones aren't found at once.
const MANY: usize = 8;

/// How many stored bytes were taken of the objects of several cards, and of the one that gave most.
#[derive(Clone, Copy)]
struct Bytes {
    all: usize,
    most: usize,
}

/// The stored bytes that were taken of the object of a card, if there is one.
fn stored_of<B: Blob, L: Leaf>(slot: &Option<Held<B, L>>) -> &[u8]
    ensures { result.now ≡ stored_in_slot slot.now }
{
    match slot {
        Some(held) => match &held.taken {
            Some(taken) => taken.stored(),
            None => &[],
        },
        None => &[],
    }
}

/// How many stored bytes were taken of the objects of these cards.
fn bytes_of<B: Blob, L: Leaf>(cards: &[Option<Held<B, L>>]) -> Bytes {
    let mut bytes = Bytes { all: 0, most: 0 };
    'cards: for i in 0..cards.len() {
        let len = stored_of(&cards[i]).len();
        bytes = Bytes {
            all: bytes.all.saturating_add(len),
            most: bytes.most.max(len),
        };
    }
    bytes
}

/// Whether it is worth a thread to read ahead while the SHA-1 of these cards' objects are found.
pub(crate) fn is_worth_ahead<B: Blob, L: Leaf>(cards: &[Option<Held<B, L>>]) -> bool {
    (MUCH..TOO_MUCH).contains(&bytes_of(cards).all)
}

/// Whether these cards are enough: many bytes were taken, or their SHA-1 can be found so that no lane goes on alone for
/// long, since no object is longer than a lane's share.
pub(crate) fn is_enough<B: Blob, L: Leaf>(cards: &[Option<Held<B, L>>]) -> bool {
    let Bytes { all, most } = bytes_of(cards);
    let many = if all < MUCH { MANY } else { LANES };
    all >= TOO_MUCH || (cards.len() >= many && most <= all / LANES)
}

/// Keeps the SHA-1 of the stored bytes of a card's object, if there are any.
fn keep_sha1<B: Blob, L: Leaf>(slot: &mut Option<Held<B, L>>, found: ObjectId)
    requires { found ≡ sha1 (stored_in_slot slot.old) }
    ensures same { AreSame (sight B.told B.seen L.seen) (option_to_list slot.old) (option_to_list slot.new) }
    ensures stored { stored_in_slot slot.new ≡ stored_in_slot slot.old }
{
    match slot {
        Some(held) => keep_known(held, found),
        None => {}
    }
}

/// The SHA-1 of what was taken of the objects of up to 32 cards, side by side.
fn sha1_of_each<B: Blob, L: Leaf>(cards: &[Option<Held<B, L>>]) -> [[u8; 20]; ROOM]
    requires { length cards.now ≤ 32 }
    ensures { take (length cards.now) result ≡ map (λ slot. sha1 (stored_in_slot slot)) cards.now }
{
    let mut messages: [&[u8]; ROOM] = [&[]; ROOM];
    'cards: for i in 0..cards.len() {
        messages[i] = stored_of(&cards[i]);
    }
    let mut found = [[0; 20]; ROOM];
    digest_all(&messages[..cards.len()], &mut found[..cards.len()]);
    found
}

/// Finds the SHA-1 of what was taken of the objects, side by side.
pub(crate) fn find_sha1<B: Blob, L: Leaf>(cards: &mut [Option<Held<B, L>>])
    ensures { AreSameSlots (sight B.told B.seen L.seen) cards.old cards.new }
{
    if cards.len() > ROOM {
        return;
    }
    let found = sha1_of_each(cards);
    'keep: for i in 0..cards.len() {
        keep_sha1(&mut cards[i], found[i]);
    }
}

/// Reads the object of a card, if there is one, unless so many bytes were taken already. Returns how many then are.
fn read_slot<B: Blob, L: Leaf>(slot: &mut Option<Held<B, L>>, taken: usize) -> usize
    ensures { AreSame (sight B.told B.seen L.seen) (option_to_list slot.old) (option_to_list slot.new) }
{
    match slot {
        Some(held) if taken < TOO_MUCH => read_held(held),
        Some(_) | None => {}
    }
    taken.saturating_add(stored_of(slot).len())
}

/// Reads the objects of these cards, in order, until many bytes were taken.
fn read_all<B: Blob, L: Leaf>(cards: &mut [Option<Held<B, L>>])
    ensures { AreSameSlots (sight B.told B.seen L.seen) cards.old cards.new }
{
    let mut taken = 0;
    'read: for i in 0..cards.len() {
        taken = read_slot(&mut cards[i], taken);
    }
}

/// Finds the SHA-1 of the objects of these cards, and reads those of the next ones meanwhile.
pub(crate) fn find_and_read<B: Blob + Send, L: Leaf + Send, H: Threads>(
    rt: &H,
    mut cards: Few<Held<B, L>>,
    mut next: Few<Held<B, L>>,
) -> (Few<Held<B, L>>, Few<Held<B, L>>)
    ensures cards { AreSameSlots (sight B.told B.seen L.seen) cards.slots.items result.0.slots.items }
    ensures next { AreSameSlots (sight B.told B.seen L.seen) next.slots.items result.1.slots.items }
{
    let (next, cards) = join(
        rt,
        move || -> Few<Held<B, L>>
            ensures { AreSameSlots (sight B.told B.seen L.seen) next.slots.items result.slots.items }
        {
            read_all(next.slots.as_mut_slice());
            next
        },
        move || -> Few<Held<B, L>>
            ensures { AreSameSlots (sight B.told B.seen L.seen) cards.slots.items result.slots.items }
        {
            find_sha1(cards.slots.as_mut_slice());
            cards
        },
    );
    (cards, next)
}
