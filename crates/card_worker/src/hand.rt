//! The cards that a worker has in hand: it claims up to 32, and up to as many more to read ahead. It writes and
//! closes them in the same order.
ghost use Rattle.std.specs.Prelude.{◌≡◌, ◌<◌, ◌≤◌, ◌++◌, ◌∷◌, [], List, true, false, None, length, option_to_list};
ghost use Rattle.checkout_book.specs.Sights.{sight};
ghost use Rattle.card_worker.specs.declared.held.Held.{Held};
ghost use Rattle.card_worker.specs.Fews.{HasRoom, items};
ghost use Rattle.card_worker.specs.Holding.{Shift, IsHand, IsInHand, IsWrittenSo, AreSameSlots, SawNone};

use crate::ahead::{find_and_read, find_sha1, is_enough, is_worth_ahead};
use crate::few::{Few, ROOM};
use crate::held::{Held, Reading, hold_card, write_held};
use crate::written::Written;
use checkout_book::book::{Book, Pass, claim, close};
use core_laws::laws;
use edge_kit::{Blob, Gate, Leaf, Point};
use std::alloc::Global;
use std::mem::{replace, swap};
use std::sync::Wait;
use std::thread::Threads;

/// With what an actor works.
#[derive(Clone, Copy)]
pub struct Gathering {
    pub alloc: Global,
    /// Below this path cards are plenty: an actor claims up to 64 before it writes one.
    pub below: usize,
}

/// A worker's pass, and the cards that it claimed and hasn't closed.
pub(crate) struct Hand<B: Blob, L: Leaf> {
    pub pass: Pass<B, L>,
    /// Those that are written next.
    pub cards: Few<Held<B, L>>,
    /// Those after them, which are read while the SHA-1 of the others are found.
    pub next: Few<Held<B, L>>,
}

/// Claims a card, and takes the stored bytes of its object now or later. The gate is called between.
fn claim_next<B: Blob, L: Leaf, G: Gate, H: Wait>(
    rt: &H,
    book: &Book<B, L>,
    gate: &G,
    pass: &mut Pass<B, L>,
    reading: Reading,
) -> Option<Held<B, L>>
    requires { (w : Shift B L) × (hs : List (Held B L))
        × IsHand (sight B.told B.seen L.seen) book.now w pass.old hs × (length hs < 64) }
    ensures hand { (w : Shift B L) (hs : List (Held B L))
        → IsHand (sight B.told B.seen L.seen) book.now w pass.old hs → length hs < 64
        → IsHand (sight B.told B.seen L.seen) book.now w pass.new (hs ++ option_to_list result) }
    ensures none { result ≡ None → (w : Shift B L) (hs : List (Held B L))
        → IsHand (sight B.told B.seen L.seen) book.now w pass.old hs → SawNone book.now w pass.new }
{
    let Some(card) = claim(rt, book, pass) else {
        return None;
    };
    gate.at(pass.number(), card.path, Point::Claimed);
    Some(hold_card(card, reading))
}

/// Closes the first card in hand, which was written. The gate is called after that.
fn close_written<B: Blob, L: Leaf, G: Gate, H: Wait>(
    rt: &H,
    book: &Book<B, L>,
    gate: &G,
    pass: &mut Pass<B, L>,
    written: Written<B, L>,
)
    requires { (w : Shift B L) × (h : Held B L) × (hs : List (Held B L))
        × IsHand (sight B.told B.seen L.seen) book.now w pass.old (h ∷ hs)
        × IsWrittenSo (sight B.told B.seen L.seen) h written }
    ensures { (w : Shift B L) (h : Held B L) (hs : List (Held B L))
        → IsHand (sight B.told B.seen L.seen) book.now w pass.old (h ∷ hs)
        → IsWrittenSo (sight B.told B.seen L.seen) h written
        → IsHand (sight B.told B.seen L.seen) book.now w pass.new hs }
{
    laws::a_path_in_hand_may_be_closed();
    let Written { card, own } = written;
    let path = card.path;
    close(rt, book, pass, card, own);
    gate.at(pass.number(), path, Point::Closed);
}

/// The path of the card that was claimed last, if there is one.
fn last_path<B: Blob, L: Leaf>(cards: &Few<Held<B, L>>) -> Option<u32> {
    match cards.slots.last() {
        Some(Some(held)) => Some(held.card.path),
        Some(None) | None => None,
    }
}

impl<B: Blob + Send, L: Leaf + Send> Hand<B, L> {
    /// Whether one more card is worth claiming: there is room for it, the last path is one below which cards are
    /// plenty, and those in hand aren't enough.
    fn wants_more(&self, below: usize) -> bool
        ensures { result ≡ true → HasRoom self.now.cards }
    {
        self.cards.has_room()
            && match last_path(&self.cards) {
                Some(path) => (path as usize) < below && !is_enough(self.cards.slots.as_slice()),
                None => true,
            }
    }

    /// Whether one more card is worth claiming ahead: there are fewer than are written next, and cards are plenty.
    fn wants_ahead(&self, below: usize) -> bool
        ensures room { result ≡ true → HasRoom self.now.next }
        ensures few { result ≡ true → length self.now.cards.slots.items ≤ 32 }
    {
        self.next.has_room()
            && self.cards.len() <= ROOM
            && self.next.len() < self.cards.len()
            && match last_path(&self.next).or(last_path(&self.cards)) {
                Some(path) => (path as usize) < below,
                None => false,
            }
    }

    /// Claims one more card and reads it, if one waits.
    fn claim_more<G: Gate, H: Wait>(&mut self, rt: &H, book: &Book<B, L>, gate: &G) -> bool
        requires room { HasRoom self.old.cards }
        requires ahead { items self.old.next ≡ [] }
        requires hand { (w : Shift B L) × IsInHand (sight B.told B.seen L.seen) book.now w self.old }
        ensures next { self.new.next ≡ self.old.next }
        ensures hand { (w : Shift B L) → IsInHand (sight B.told B.seen L.seen) book.now w self.old
            → IsInHand (sight B.told B.seen L.seen) book.now w self.new }
        ensures none { result ≡ false → (items self.new.cards ≡ items self.old.cards) × ((w : Shift B L)
            → IsInHand (sight B.told B.seen L.seen) book.now w self.old → SawNone book.now w self.new.pass) }
    {
        let Some(held) = claim_next(rt, book, gate, &mut self.pass, Reading::Now) else {
            return false;
        };
        self.cards.push(held);
        true
    }

    /// Claims one more card to read it later, if one waits.
    fn claim_later<G: Gate, H: Wait>(&mut self, rt: &H, book: &Book<B, L>, gate: &G) -> bool
        requires room { HasRoom self.old.next }
        requires few { length self.old.cards.slots.items ≤ 32 }
        requires hand { (w : Shift B L) × IsInHand (sight B.told B.seen L.seen) book.now w self.old }
        ensures { (w : Shift B L) → IsInHand (sight B.told B.seen L.seen) book.now w self.old
            → IsInHand (sight B.told B.seen L.seen) book.now w self.new }
    {
        let Some(held) = claim_next(rt, book, gate, &mut self.pass, Reading::Later) else {
            return false;
        };
        self.next.push(held);
        true
    }

    /// Claims a card, writes and closes it at once, if one waits. So it goes where memory for more cards ran out.
    fn write_one<G: Gate, H: Wait>(
        &mut self,
        rt: &H,
        alloc: Global,
        book: &Book<B, L>,
        gate: &G,
    ) -> bool
        requires none { items self.old.cards ≡ [] }
        requires ahead { items self.old.next ≡ [] }
        requires hand { (w : Shift B L) × IsInHand (sight B.told B.seen L.seen) book.now w self.old }
        ensures cards { self.new.cards ≡ self.old.cards }
        ensures next { self.new.next ≡ self.old.next }
        ensures hand { (w : Shift B L) → IsInHand (sight B.told B.seen L.seen) book.now w self.old
            → IsInHand (sight B.told B.seen L.seen) book.now w self.new }
        ensures none { result ≡ false → (w : Shift B L)
            → IsInHand (sight B.told B.seen L.seen) book.now w self.old → SawNone book.now w self.new.pass }
    {
        let Some(held) = claim_next(rt, book, gate, &mut self.pass, Reading::Now) else {
            return false;
        };
        let written = write_held(alloc, held);
        close_written(rt, book, gate, &mut self.pass, written);
        true
    }

    /// Claims up to 32 cards and reads them, or none exactly where none waits.
    fn gather<G: Gate, H: Wait>(
        &mut self,
        rt: &H,
        gathering: Gathering,
        book: &Book<B, L>,
        gate: &G,
    ) -> bool
        requires none { items self.old.cards ≡ [] }
        requires ahead { items self.old.next ≡ [] }
        requires hand { (w : Shift B L) × IsInHand (sight B.told B.seen L.seen) book.now w self.old }
        ensures next { self.new.next ≡ self.old.next }
        ensures hand { (w : Shift B L) → IsInHand (sight B.told B.seen L.seen) book.now w self.old
            → IsInHand (sight B.told B.seen L.seen) book.now w self.new }
        ensures none { result ≡ false → (items self.new.cards ≡ []) × ((w : Shift B L)
            → IsInHand (sight B.told B.seen L.seen) book.now w self.old → SawNone book.now w self.new.pass) }
    {
        if !self.cards.has_room() {
            return self.write_one(rt, gathering.alloc, book, gate);
        }
        if !self.claim_more(rt, book, gate) {
            return false;
        }
        'more: for _ in 1..ROOM {
            if !self.wants_more(gathering.below) || !self.claim_more(rt, book, gate) {
                break;
            }
        }
        true
    }

    /// Has cards to write: those that were read ahead, or else up to 32 that wait. There is none exactly where none
    /// waits.
    fn fill<G: Gate, H: Wait>(
        &mut self,
        rt: &H,
        gathering: Gathering,
        book: &Book<B, L>,
        gate: &G,
    ) -> bool
        requires ahead { items self.old.next ≡ [] }
        requires hand { (w : Shift B L) × IsInHand (sight B.told B.seen L.seen) book.now w self.old }
        ensures next { self.new.next ≡ self.old.next }
        ensures hand { (w : Shift B L) → IsInHand (sight B.told B.seen L.seen) book.now w self.old
            → IsInHand (sight B.told B.seen L.seen) book.now w self.new }
        ensures none { result ≡ false → (items self.new.cards ≡ []) × ((w : Shift B L)
            → IsInHand (sight B.told B.seen L.seen) book.now w self.old → SawNone book.now w self.new.pass) }
    {
        !self.cards.is_empty() || self.gather(rt, gathering, book, gate)
    }

    /// Claims as many cards more where there is much to hash, to read them meanwhile.
    fn claim_ahead<G: Gate, H: Wait>(&mut self, rt: &H, book: &Book<B, L>, gate: &G, below: usize)
        requires { (w : Shift B L) × IsInHand (sight B.told B.seen L.seen) book.now w self.old }
        ensures { (w : Shift B L) → IsInHand (sight B.told B.seen L.seen) book.now w self.old
            → IsInHand (sight B.told B.seen L.seen) book.now w self.new }
    {
        if !is_worth_ahead(self.cards.slots.as_slice()) {
            return;
        }
        'ahead: for _ in 0..ROOM {
            if !self.wants_ahead(below) || !self.claim_later(rt, book, gate) {
                break;
            }
        }
    }

    /// Finds the SHA-1 of what was read, and reads what was claimed ahead.
    fn find<H: Threads>(&mut self, rt: &H, alloc: Global)
        ensures pass { self.new.pass ≡ self.old.pass }
        ensures cards { AreSameSlots (sight B.told B.seen L.seen) self.old.cards.slots.items self.new.cards.slots.items }
        ensures next { AreSameSlots (sight B.told B.seen L.seen) self.old.next.slots.items self.new.next.slots.items }
    {
        if self.next.is_empty() {
            find_sha1(self.cards.slots.as_mut_slice());
            return;
        }
        let cards = replace(&mut self.cards, Few::without_room(alloc));
        let next = replace(&mut self.next, Few::without_room(alloc));
        let (cards, next) = find_and_read(rt, cards, next);
        drop(replace(&mut self.cards, cards));
        drop(replace(&mut self.next, next));
    }

    /// Writes each card that is written next, and closes it.
    fn close_all<G: Gate, H: Wait>(&mut self, rt: &H, alloc: Global, book: &Book<B, L>, gate: &G)
        requires { (w : Shift B L) × IsInHand (sight B.told B.seen L.seen) book.now w self.old }
        ensures hand { (w : Shift B L) → IsInHand (sight B.told B.seen L.seen) book.now w self.old
            → IsInHand (sight B.told B.seen L.seen) book.now w self.new }
        ensures none { items self.new.cards ≡ [] }
    {
        'close: for place in 0..self.cards.len() {
            if let Some(held) = self.cards.take(place) {
                let written = write_held(alloc, held);
                close_written(rt, book, gate, &mut self.pass, written);
            }
        }
        self.cards.clear();
    }

    /// The pass. Cards that are still in hand are let go.
    pub fn into_pass(self) -> Pass<B, L>
        ensures { result ≡ self.pass }
    {
        let Hand { pass, cards, next } = self;
        drop(cards);
        drop(next);
        pass
    }

    /// Goes on to the cards that were read ahead.
    fn go_on(&mut self)
        requires { items self.old.cards ≡ [] }
        ensures none { items self.new.next ≡ [] }
        ensures cards { items self.new.cards ≡ items self.old.next }
        ensures pass { self.new.pass ≡ self.old.pass }
    {
        if !self.next.is_empty() {
            swap(&mut self.cards, &mut self.next);
        }
    }

    /// Has up to 32 cards written, or none exactly where none waits. Where there is much to hash, the next ones are
    /// read meanwhile.
    pub fn take_turn<G: Gate, H: Threads + Wait>(
        &mut self,
        rt: &H,
        gathering: Gathering,
        book: &Book<B, L>,
        gate: &G,
    ) -> bool
        requires none { items self.old.next ≡ [] }
        requires hand { (w : Shift B L) × IsInHand (sight B.told B.seen L.seen) book.now w self.old }
        ensures none { items self.new.next ≡ [] }
        ensures hand { (w : Shift B L) → IsInHand (sight B.told B.seen L.seen) book.now w self.old
            → IsInHand (sight B.told B.seen L.seen) book.now w self.new }
        ensures idle { result ≡ false → (items self.new.cards ≡ []) × ((w : Shift B L)
            → IsInHand (sight B.told B.seen L.seen) book.now w self.old → SawNone book.now w self.new.pass) }
    {
        if !self.fill(rt, gathering, book, gate) {
            return false;
        }
        self.claim_ahead(rt, book, gate, gathering.below);
        self.find(rt, gathering.alloc);
        self.close_all(rt, gathering.alloc, book, gate);
        self.go_on();
        true
    }
}
