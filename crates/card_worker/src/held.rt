//! A card that a worker claimed, from when its object is read until it is written.
ghost use Rattle.std.specs.Prelude.{◌≡◌};
ghost use Rattle.sha1.specs.Sha1.{sha1};
ghost use Rattle.convert_plan.specs.Card.{card_seen};
ghost use Rattle.checkout_book.specs.Sights.{sight};
ghost use Rattle.card_worker.specs.Holding.{HoldsCard, SameHeld, IsToBeWritten, IsWrittenSo, stored_in_held};

use crate::leaf::write_leaf;
use crate::written::{Written, write_card};
use byte_path::ObjectId;
use convert_plan::Card;
use driver_desk::prepared_from;
use edge_kit::{Blob, Leaf};
use object_dir::{Taken, take_blob};
use std::alloc::Global;

/// A card, and what its blob gave if that was taken.
#[derive(Drop)]
pub(crate) struct Held<B: Blob, L: Leaf> {
    pub card: Card<B, L>,
    pub taken: Option<Taken>,
}

/// When the object of a claimed card is read.
#[derive(Clone, Copy)]
pub(crate) enum Reading {
    Now,
    Later,
}

/// Takes the stored bytes of a card's object, unless its content was prepared before, or they are taken later.
pub(crate) fn hold_card<B: Blob, L: Leaf>(mut card: Card<B, L>, reading: Reading) -> Held<B, L>
    ensures path { result.card.path ≡ card.path }
    ensures holds { HoldsCard (card_seen B.told B.seen L.seen card) (card_seen B.told B.seen L.seen result.card)
        result.taken }
{
    match reading {
        Reading::Now if card.ready.is_none() => {
            let taken = take_blob(&mut card.blob, &card.object);
            Held {
                card,
                taken: Some(taken),
            }
        }
        _ => Held { card, taken: None },
    }
}

/// Takes the stored bytes of a held card's object, unless they were taken or its content was prepared before.
pub(crate) fn read_held<B: Blob, L: Leaf>(held: &mut Held<B, L>)
    ensures { SameHeld (sight B.told B.seen L.seen) held.old held.new }
{
    if held.taken.is_none() && held.card.ready.is_none() {
        held.taken = Some(take_blob(&mut held.card.blob, &held.card.object));
    }
}

/// Keeps the SHA-1 of what was taken, if there is any.
pub(crate) fn keep_known<B: Blob, L: Leaf>(held: &mut Held<B, L>, found: ObjectId)
    requires { found ≡ sha1 (stored_in_held held.old) }
    ensures same { SameHeld (sight B.told B.seen L.seen) held.old held.new }
    ensures stored { stored_in_held held.new ≡ stored_in_held held.old }
{
    match &mut held.taken {
        Some(taken) => taken.keep_sha1(found),
        None => {}
    }
}

/// Writes a held card's content as its leaf's file.
pub(crate) fn write_held<B: Blob, L: Leaf>(alloc: Global, held: Held<B, L>) -> Written<B, L>
    requires { IsToBeWritten (sight B.told B.seen L.seen) held }
    ensures { IsWrittenSo (sight B.told B.seen L.seen) held result }
{
    let Held { mut card, taken } = held;
    let Some(taken) = taken else {
        return write_card(alloc, card);
    };
    match prepared_from(alloc, &card, taken.into_content()) {
        Ok(ready) => {
            let own = write_leaf(&mut card.leaf, &ready, card.mark);
            Written { card, own }
        }
        Err(own) => Written { card, own },
    }
}
