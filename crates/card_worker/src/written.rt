//! A card on its way through the hands of an actor that claimed it: read, prepared and written.
ghost use Rattle.std.specs.Prelude.{◌≡◌, true, is_some};
ghost use Rattle.convert_plan.specs.Card.{card_seen, IsCardOf};
ghost use Rattle.checkout_core.specs.Desks.{was_read};
ghost use Rattle.card_worker.specs.Writing.{IsToWrite, WritesCard};

use crate::leaf::write_leaf;
use checkout_core::Own;
use convert_plan::Card;
use driver_desk::read_card;
use edge_kit::{Blob, Leaf};
use std::alloc::Global;

/// A card that is through, with what happened to it.
#[derive(Drop)]
pub struct Written<B: Blob, L: Leaf> {
    pub card: Card<B, L>,
    pub own: Own,
}

/// Writes a card's content as its leaf's file. What was prepared before is written as it is. Otherwise the object is
/// read and converted. No content is kept.
pub fn write_card<B: Blob, L: Leaf>(alloc: Global, mut card: Card<B, L>) -> Written<B, L>
    requires { IsToWrite (card_seen B.told B.seen L.seen card) }
    ensures kept { IsCardOf (card_seen B.told B.seen L.seen card) (card_seen B.told B.seen L.seen result.card) }
    ensures wrote { WritesCard (card_seen B.told B.seen L.seen card) result.own
        (B.seen result.card.blob) (L.seen result.card.leaf) }
    ensures read { is_some card.ready ≡ true → was_read result.own ≡ true }
{
    let own = match card.ready.take() {
        Some(ready) => write_leaf(&mut card.leaf, &ready, card.mark),
        None => match read_card(alloc, &mut card) {
            Ok(ready) => write_leaf(&mut card.leaf, &ready, card.mark),
            Err(own) => own,
        },
    };
    Written { card, own }
}
