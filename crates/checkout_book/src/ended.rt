// What a book leaves.
ghost use Rattle.std.specs.Prelude.{◌≡◌, ◌≤◌, ◌++◌, ◌∷◌, [], true, Option, Some, None, IfSome, IfNone, length, map};
ghost use Rattle.std.specs.Prelude.{vec_capacity};
ghost use Rattle.checkout_core.specs.States.{verdict_at};
ghost use Rattle.checkout_core.specs.Actors.{is_step};
ghost use Rattle.checkout_core.specs.Hands.{held_at};
ghost use Rattle.checkout_core.specs.declared.event.Event.TheVariants.{Close};
ghost use Rattle.checkout_book.specs.declared.shelf.Slot.TheVariants as slot;
ghost use Rattle.checkout_book.specs.Ending.{parts_in, told_from, GoesOn, IsTaken};
ghost use Rattle.checkout_book.specs.Entries.{history_of};
ghost use Rattle.checkout_book.specs.Passes.{claim_entry, close_entry};
ghost use Rattle.checkout_book.specs.Shelves.{IsOut, plan_of, cards_of};
ghost use Rattle.checkout_book.specs.Turns.{Turned, Claimed, Unclaimed};
ghost use Rattle.checkout_book.specs.Sights.{sight, tell};

use crate::shelf::{Rack, Shelf, Slot};
use checkout_core::{Event, Own, Verdict};
use convert_plan::Card;
use core_laws::laws;
use edge_kit::{Blob, Leaf};

/// A book after all its passes came back. What still waits is closed by actor 0.
#[derive(Drop)]
pub struct Ended<B: Blob, L: Leaf> {
    pub(crate) shelf: Shelf<B, L>,
}

impl<B: Blob, L: Leaf> Ended<B, L> {
    /// The card that a claim of actor 0 would give. `None` comes exactly where no card waits.
    pub fn take_waiting(&mut self) -> Option<Card<B, L>>
        requires { GoesOn (sight B.told B.seen L.seen) self.old.shelf }
        ensures goes_on { GoesOn (sight B.told B.seen L.seen) self.new.shelf }
        ensures none { IfNone result (Unclaimed self.old.shelf self.new.shelf) }
        ensures some { IfSome result (Claimed 0 self.old.shelf self.new.shelf) }
        ensures card { IfSome result (IsTaken (sight B.told B.seen L.seen) 0 self.new.shelf) }
        ensures history { IfSome result (λ card. history_of (tell (sight B.told B.seen L.seen)) self.new.shelf
            ≡ history_of (tell (sight B.told B.seen L.seen)) self.old.shelf ++ (0, claim_entry card.path 0) ∷ []) }
    {
        laws::a_claim_takes_its_path();
        self.shelf.claim(0)
    }

    /// Closes a card that actor 0 has in hand.
    pub fn close(&mut self, card: Card<B, L>, own: Own)
        requires goes_on { GoesOn (sight B.told B.seen L.seen) self.old.shelf }
        requires held { held_at self.old.shelf.core 0 card.path ≡ true }
        requires step { is_step self.old.shelf.core (Close card.path 0 own) ≡ true }
        requires out { IsOut (sight B.told B.seen L.seen) (cards_of (plan_of self.old.shelf)) card }
        ensures goes_on { GoesOn (sight B.told B.seen L.seen) self.new.shelf }
        ensures closed { Turned (Close card.path 0 own) card.path (slot.Ended card.blob card.leaf)
            self.old.shelf self.new.shelf }
        ensures history { history_of (tell (sight B.told B.seen L.seen)) self.new.shelf
            ≡ history_of (tell (sight B.told B.seen L.seen)) self.old.shelf
            ++ (0, close_entry card.path 0 own (tell (sight B.told B.seen L.seen) card.blob card.leaf)) ∷ [] }
    {
        laws::a_close_closes_its_path();
        let Card {
            path,
            blob,
            leaf,
            ..
        } = card;
        self.shelf.close(0, path, (blob, leaf), own);
    }

    /// The events so far.
    pub fn history(&self) -> &[Event]
        ensures { result.now ≡ self.now.shelf.events.items }
    {
        self.shelf.events.as_slice()
    }

    /// The verdict of a path, or `None` exactly where it isn't closed.
    pub fn verdict(&self, path: u32) -> Option<Verdict>
        ensures { result ≡ verdict_at self.now.shelf.core path }
    {
        self.shelf.core.verdict(path)
    }

    /// The blob and the leaf of every closed card, in path order. They tell what the entry of the path's Close has. It
    /// takes no memory.
    pub fn into_parts(self) -> Vec<(B, L)>
        requires { GoesOn (sight B.told B.seen L.seen) self.shelf }
        ensures parts { result.items ≡ parts_in self.shelf.slots.items }
        ensures told { map (λ x. tell (sight B.told B.seen L.seen) x.0 x.1) result.items
            ≡ told_from 0 (length self.shelf.starts.value.items)
            (history_of (tell (sight B.told B.seen L.seen)) self.shelf) }
    {
        self.into_history_and_parts().1
    }

    /// The events, and the blob and the leaf of every closed card as `into_parts` gives them. It takes no memory.
    pub fn into_history_and_parts(self) -> (Vec<Event>, Vec<(B, L)>)
        requires { GoesOn (sight B.told B.seen L.seen) self.shelf }
        ensures history { result.0.items ≡ self.shelf.events.items }
        ensures parts { result.1.items ≡ parts_in self.shelf.slots.items }
        ensures told { map (λ x. tell (sight B.told B.seen L.seen) x.0 x.1) result.1.items
            ≡ told_from 0 (length self.shelf.starts.value.items)
            (history_of (tell (sight B.told B.seen L.seen)) self.shelf) }
    {
        laws::a_history_keeps_its_size();
        let Ended { shelf } = self;
        let Rack {
            events,
            slots,
            parts,
            ..
        } = shelf;
        (events, ended_parts(slots, parts))
    }
}

/// The blob and the leaf of each slot that has them, in the room that was taken for them.
fn ended_parts<B: Blob, L: Leaf>(slots: Vec<Slot<B, L>>, mut parts: Vec<(B, L)>) -> Vec<(B, L)>
    requires empty { parts.items ≡ [] }
    requires room { length slots.items ≤ vec_capacity parts }
    ensures { result.items ≡ parts_in slots.items }
{
    for slot in slots {
        match slot {
            Slot::Ended(blob, leaf) => parts.push_reserved((blob, leaf)),
            Slot::Waits(card) => drop(card),
            Slot::Away => {}
        }
    }
    parts
}
