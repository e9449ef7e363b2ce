// What a turn does to the shelf, which it is lent.
ghost use Rattle.std.specs.Prelude.{◌≡◌, ◌<◌, ◌+◌, ℕ, true, Some, IfSome, IfNone, is_some};
ghost use Rattle.checkout_core.specs.Actors.{actor_of, is_step};
ghost use Rattle.checkout_core.specs.Steps.{step_of};
ghost use Rattle.checkout_core.specs.declared.event.Event.TheVariants.{Claim, Close, HandBack};
ghost use Rattle.checkout_core.specs.Notes.{is_noted};
ghost use Rattle.checkout_book.specs.declared.shelf.Slot.TheVariants.{Waits, Ended};
ghost use Rattle.checkout_book.specs.Shelves.{IsSound, HasRoom, IsFrom, IsRefused, plan_of, cards_of, waits};
ghost use Rattle.checkout_book.specs.Turns.{Turned, Claimed, Unclaimed, Noted};
ghost use Rattle.checkout_book.specs.Sights.{sight};

use crate::shelf::{Shelf, Slot};
use checkout_core::{Event, Own, State, step};
use convert_plan::Card;
use core_laws::laws;
use edge_kit::{Blob, Leaf};
use std::mem;

/// Whether a card waits there.
pub(crate) fn is_waiting_card<B: Blob, L: Leaf>(slot: &Slot<B, L>) -> bool
    ensures { result ≡ waits slot.now }
{
    matches!(slot, Slot::Waits(_))
}

/// Takes an event that is a step.
fn take(core: &mut State, event: Event)
    requires { is_step core.old event ≡ true }
    ensures { step_of core.old event ≡ Some core.new }
{
    let _done = step(core, event);
}

impl<B: Blob, L: Leaf> Shelf<B, L> {
    /// Takes the waiting card of the lowest path.
    pub(crate) fn claim(&mut self, actor: u32) -> Option<Card<B, L>>
        requires sound { IsSound (sight B.told B.seen L.seen) self.old }
        requires actor { actor < self.old.workers + self.old.drivers }
        ensures sound { IsSound (sight B.told B.seen L.seen) self.new }
        ensures room { HasRoom self.old → HasRoom self.new }
        ensures none { IfNone result (Unclaimed self.old self.new) }
        ensures some { IfSome result (Claimed actor self.old self.new) }
    {
        laws::a_claim_takes_its_path();
        laws::a_waiting_path_may_be_claimed();
        laws::a_history_keeps_its_size();
        laws::a_history_is_short();
        let Some(path) = self.waiting.take_lowest() else {
            return None;
        };
        let Slot::Waits(card) = mem::replace(&mut self.slots[path as usize], Slot::Away) else {
            unreachable!()
        };
        let claimed = Event::Claim { path, actor };
        take(&mut self.core, claimed);
        self.events.push_reserved(claimed);
        Some(card)
    }

    /// Ends the card of a path, and keeps its blob and its leaf.
    pub(crate) fn close(&mut self, actor: u32, path: u32, parts: (B, L), own: Own)
        requires sound { IsSound (sight B.told B.seen L.seen) self.old }
        requires step { is_step self.old.core (Close path actor own) ≡ true }
        requires from { IsFrom (sight B.told B.seen L.seen) (cards_of (plan_of self.old)) path parts.0 parts.1 }
        ensures sound { IsSound (sight B.told B.seen L.seen) self.new }
        ensures room { HasRoom self.old → HasRoom self.new }
        ensures turned { Turned (Close path actor own) path (Ended parts.0 parts.1) self.old self.new }
    {
        laws::a_close_closes_its_path();
        laws::a_history_is_short();
        let (blob, leaf) = parts;
        let closed = Event::Close { path, actor, own };
        take(&mut self.core, closed);
        let Slot::Away = mem::replace(&mut self.slots[path as usize], Slot::Ended(blob, leaf))
        else {
            unreachable!()
        };
        self.events.push_reserved(closed);
    }

    /// Notes an event of a driver's talk.
    pub(crate) fn note(&mut self, event: Event)
        requires sound { IsSound (sight B.told B.seen L.seen) self.old }
        requires noted { is_noted event ≡ true }
        requires by { is_some (actor_of (plan_of self.old).starts.items self.old.workers event) ≡ true }
        requires step { is_step self.old.core event ≡ true }
        ensures sound { IsSound (sight B.told B.seen L.seen) self.new }
        ensures room { HasRoom self.old → HasRoom self.new }
        ensures noted { Noted event self.old self.new }
    {
        laws::a_note_keeps_paths_with_their_driver();
        laws::a_history_is_short();
        take(&mut self.core, event);
        self.events.push_reserved(event);
    }

    /// Has the card of a refused path wait again.
    pub(crate) fn hand_back(&mut self, card: Card<B, L>)
        requires sound { IsSound (sight B.told B.seen L.seen) self.old }
        requires by { is_some (actor_of (plan_of self.old).starts.items self.old.workers
            (HandBack card.path)) ≡ true }
        requires step { is_step self.old.core (HandBack card.path) ≡ true }
        requires refused { IsRefused (sight B.told B.seen L.seen) (cards_of (plan_of self.old)) card }
        ensures sound { IsSound (sight B.told B.seen L.seen) self.new }
        ensures room { HasRoom self.old → HasRoom self.new }
        ensures turned { Turned (HandBack card.path) card.path (Waits card) self.old self.new }
    {
        laws::a_path_that_is_handed_back_waits();
        laws::a_history_is_short();
        let path = card.path;
        let handed = Event::HandBack { path };
        take(&mut self.core, handed);
        let Slot::Away = mem::replace(&mut self.slots[path as usize], Slot::Waits(card)) else {
            unreachable!()
        };
        self.waiting.put_back(path);
        self.events.push_reserved(handed);
    }
}
