// Turns at the book.
ghost use Rattle.std.specs.Prelude.{◌≡◌, ℕ, true, Some};
ghost use Rattle.turn_lock.specs.Seat.{number_of};
ghost use Rattle.checkout_core.specs.States.{Core};
ghost use Rattle.checkout_core.specs.Actors.{actor_of, is_step};
ghost use Rattle.checkout_core.specs.declared.event.Event.TheVariants.{Close, HandBack};
ghost use Rattle.checkout_core.specs.Notes.{is_noted};
ghost use Rattle.checkout_book.specs.declared.plan.BookPlan.{BookPlan};
ghost use Rattle.checkout_book.specs.Sights.{sight, tell};
ghost use Rattle.checkout_book.specs.Shelves.{cards_of, IsOut, IsRefused};
ghost use Rattle.checkout_book.specs.Passes.{IsPass, Claims, Closes, Appends};

use crate::shelf::Shelf;
use checkout_core::{Event, Own};
use convert_plan::Card;
use core_laws::laws;
use edge_kit::{Blob, Leaf};
use std::sync::Wait;
use turn_lock::{Turn, TurnLock, TurnSeat};

/// The cards of a checkout, and the one history of its actors.
pub type Book<B: Blob, L: Leaf> = TurnLock<Shelf<B, L>>;

/// The pass of one actor of a book.
pub type Pass<B: Blob, L: Leaf> = TurnSeat<Shelf<B, L>>;

/// The waiting card of the lowest path, or `None` exactly where no card waits at that moment.
///
/// It waits for its turn, and takes no memory.
pub fn claim<B: Blob, L: Leaf, H: Wait>(
    rt: &H,
    book: &Book<B, L>,
    pass: &mut Pass<B, L>,
) -> Option<Card<B, L>>
    requires { (d : BookPlan B L) × (made : ℕ) × (c : Core)
        × IsPass book.now d (number_of pass.old) made pass.old c }
    ensures { (d : BookPlan B L) (made : ℕ) (c : Core)
        → IsPass book.now d (number_of pass.old) made pass.old c
        → Claims (sight B.told B.seen L.seen) book.now d (number_of pass.old) made pass.old pass.new c result }
{
    laws::own_entries_tell_what_is_in_hand();
    laws::what_is_in_hand_stays();
    laws::a_claim_takes_its_path();
    turn_lock::laws::a_turn_keeps_a_seat::<Shelf<B, L>>();
    let actor = pass.number();
    let Turn { mut value } = book.enter(rt, pass);
    let card = value.claim(actor);
    book.leave(pass, Turn { value });
    card
}

/// Closes a card that is out under this pass. It waits for its turn, and takes no memory.
pub fn close<B: Blob, L: Leaf, H: Wait>(
    rt: &H,
    book: &Book<B, L>,
    pass: &mut Pass<B, L>,
    card: Card<B, L>,
    own: Own,
)
    requires { (d : BookPlan B L) × (made : ℕ) × (c : Core)
        × IsPass book.now d (number_of pass.old) made pass.old c
        × (is_step c (Close card.path (number_of pass.old) own) ≡ true)
        × IsOut (sight B.told B.seen L.seen) (cards_of d) card }
    ensures { (d : BookPlan B L) (made : ℕ) (c : Core)
        → IsPass book.now d (number_of pass.old) made pass.old c
        → Closes book.now d (number_of pass.old) made pass.old pass.new c card.path own
        (tell (sight B.told B.seen L.seen) card.blob card.leaf) }
{
    laws::own_entries_tell_what_is_in_hand();
    laws::what_is_in_hand_stays();
    laws::own_entries_decide();
    laws::a_close_closes_its_path();
    turn_lock::laws::a_turn_keeps_a_seat::<Shelf<B, L>>();
    let actor = pass.number();
    // What the book doesn't keep is dropped at the end, after the turn.
    let Card {
        path,
        blob,
        leaf,
        ..
    } = card;
    let Turn { mut value } = book.enter(rt, pass);
    value.close(actor, path, (blob, leaf), own);
    book.leave(pass, Turn { value });
}

/// Notes an event of the talk with this pass's driver. It waits for its turn, and takes no memory.
pub fn note<B: Blob, L: Leaf, H: Wait>(
    rt: &H,
    book: &Book<B, L>,
    pass: &mut Pass<B, L>,
    event: Event,
)
    requires { (d : BookPlan B L) × (made : ℕ) × (c : Core)
        × IsPass book.now d (number_of pass.old) made pass.old c × (is_noted event ≡ true)
        × (actor_of d.starts.items d.workers event ≡ Some (number_of pass.old))
        × (is_step c event ≡ true) }
    ensures { (d : BookPlan B L) (made : ℕ) (c : Core)
        → IsPass book.now d (number_of pass.old) made pass.old c
        → actor_of d.starts.items d.workers event ≡ Some (number_of pass.old)
        → Appends book.now d (number_of pass.old) made pass.old pass.new c event }
{
    laws::own_entries_tell_what_is_in_hand();
    laws::own_entries_decide();
    laws::a_note_keeps_paths_with_their_driver();
    turn_lock::laws::a_turn_keeps_a_seat::<Shelf<B, L>>();
    let Turn { mut value } = book.enter(rt, pass);
    value.note(event);
    book.leave(pass, Turn { value });
}

/// Has the card of a path that this pass's driver refused wait again. It waits for its turn, and takes no memory.
pub fn hand_back<B: Blob, L: Leaf, H: Wait>(
    rt: &H,
    book: &Book<B, L>,
    pass: &mut Pass<B, L>,
    card: Card<B, L>,
)
    requires { (d : BookPlan B L) × (made : ℕ) × (c : Core)
        × IsPass book.now d (number_of pass.old) made pass.old c
        × (actor_of d.starts.items d.workers (HandBack card.path) ≡ Some (number_of pass.old))
        × (is_step c (HandBack card.path) ≡ true)
        × IsRefused (sight B.told B.seen L.seen) (cards_of d) card }
    ensures { (d : BookPlan B L) (made : ℕ) (c : Core)
        → IsPass book.now d (number_of pass.old) made pass.old c
        → actor_of d.starts.items d.workers (HandBack card.path) ≡ Some (number_of pass.old)
        → Appends book.now d (number_of pass.old) made pass.old pass.new c (HandBack card.path) }
{
    laws::own_entries_tell_what_is_in_hand();
    laws::own_entries_decide();
    laws::a_path_that_is_handed_back_waits();
    turn_lock::laws::a_turn_keeps_a_seat::<Shelf<B, L>>();
    let Turn { mut value } = book.enter(rt, pass);
    value.hand_back(card);
    book.leave(pass, Turn { value });
}
