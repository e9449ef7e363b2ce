// What the users of a book may rely on.
ghost use Rattle.std.specs.Prelude.{◌≡◌, ℕ, List, map};
ghost use Rattle.atomic_table.specs.Seated.{TableId};
ghost use Rattle.turn_lock.specs.Seat.{SeatView, mine_of, seen_of};
ghost use Rattle.checkout_core.specs.Actors.{own_entries};
ghost use Rattle.checkout_core.specs.States.{Core};
ghost use Rattle.convert_plan.specs.declared.card.Card.{Card};
ghost use Rattle.checkout_book.specs.declared.plan.HistoryEntry.{HistoryEntry};
ghost use Rattle.checkout_book.specs.declared.plan.BookPlan.{BookPlan};
ghost use Rattle.checkout_book.specs.Entries.{events_of};
ghost use Rattle.checkout_book.specs.Passes.{IsPass};
ghost use Rattle.checkout_book.specs.Shelves.{IsPlanned, IsOut};
ghost use Rattle.checkout_book.specs.Sights.{sight};

use edge_kit::{Blob, Leaf};

/// A card that was claimed is the planned one as an actor may have it.
pub fn a_claimed_card_is_out<B: Blob, L: Leaf>()
    ensures { (cards : List (Card B L)) (card : Card B L)
        → IsPlanned (sight B.told B.seen L.seen) cards card
        → IsOut (sight B.told B.seen L.seen) cards card }
{}

/// The own list of a pass has the events that are its actor's own entries in the history that it saw.
pub fn a_pass_lists_its_own_entries<B: Blob, L: Leaf>()
    ensures { (lock : TableId) (d : BookPlan B L) (n made : ℕ)
        (pass : SeatView HistoryEntry (BookPlan B L)) (c : Core)
        → IsPass lock d n made pass c
        → own_entries d.starts.items d.workers n (events_of (seen_of pass))
        ≡ map (λ e. e.event) (mine_of pass) }
{}
