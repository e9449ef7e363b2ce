//! What the actors of a checkout leave, after all of them came back.
ghost use Rattle.std.specs.Prelude.{◌≡◌, ◌≤◌, ◌<◌, ◌+◌, ℕ, List, [], Some, length, map, slice_get, vec_capacity};
ghost use Rattle.turn_lock.specs.Seat.{SeatView, mine_of};
ghost use Rattle.checkout_core.specs.declared.path.Start.{Start};
ghost use Rattle.checkout_core.specs.Actors.{own_entries};
ghost use Rattle.checkout_core.specs.Notes.{noted, notes};
ghost use Rattle.checkout_core.specs.States.{verdict_at};
ghost use Rattle.checkout_core.specs.Closes.{IsComplete};
ghost use Rattle.checkout_book.specs.declared.plan.BookPlan.{BookPlan};
ghost use Rattle.checkout_book.specs.declared.plan.HistoryEntry.{HistoryEntry};
ghost use Rattle.checkout_book.specs.Sights.{sight};
ghost use Rattle.checkout_book.specs.Shelves.{plan_of, cards_of};
ghost use Rattle.checkout_book.specs.Turns.{NoneWaits};
ghost use Rattle.checkout_book.specs.Reserving.{ArePool, AreDealt};
ghost use Rattle.writer_pool.specs.Ends.{AreBack, AreEnds, IsQuiet, IsRun, IsThrough};
ghost use Rattle.writer_pool.specs.Rooms.{HasRoom};
ghost use Rattle.edge_kit.specs.Seen.{LeafSeen};
ghost use Rattle.writer_pool.specs.Sealing.{EndsIn, EndsAt, EndsOn, leaf_at};
ghost use Rattle.card_worker.specs.Working.{own_events};

use crate::path_ends::PathEnds;
use card_worker::laws::a_claimed_card_may_be_written;
use card_worker::{Written, write_card};
use checkout_book::book::{Book, Pass};
use checkout_book::ended::Ended;
use checkout_book::reserved_cards::finish;
use checkout_core::{Event, Verdict};
use core_laws::laws;
use edge_kit::{Blob, Leaf};
use std::alloc::Global;

/// Writes and closes what still waits, as actor 0.
pub(crate) fn close_rest<B: Blob, L: Leaf>(alloc: Global, ended: &mut Ended<B, L>)
    requires { IsQuiet (sight B.told B.seen L.seen) ended.old.shelf }
    ensures quiet { IsQuiet (sight B.told B.seen L.seen) ended.new.shelf }
    ensures plan { plan_of ended.new.shelf ≡ plan_of ended.old.shelf }
    ensures none { NoneWaits ended.new.shelf.core }
    ensures seals { (q p : ℕ) (leaf : LeafSeen) → EndsOn (sight B.told B.seen L.seen) ended.new.shelf q p leaf
        → EndsOn (sight B.told B.seen L.seen) ended.old.shelf q p leaf }
    ensures notes { (starts : List Start) (d : ℕ) → notes starts d ended.new.shelf.events.items
        ≡ notes starts d ended.old.shelf.events.items }
    ensures own { (starts : List Start) (workers n : ℕ) → 0 < n
        → own_entries starts workers n ended.new.shelf.events.items
        ≡ own_entries starts workers n ended.old.shelf.events.items }
{
    laws::a_path_in_hand_may_be_closed();
    laws::a_claim_takes_its_path();
    laws::a_close_closes_its_path();
    laws::a_history_is_short();
    a_claimed_card_may_be_written::<B, L>();
    while let Some(card) = ended.take_waiting() {
        let Written { card, own } = write_card(alloc, card);
        ended.close(card, own);
    }
}

/// Closes what still waits after all passes came back.
pub(crate) fn end_all<B: Blob, L: Leaf>(
    alloc: Global,
    book: Book<B, L>,
    passes: Vec<Pass<B, L>>,
) -> Ended<B, L>
    requires { (d : BookPlan B L)
        × AreBack (sight B.told B.seen L.seen) book d 0 (length passes.items) passes.items
        × (0 < length passes.items) × (length passes.items ≡ d.workers + d.drivers) }
    ensures through { (d : BookPlan B L)
        → AreBack (sight B.told B.seen L.seen) book d 0 (length passes.items) passes.items
        → length passes.items ≡ d.workers + d.drivers
        → IsThrough (sight B.told B.seen L.seen) d result.shelf }
    ensures seals { (d : BookPlan B L)
        → AreBack (sight B.told B.seen L.seen) book d 0 (length passes.items) passes.items
        → (q : ℕ) (s : SeatView HistoryEntry (BookPlan B L))
        → slice_get passes.items (d.workers + q) ≡ Some s
        → (p : ℕ) (leaf : LeafSeen) → EndsOn (sight B.told B.seen L.seen) result.shelf q p leaf
        → EndsIn (mine_of s) p leaf }
    ensures notes { (d : BookPlan B L)
        → AreBack (sight B.told B.seen L.seen) book d 0 (length passes.items) passes.items
        → (q : ℕ) (s : SeatView HistoryEntry (BookPlan B L))
        → slice_get passes.items (d.workers + q) ≡ Some s
        → notes d.starts.items q result.shelf.events.items ≡ noted (own_events (mine_of s)) }
    ensures own { (d : BookPlan B L)
        → AreBack (sight B.told B.seen L.seen) book d 0 (length passes.items) passes.items
        → (n : ℕ) (s : SeatView HistoryEntry (BookPlan B L)) → 0 < n
        → slice_get passes.items n ≡ Some s
        → own_entries d.starts.items d.workers n result.shelf.events.items ≡ own_events (mine_of s) }
{
    laws::notes_are_own_entries();
    laws::a_desk_that_is_through_keeps_no_path();
    laws::a_claim_takes_its_path();
    laws::a_close_closes_its_path();
    laws::a_path_that_is_handed_back_waits();
    laws::a_note_keeps_paths_with_their_driver();
    let mut ended = finish(book, passes);
    close_rest(alloc, &mut ended);
    ended
}

/// The verdict of each path.
fn verdicts_of<B: Blob, L: Leaf>(
    ended: &Ended<B, L>,
    paths: u32,
    mut verdicts: Vec<Verdict>,
) -> Vec<Verdict>
    requires complete { IsComplete ended.now.shelf.core }
    requires count { length ended.now.shelf.core.paths ≡ paths }
    requires empty { verdicts.items ≡ [] }
    requires room { paths ≤ vec_capacity verdicts }
    ensures { (p : ℕ) → slice_get result.items p ≡ verdict_at ended.now.shelf.core p }
{
    for path in 0..paths {
        let Some(verdict) = ended.verdict(path) else {
            unreachable!()
        };
        verdicts.push_reserved(verdict);
    }
    verdicts
}

/// The blobs and the leaves apart.
fn apart<B: Drop, L: Drop>(
    parts: Vec<(B, L)>,
    mut blobs: Vec<B>,
    mut leaves: Vec<L>,
) -> (Vec<B>, Vec<L>)
    requires no_blob { blobs.items ≡ [] }
    requires no_leaf { leaves.items ≡ [] }
    requires room { length parts.items ≤ vec_capacity blobs }
    requires leaf_room { length parts.items ≤ vec_capacity leaves }
    ensures blobs { result.0.items ≡ map (λ x. x.0) parts.items }
    ensures leaves { result.1.items ≡ map (λ x. x.1) parts.items }
{
    for part in parts {
        let (blob, leaf) = part;
        blobs.push_reserved(blob);
        leaves.push_reserved(leaf);
    }
    (blobs, leaves)
}

/// The history, and how the paths ended, in the room that was taken for it.
pub(crate) fn leave<B: Blob, L: Leaf>(
    ended: Ended<B, L>,
    paths: u32,
    room: PathEnds<B, L>,
) -> (Vec<Event>, PathEnds<B, L>)
    requires through { (d : BookPlan B L) × IsThrough (sight B.told B.seen L.seen) d ended.shelf
        × (length d.starts.items ≡ paths) }
    requires room { HasRoom paths room }
    ensures run { (d : BookPlan B L) → IsThrough (sight B.told B.seen L.seen) d ended.shelf
        → IsRun d.starts.items d.workers d.drivers result.0.items result.1.verdicts.items }
    ensures ends { (d : BookPlan B L) → IsThrough (sight B.told B.seen L.seen) d ended.shelf
        → ArePool d.starts.items d.pool.items → AreDealt d.starts.items 0 d.desks.items
        → AreEnds (sight B.told B.seen L.seen) d.starts.items result.0.items (cards_of d) 0 d.starts.items
        result.1.blobs.items result.1.leaves.items }
    ensures seals { (d : BookPlan B L) → IsThrough (sight B.told B.seen L.seen) d ended.shelf
        → ArePool d.starts.items d.pool.items → AreDealt d.starts.items 0 d.desks.items
        → (q p : ℕ) (leaf : LeafSeen)
        → EndsAt (sight B.told B.seen L.seen) d.starts.items result.0.items
        (leaf_at d.starts.items result.1.leaves.items) q p leaf
        → EndsOn (sight B.told B.seen L.seen) ended.shelf q p leaf }
    ensures history { result.0.items ≡ ended.shelf.events.items }
{
    laws::a_claim_takes_its_path();
    laws::a_close_closes_its_path();
    laws::a_path_that_is_handed_back_waits();
    laws::a_note_keeps_paths_with_their_driver();
    laws::a_verdict_is_what_is_told();
    laws::a_history_keeps_its_size();
    let PathEnds {
        verdicts,
        leaves,
        blobs,
    } = room;
    let verdicts = verdicts_of(&ended, paths, verdicts);
    let (history, parts) = ended.into_history_and_parts();
    let (blobs, leaves) = apart(parts, blobs, leaves);
    let ends = PathEnds {
        verdicts,
        leaves,
        blobs,
    };
    (history, ends)
}
