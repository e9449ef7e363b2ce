//! What follows from the clauses of a pool.
ghost use Rattle.std.specs.Prelude.{◌≡◌, ◌<◌, ℕ, List, Some, map, true, slice_get};
ghost use Rattle.delay_table.specs.Table.{contains};
ghost use Rattle.convert_plan.specs.declared.card.Card.{Card};
ghost use Rattle.checkout_core.specs.declared.event.Event.{Event};
ghost use Rattle.checkout_core.specs.declared.path.Start.{Start};
ghost use Rattle.checkout_book.specs.Sights.{seen, sight};
ghost use Rattle.driver_desk.specs.Works.{WorkSeen, FitAll, asked_in, cards_in, label_of};
ghost use Rattle.writer_pool.specs.declared.pooled.DeskSeed.{DeskSeed};
ghost use Rattle.writer_pool.specs.Ends.{AreEnds};
ghost use Rattle.writer_pool.specs.Pools.{IsSeed};
ghost use Rattle.writer_pool.specs.Sealing.{AreAtPaths};
ghost use Rattle.writer_pool.specs.Tying.{content_in, has_content};

use edge_kit::{Blob, Leaf, Starter};

/// Among the leaves that a pool leaves, in path order, each is the one of its path.
pub fn a_leaf_is_that_of_its_path<B: Blob, L: Leaf>()
    ensures { (starts : List Start) (history : List Event) (cards : List (Card B L)) (blobs : List B)
        (leaves : List L) → AreEnds (sight B.told B.seen L.seen) starts history cards 0 starts blobs leaves
        → AreAtPaths starts leaves 0 starts leaves }
{}

/// Of the cards of a seed, a talk asks for just those whose object gave a content, in path order.
pub fn a_talk_asks_for_what_was_read<S: Starter, B: Blob, L: Leaf>()
    ensures asked { (starts : List Start) (d : ℕ) (seed : DeskSeed S B L) (works : List WorkSeen)
        → IsSeed S.seen starts d seed
        → map (λ c. seen (sight B.told B.seen L.seen) c) seed.cards.items ≡ cards_in works
        → (k : ℕ) (w : WorkSeen) → slice_get works k ≡ Some w
        → contains w.card.path (asked_in works) ≡ has_content w.content }
    ensures each { (works : List WorkSeen) (p : ℕ) → contains p (asked_in works) ≡ true
        → (k : ℕ) × (w : WorkSeen) × (slice_get works k ≡ Some w) × (w.card.path ≡ p)
        × (has_content w.content ≡ true) }
    ensures rises { (starts : List Start) (d : ℕ) (seed : DeskSeed S B L) (works : List WorkSeen)
        → IsSeed S.seen starts d seed
        → map (λ c. seen (sight B.told B.seen L.seen) c) seed.cards.items ≡ cards_in works
        → (i j p q : ℕ) → i < j → slice_get (asked_in works) i ≡ Some p
        → slice_get (asked_in works) j ≡ Some q → p < q }
{}

/// The cards of a seed fit the contents that were read for them.
pub fn works_fit_their_contents<S: Starter, B: Blob, L: Leaf>()
    ensures { (starts : List Start) (d : ℕ) (seed : DeskSeed S B L) (works : List WorkSeen)
        → IsSeed S.seen starts d seed
        → map (λ c. seen (sight B.told B.seen L.seen) c) seed.cards.items ≡ cards_in works
        → (text name : ℕ → List ℕ)
        → ((k : ℕ) (w : WorkSeen) → slice_get works k ≡ Some w
        → label_of w.card ≡ (text w.card.path, name w.card.path))
        → FitAll (record { text = text; name = name; content = content_in works }) works }
{}
