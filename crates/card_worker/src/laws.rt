//! What follows from the clauses of a worker.
ghost use Rattle.std.specs.Prelude.{◌≡◌, ℕ, List, Option, Some, is_some, true};
ghost use Rattle.tree_encoding.specs.declared.prepared.Prepared.{Prepared};
ghost use Rattle.convert_plan.specs.declared.card.Card.{Card};
ghost use Rattle.convert_plan.specs.Card.{CardSeen, IsCardOf};
ghost use Rattle.checkout_core.specs.declared.event.Event.TheVariants.{Close};
ghost use Rattle.checkout_core.specs.declared.path.PathState.TheVariants.{Waiting};
ghost use Rattle.checkout_core.specs.declared.verdict.FilterCause.{FilterCause};
ghost use Rattle.checkout_core.specs.declared.verdict.Own.{Own};
ghost use Rattle.checkout_core.specs.declared.verdict.Verdict.{Verdict};
ghost use Rattle.checkout_core.specs.Desks.{was_read};
ghost use Rattle.checkout_core.specs.Verdicts.{held_close};
ghost use Rattle.checkout_book.specs.Reserving.{AreNew};
ghost use Rattle.checkout_book.specs.Shelves.{IsPlanned, WaitsSo};
ghost use Rattle.checkout_book.specs.Sights.{seen, sight, tell};
ghost use Rattle.card_worker.specs.Working.{IsShown};
ghost use Rattle.card_worker.specs.Writing.{IsToWrite, WritesCard};

use edge_kit::{Blob, Leaf};

/// A planned card that was claimed may be written. Each outcome gives its path a verdict, and how the writing ended
/// shows in the entry of its Close.
pub fn a_claimed_card_may_be_written<B: Blob, L: Leaf>()
    ensures write { (cards : List (Card B L)) (k : Card B L) (raw : Option FilterCause)
        → AreNew (sight B.told B.seen L.seen) cards → IsPlanned (sight B.told B.seen L.seen) cards k
        → WaitsSo (seen (sight B.told B.seen L.seen) k) (Waiting raw) k.ready
        → IsToWrite (seen (sight B.told B.seen L.seen) k) }
    ensures verdict { (card : CardSeen) (raw : Option FilterCause) (ready : Option Prepared) (o : Own)
        → WaitsSo card (Waiting raw) ready → (is_some ready ≡ true → was_read o ≡ true)
        → (v : Verdict) × (held_close raw o ≡ Some v) }
    ensures shown { (cards : List (Card B L)) (k w : Card B L) (n : ℕ) (o : Own)
        → IsPlanned (sight B.told B.seen L.seen) cards k
        → IsCardOf (seen (sight B.told B.seen L.seen) k) (seen (sight B.told B.seen L.seen) w)
        → WritesCard (seen (sight B.told B.seen L.seen) k) o (B.seen w.blob) (L.seen w.leaf)
        → IsShown (sight B.told B.seen L.seen) cards (Close w.path n o)
        (Some (tell (sight B.told B.seen L.seen) w.blob w.leaf)) }
{}
