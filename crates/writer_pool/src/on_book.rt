//! The recorder that writes into a book.
ghost use Rattle.std.specs.Prelude.{◌≡◌, ◌+◌, Some, None, false};
ghost use Rattle.convert_plan.specs.Card.{card_seen, IsOneOf, IsRefusedOneOf};
ghost use Rattle.checkout_core.specs.Actors.{driver_at};
ghost use Rattle.checkout_core.specs.declared.event.Event.TheVariants.{Close, HandBack};
ghost use Rattle.checkout_book.specs.Sights.{sight};
ghost use Rattle.driver_desk.specs.Recorders.{MayDo, gave};
ghost use Rattle.driver_desk.specs.Serving.{Closed, HandedBack};
ghost use Rattle.writer_pool.specs.OnBook.{Place, IsDeskPass, standing_of, given_of, recorder_of};

use checkout_book::book;
use checkout_book::book::{Book, Pass};
use checkout_book::laws::a_pass_lists_its_own_entries;
use checkout_core::{Event, Own};
use convert_plan::Card;
use core_laws::laws;
use driver_desk::Recorder;
use edge_kit::{Blob, Gate, Leaf, Point};
use std::marker::Model;
use std::sync::Wait;

/// What a desk tells and gives goes into the book, under its pass. The gate is called outside the lock, after a card
/// was closed.
pub(crate) struct OnBook<'a, B: Blob, L: Leaf, G: Gate, H: Wait> {
    rt: &'a H,
    gate: &'a G,
    book: &'a Book<B, L>,
    pass: Pass<B, L>,
    required: bool,
}

impl<'a, B: Blob, L: Leaf, G: Gate, H: Wait> Model for OnBook<'a, B, L, G, H> {
    ghost use Rattle.writer_pool.specs.OnBook.{Recording, IsDeskPass};

    ghost Value = { Recording B L };

    ghost view = { λ s. record { pass = s.pass; required = s.required } };

    ghost invariant = { λ s. IsDeskPass s.book.now s.pass };
}

impl<'a, B: Blob, L: Leaf, G: Gate, H: Wait> OnBook<'a, B, L, G, H> {
    /// The recorder of a desk's pass. `required` says whether its driver is required.
    pub fn begin(
        rt: &'a H,
        gate: &'a G,
        book: &'a Book<B, L>,
        pass: Pass<B, L>,
        required: bool,
    ) -> OnBook<'a, B, L, G, H>
        requires { IsDeskPass book.now pass }
        ensures { result ≡ record { pass = pass; required = required } }
    {
        OnBook {
            rt,
            gate,
            book,
            pass,
            required,
        }
    }

    /// The pass again.
    pub fn end(self) -> Pass<B, L>
        ensures same { result ≡ (self.entry).pass }
        ensures desk { IsDeskPass (self.entry).pass.lock result }
    {
        let OnBook {
            rt: _rt,
            gate: _gate,
            book: _book,
            pass,
            required: _required,
        } = self;
        pass
    }
}

impl<'a, B: Blob, L: Leaf, G: Gate, H: Wait> Recorder<B, L> for OnBook<'a, B, L, G, H> {
    ghost Fixed = { Place B L };

    ghost seen = { λ s. recorder_of (sight B.told B.seen L.seen) s };

    fn note(&mut self, event: Event) {
        laws::what_may_follow_is_a_step();
        a_pass_lists_its_own_entries::<B, L>();
        book::note(self.rt, self.book, &mut self.pass, event);
    }

    fn close(&mut self, card: Card<B, L>, own: Own)
        requires card { IsOneOf (standing_of (sight B.told B.seen L.seen) self.old).cards
            (card_seen B.told B.seen L.seen card) }
        requires unready { card.ready ≡ None }
        requires next { let s = standing_of (sight B.told B.seen L.seen) self.old in
            MayDo s (given_of (sight B.told B.seen L.seen) self.old) (Close card.path (s.workers + s.driver) own) }
        ensures gave { recorder_of (sight B.told B.seen L.seen) self.new
            ≡ gave (recorder_of (sight B.told B.seen L.seen) self.old)
            (Closed own (card_seen B.told B.seen L.seen card)) }
    {
        laws::what_may_follow_is_a_step();
        a_pass_lists_its_own_entries::<B, L>();
        let path = card.path;
        book::close(self.rt, self.book, &mut self.pass, card, own);
        self.gate.at(self.pass.number(), path, Point::Closed);
    }

    fn hand_back(&mut self, card: Card<B, L>)
        requires card { IsRefusedOneOf (standing_of (sight B.told B.seen L.seen) self.old).cards
            (card_seen B.told B.seen L.seen card) }
        requires free { (standing_of (sight B.told B.seen L.seen) self.old).required ≡ false }
        requires own { let s = standing_of (sight B.told B.seen L.seen) self.old in
            driver_at s.starts card.path ≡ Some s.driver }
        requires next { MayDo (standing_of (sight B.told B.seen L.seen) self.old)
            (given_of (sight B.told B.seen L.seen) self.old) (HandBack card.path) }
        ensures gave { recorder_of (sight B.told B.seen L.seen) self.new
            ≡ gave (recorder_of (sight B.told B.seen L.seen) self.old) (HandedBack card.path) }
    {
        laws::what_may_follow_is_a_step();
        a_pass_lists_its_own_entries::<B, L>();
        book::hand_back(self.rt, self.book, &mut self.pass, card);
    }
}
