//! A desk as an actor: it serves its driver's paths over a book.
ghost use Rattle.std.specs.Prelude.{◌≡◌, ◌+◌, ◌<◌, ◌^◌, [], length};
ghost use Rattle.turn_lock.specs.Seat.{mine_of};
ghost use Rattle.driver_desk.specs.Desks.{IsDealt};
ghost use Rattle.checkout_book.specs.Sights.{sight};
ghost use Rattle.writer_pool.specs.OnBook.{IsDeskPass, standing_of};
ghost use Rattle.writer_pool.specs.Serving.{IsServedOn};

use crate::jobs::DeskJob;
use crate::on_book::OnBook;
use checkout_book::book::{Book, Pass};
use driver_desk::{Desk, Served};
use edge_kit::{Blob, Gate, Leaf, Starter};
use std::sync::Wait;

/// What a desk leaves: its pass, and what is left of the desk itself.
pub(crate) struct DeskEnd<S: Starter, B: Blob, L: Leaf> {
    pub pass: Pass<B, L>,
    pub served: Served<S>,
}

/// Serves the cards of a desk over a book.
pub(crate) fn serve_desk<S: Starter, B: Blob, L: Leaf, G: Gate, H: Wait>(
    rt: &H,
    book: &Book<B, L>,
    gate: &G,
    job: DeskJob<Desk<S, B, L>>,
    pass: Pass<B, L>,
) -> DeskEnd<S, B, L>
    requires desk { IsDeskPass book.now pass }
    requires fresh { mine_of pass ≡ [] }
    requires few { length (job.desk).starter.had + length (job.desk).cards < 2 ^ 32 }
    requires dealt { IsDealt (standing_of (sight B.told B.seen L.seen)
        (record { pass = pass; required = job.required })) job.desk }
    ensures { IsServedOn S.seen (sight B.told B.seen L.seen) book.now job.required job.desk pass result.pass
        result.served }
{
    let DeskJob { required, desk } = job;
    let mut recorder = OnBook::begin(rt, gate, book, pass, required);
    let served = desk.serve(&mut recorder, gate);
    DeskEnd {
        pass: recorder.end(),
        served,
    }
}
