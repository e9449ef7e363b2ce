//! The cards of a driver, one after another: each is asked for in a session that is opened when it is needed.
ghost use Rattle.std.specs.Prelude.{◌≡◌, ◌∷◌, [], ℕ, List, true, false, Some, None, Ok, slice_get, MatchOption};
ghost use Rattle.convert_plan.specs.Card.{card_seen, IsPrepared};
ghost use Rattle.edge_kit.specs.Told.{Tells};
ghost use Rattle.driver_line.specs.Lines.{Paths, IsOpen};
ghost use Rattle.driver_desk.specs.Late.{AreIdle, IsEmptied, cards_of};
ghost use Rattle.driver_desk.specs.Rounds.{paths_of, AreReady};
ghost use Rattle.driver_desk.specs.Progress.{AreClosings, IsBare, is_abort};
ghost use Rattle.driver_desk.specs.Works.{WorkSeen, ReadsAs, FitsWork, asked_of, label_in};
ghost use Rattle.checkout_core.specs.Conditions.{heard_opening};
ghost use Rattle.checkout_core.specs.Talks.{Talk};
ghost use Rattle.driver_desk.specs.Added.{AddsRead, AddsWork};
ghost use Rattle.driver_desk.specs.Cards.{IsReadCard, IsAskedCard, ready_of};
ghost use Rattle.driver_desk.specs.Endings.{MayEnd, Ends, Read};
ghost use Rattle.driver_desk.specs.Places.{IsAt, AreLost};
ghost use Rattle.driver_desk.specs.On.{IsOn, behind, IsInHand, Grows, Keeps, Moves};
ghost use Rattle.driver_desk.specs.On.{IsOpened, IsNotOpened, IsReplied, AfterReply};

use crate::card_read::read_card;
use crate::closed_card::{Work, close_empty, close_unread, end_told, refuse};
use crate::late::Late;
use crate::laws::desk_laws;
use crate::notes::note_down;
use crate::recorder::Recorder;
use checkout_core::{Event, OpenCause};
use convert_plan::Card;
use driver_line::{Line, SessionStart};
use edge_kit::{Blob, Gate, Leaf, Point, SendFault, Starter};
use filter_proto::Asked;
use filter_words::Reply;
use std::alloc::Global;
use tree_encoding::Prepared;

/// Whose desk it is.
#[derive(Clone, Copy)]
pub(crate) struct Seat {
    pub actor: u32,
    pub driver: u32,
    pub required: bool,
}

/// A desk while it serves its cards: its line, the cards that are late, the notes of its talk, and whether its driver
/// aborted. There is room for all notes.
#[derive(Drop)]
pub(crate) struct Serving<S: Starter, B: Blob, L: Leaf> {
    pub alloc: Global,
    pub seat: Seat,
    pub line: Line<S>,
    pub late: Late<B, L>,
    pub talk: Vec<Event>,
    pub aborted: bool,
}

/// A card, with its place among those of its driver.
#[derive(Drop)]
pub(crate) struct Placed<B: Blob, L: Leaf> {
    pub place: u32,
    pub card: Card<B, L>,
}

/// Closes the cards that are late: their driver has lost them.
pub(crate) fn close_late<B: Blob, L: Leaf, C: Recorder<B, L>>(
    late: &mut Late<B, L>,
    recorder: &mut C,
)
    requires ready { AreReady (C.seen recorder.old).standing (cards_of late.old) }
    requires next { (rest : List ℕ) × (first : ℕ) × (t : Talk)
        × AreLost (C.seen recorder.old).standing (C.seen recorder.old).given (paths_of (cards_of late.old)) rest
        first t }
    ensures next { (rest : List ℕ) (first : ℕ) (t : Talk)
        → AreLost (C.seen recorder.old).standing (C.seen recorder.old).given (paths_of (cards_of late.old)) rest first t
        → IsAt (C.seen recorder.new).standing (C.seen recorder.new).given rest rest first t }
    ensures grows { Grows (C.seen recorder.old) (C.seen recorder.new) }
    ensures closed { AreClosings IsBare (C.seen recorder.old).given (C.seen recorder.new).given }
    ensures emptied { IsEmptied late.old late.new }
{
    desk_laws();
    while let Some(work) = late.next_late() {
        close_empty(work, Ok(()), recorder);
    }
}

impl<S: Starter, B: Blob, L: Leaf> Serving<S, B, L> {
    /// Opens a session for a card. Where that fails, the cause comes.
    fn open_new<C: Recorder<B, L>>(&mut self, recorder: &mut C, path: u32) -> Option<OpenCause>
        requires on { IsOn self.old (C.seen recorder.old) (path ∷ []) (behind self.old.late path) }
        requires none { self.old.line.session ≡ None }
        requires going { self.old.aborted ≡ false }
        ensures opens { MatchOption result
            (IsOpened path (behind self.old.late path) self.old (C.seen recorder.old) self.new (C.seen recorder.new))
            (λ cause. IsNotOpened cause path (behind self.old.late path) self.old (C.seen recorder.old)
            self.new (C.seen recorder.new)) }
    {
        desk_laws();
        let driver = self.seat.driver;
        match self.line.open() {
            SessionStart::Live(caps) => {
                note_down(recorder, &mut self.talk, Event::Opened { driver, caps });
                None
            }
            SessionStart::Failed(cause) => {
                note_down(recorder, &mut self.talk, Event::OpenFailed { path, cause });
                Some(cause)
            }
        }
    }

    /// Opens a session for a card, where none is open.
    fn open_for<C: Recorder<B, L>>(&mut self, recorder: &mut C, path: u32) -> Option<OpenCause>
        requires on { IsOn self.old (C.seen recorder.old) (path ∷ []) (behind self.old.late path) }
        requires going { self.old.aborted ≡ false }
        ensures opens { MatchOption result
            (IsOpened path (behind self.old.late path) self.old (C.seen recorder.old) self.new (C.seen recorder.new))
            (λ cause. IsNotOpened cause path (behind self.old.late path) self.old (C.seen recorder.old)
            self.new (C.seen recorder.new)) }
    {
        if self.line.is_open() {
            return None;
        }
        self.open_new(recorder, path)
    }

    /// What becomes of a card and of those that are late after the reply to its first request.
    fn after_reply<C: Recorder<B, L>>(
        &mut self,
        recorder: &mut C,
        place: u32,
        work: Work<B, L>,
        asked: Asked,
    )
        requires replied { IsReplied self.old (C.seen recorder.old) asked.reply work.card.path
            (behind self.old.late work.card.path) }
        requires asked { IsAskedCard (C.seen recorder.old).standing (card_seen B.told B.seen L.seen work.card)
            work.unencoded asked.put }
        requires untouched { asked.reply ≡ Reply.Delayed → IsReadCard (C.seen recorder.old).standing
            (card_seen B.told B.seen L.seen work.card) work.unencoded }
        requires here { slice_get self.old.late.numbers place ≡ Some work.card.path }
        requires idle { AreIdle place self.old.late }
        ensures on { IsOn self.new (C.seen recorder.new) []
            (behind self.old.late work.card.path) }
        ensures after { AfterReply asked.reply asked.put place (card_seen B.told B.seen L.seen work.card) self.old
            (C.seen recorder.old) self.new (C.seen recorder.new) }
    {
        desk_laws();
        let Asked { reply, put } = asked;
        match reply {
            Reply::Delayed => self.late.keep(place, work),
            Reply::Content | Reply::Error | Reply::ErrorAfter => {
                end_told(work, self.seat.required, reply, put, recorder);
            }
            Reply::Abort | Reply::Broken(_) | Reply::NoMemory => {
                end_told(work, self.seat.required, reply, put, recorder);
                close_late(&mut self.late, recorder);
            }
        }
    }

    /// Asks for a card in the open session.
    fn ask_card<C: Recorder<B, L>, G: Gate>(
        &mut self,
        recorder: &mut C,
        gate: &G,
        placed: Placed<B, L>,
        prepared: Prepared,
    )
        requires on { IsOn self.old (C.seen recorder.old) (placed.card.path ∷ [])
            (behind self.old.late placed.card.path) }
        requires opened { IsOpen self.old.line.session }
        requires hand { IsInHand self.old.late (C.seen recorder.old).standing placed.place
            (card_seen B.told B.seen L.seen placed.card) }
        requires prepared { IsPrepared (card_seen B.told B.seen L.seen placed.card) prepared }
        ensures on { IsOn self.new (C.seen recorder.new) []
            (behind self.old.late placed.card.path) }
        ensures keeps { Keeps placed.place self.old (C.seen recorder.old) self.new (C.seen recorder.new) }
        ensures read { AddsRead (C.seen recorder.old).given (C.seen recorder.new).given }
        ensures moves { (paths : Paths) → label_in paths placed.card.path ≡ (placed.card.text, placed.card.object)
            → paths.content placed.card.path ≡ prepared.bytes → Moves paths (placed.card.path ∷ [])
            (placed.card.path ∷ []) [] self.old (C.seen recorder.old) self.new (C.seen recorder.new) }
    {
        desk_laws();
        let Placed { place, mut card } = placed;
        let path = card.path;
        let lent = &mut card;
        let asked = self.line.ask(
            lent.text.as_slice(),
            &lent.object,
            prepared.bytes.as_slice(),
            &mut lent.leaf,
        );
        let reply = asked.reply;
        note_down(recorder, &mut self.talk, Event::Answered { path, reply });
        gate.at(self.seat.actor, path, Point::Replied);
        let work = keep_ready(card, prepared, self.seat.required);
        self.aborted = is_abort(reply);
        self.after_reply(recorder, place, work, asked);
    }

    /// Serves one card whose content is prepared.
    fn serve_card<C: Recorder<B, L>, G: Gate>(
        &mut self,
        recorder: &mut C,
        gate: &G,
        placed: Placed<B, L>,
        prepared: Prepared,
    )
        requires on { IsOn self.old (C.seen recorder.old) (placed.card.path ∷ [])
            (behind self.old.late placed.card.path) }
        requires going { self.old.aborted ≡ false }
        requires hand { IsInHand self.old.late (C.seen recorder.old).standing placed.place
            (card_seen B.told B.seen L.seen placed.card) }
        requires prepared { IsPrepared (card_seen B.told B.seen L.seen placed.card) prepared }
        ensures on { IsOn self.new (C.seen recorder.new) []
            (behind self.old.late placed.card.path) }
        ensures keeps { Keeps placed.place self.old (C.seen recorder.old) self.new (C.seen recorder.new) }
        ensures read { AddsRead (C.seen recorder.old).given (C.seen recorder.new).given }
        ensures moves { (paths : Paths) → label_in paths placed.card.path ≡ (placed.card.text, placed.card.object)
            → paths.content placed.card.path ≡ prepared.bytes → Moves paths [] (placed.card.path ∷ []) [] self.old
            (C.seen recorder.old) self.new (C.seen recorder.new) }
    {
        desk_laws();
        if let Some(cause) = self.open_for(recorder, placed.card.path) {
            let work = keep_ready(placed.card, prepared, self.seat.required);
            not_opened(work, self.seat.required, cause, recorder);
            return;
        }
        if !self.line.has_smudge() {
            let work = keep_ready(placed.card, prepared, self.seat.required);
            refuse(work, self.seat.required, Ok(()), recorder);
            return;
        }
        self.ask_card(recorder, gate, placed, prepared);
    }

    /// Serves one card.
    pub fn serve_one<C: Recorder<B, L>, G: Gate>(
        &mut self,
        recorder: &mut C,
        gate: &G,
        mut placed: Placed<B, L>,
    )
        requires on { IsOn self.old (C.seen recorder.old) []
            (placed.card.path ∷ behind self.old.late placed.card.path) }
        requires hand { IsInHand self.old.late (C.seen recorder.old).standing placed.place
            (card_seen B.told B.seen L.seen placed.card) }
        ensures on { IsOn self.new (C.seen recorder.new) []
            (behind self.old.late placed.card.path) }
        ensures keeps { Keeps placed.place self.old (C.seen recorder.old) self.new (C.seen recorder.new) }
        ensures served { (w : WorkSeen) × (w.card ≡ card_seen B.told B.seen L.seen placed.card)
            × ReadsAs w.card w.content × ((paths : Paths) → FitsWork paths w → Moves paths []
            (asked_of w.card.path w.content) [] self.old
            (C.seen recorder.old) self.new (C.seen recorder.new))
            × AddsWork w.card.path w.content (C.seen recorder.old).given (C.seen recorder.new).given }
    {
        desk_laws();
        match read_card(self.alloc, &mut placed.card) {
            Ok(prepared) => {
                if self.aborted {
                    let work = keep_ready(placed.card, prepared, self.seat.required);
                    refuse(work, self.seat.required, Ok(()), recorder);
                    return;
                }
                self.serve_card(recorder, gate, placed, prepared);
            }
            Err(own) => close_unread(placed.card, recorder, own),
        }
    }
}

/// A card with what was prepared for it, which is dropped where its driver is required.
fn keep_ready<B: Blob, L: Leaf>(
    mut card: Card<B, L>,
    prepared: Prepared,
    required: bool,
) -> Work<B, L>
    ensures path { result.card.path ≡ card.path }
    ensures card { card_seen B.told B.seen L.seen result.card
        ≡ record (card_seen B.told B.seen L.seen card) { ready = ready_of required prepared card.ready } }
    ensures flag { result.unencoded ≡ prepared.unencoded }
{
    let unencoded = prepared.unencoded;
    if required {
        return Work { card, unencoded };
    }
    card.ready = Some(prepared);
    Work { card, unencoded }
}

fn is_abort(reply: Reply) -> bool
    ensures { result ≡ is_abort reply }
{
    match reply {
        Reply::Abort => true,
        _ => false,
    }
}

/// Ends a card for which no session could be opened.
fn not_opened<B: Blob, L: Leaf, C: Recorder<B, L>>(
    work: Work<B, L>,
    required: bool,
    cause: OpenCause,
    recorder: &mut C,
)
    requires asked { IsAskedCard (C.seen recorder.old).standing (card_seen B.told B.seen L.seen work.card)
        work.unencoded (Ok tt) }
    requires bare { Tells (L.seen work.card.leaf).content [] }
    requires required { (C.seen recorder.old).standing.required ≡ required }
    requires may { MayEnd (C.seen recorder.old).standing (C.seen recorder.old).given work.card.path
        (heard_opening cause) }
    ensures ends { Ends (C.seen recorder.old) work.card.path (Read IsBare) (C.seen recorder.new) }
{
    match cause {
        OpenCause::NotStarted | OpenCause::Broken(_) => refuse(work, required, Ok(()), recorder),
        OpenCause::NoMemory => close_empty(work, Ok(()), recorder),
    }
}
