//! The handshake of a session, gitattributes(5), "Long Running Filter Process": two texts, and two answers that count
//! as one.
ghost use Rattle.std.specs.Prelude.{◌≡◌, ◌<◌, ◌+◌, ◌-◌, ◌*◌, ℕ, true, false, List, []};
ghost use Rattle.std.specs.Prelude.{IfOk, OnOk, IfErr, length, vec_len, ◌||◌};
ghost use Rattle.pkt_line.specs.Packets.{Packet, Payload};
ghost use Rattle.pkt_line.specs.Packets.{size as packet_size};
ghost use Rattle.filter_words.specs.declared.reply.BreakCause.{BreakCause};
ghost use Rattle.filter_words.specs.declared.reply.Caps.{Caps};
ghost use Rattle.filter_words.specs.Handshake.{handshake_step, handshake_start};
ghost use Rattle.filter_words.specs.Requests.{hello_text, caps_text};
ghost use Rattle.filter_proto.specs.Wires.{Wire, SessionSeen, wire_of};
ghost use Rattle.filter_proto.specs.Exchanges.{Good, Broke, OutOfMemory, IsReading, IsHeard};
ghost use Rattle.filter_proto.specs.Complete.{IsComplete};
ghost use Rattle.filter_proto.specs.Openings.{IsOpening, Announces, is_clean, HelloWith, is_early, HandIs, TakesState};
ghost use Rattle.filter_proto.specs.Openings.{caps_end, opening_end, GoesAfter};
ghost use Rattle.filter_proto.specs.declared.handshake.HandStep.TheVariants as hand;

use crate::laws::complete;
use crate::session::{Session, Standing};
use edge_kit::{Link, SendFault};
use filter_words::{
    AnswerState, BreakCause, Caps, HandshakePhase, MOST_ANSWER, announces_clean,
    handshake_after_flush, handshake_after_line, push_caps, push_hello,
};
use pkt_line::{Next, PktReader};
use std::alloc::{AllocError, Global};

/// What came of the opening of a session.
#[derive(Drop)]
pub enum Begun<K: Link> {
    Live(Session<K>),
    Broken(K, BreakCause),
    NoMemory(K),
}

/// What came of the opening of a session. If it is live, `clean` says whether the driver announced `clean`.
#[derive(Drop)]
pub(crate) struct Opened<K: Link> {
    pub begun: Begun<K>,
    pub clean: bool,
}

/// What a good handshake announces.
#[derive(Clone, Copy)]
pub(crate) struct Announced {
    pub caps: Caps,
    pub clean: bool,
}

/// How far the reading of a handshake has come, and whether a line so far announces `clean`.
#[derive(Drop)]
pub(crate) struct HandReading {
    pub room: u64,
    pub phase: HandshakePhase,
    pub clean: bool,
}

/// Why a handshake failed.
#[derive(Clone, Copy)]
pub(crate) enum OpenFault {
    Broken(BreakCause),
    NoMemory,
}

/// What one more packet, or more bytes, made of a handshake.
#[derive(Clone, Copy)]
pub(crate) enum HandStep {
    On,
    End(Result<Caps, BreakCause>),
}

/// Takes a packet of this many bytes, which leads to this state. There may be no room for it.
#[tactic(auto, using(crate::proofs::Hands::hand_late))]
fn take_state(
    state: AnswerState<HandshakePhase, Caps>,
    size: u64,
    room: &mut u64,
    phase: &mut HandshakePhase,
) -> HandStep
    requires { (x : Packet) × (size ≡ packet_size x) × (state ≡ handshake_step phase.old x) }
    ensures { (x : Packet) → size ≡ packet_size x → state ≡ handshake_step phase.old x
        → TakesState room.old phase.old x result room.new phase.new }
{
    if *room < size {
        return HandStep::End(Err(BreakCause::TooLong));
    }
    match state {
        AnswerState::On(next) => {
            *room -= size;
            *phase = next;
            HandStep::On
        }
        AnswerState::Done(caps) => HandStep::End(Ok(caps)),
        AnswerState::Broken(cause) => HandStep::End(Err(cause)),
        AnswerState::Late => unreachable!(),
    }
}

/// Whether a line so far announces `clean`, after one more line.
fn clean_after(before: bool, line: &[u8]) -> bool
    ensures { result ≡ before || is_clean (Payload line.now) }
{
    before || announces_clean(line)
}

impl<K: Link> Session<K> {
    /// Takes one more packet of a handshake, or more bytes.
    #[tactic(auto, using(crate::proofs::More::stands_long))]
    fn hand_step(&mut self, reading: &mut HandReading) -> HandStep
        ensures step { (start : Wire) → IsReading handshake_step handshake_start start
            self.old.wire reading.old.room reading.old.phase
            (HelloWith (is_early reading.old.phase) reading.old.clean)
            → HandIs (is_early reading.old.phase) start self.new.wire result reading.new }
        ensures late { is_early reading.old.phase ≡ true → (caps : Caps) → result ≡ hand.End (Ok caps) → ⊥ }
        ensures stays { result ≡ hand.On → is_early reading.old.phase ≡ false → is_early reading.new.phase ≡ false }
        ensures smaller { result ≡ hand.On → 2 * reading.new.room + (65520 - length self.new.wire.unread)
            < 2 * reading.old.room + (65520 - length self.old.wire.unread) }
        ensures sent { self.new.wire.sent ≡ self.old.wire.sent }
        ensures stage { self.new.wire.stage ≡ self.old.wire.stage }
        ensures rest { self.new ≡ record self.old { wire = self.new.wire } }
    {
        match self.peek() {
            Ok(Next::NeedMore) => match self.fill() {
                Ok(()) => HandStep::On,
                Err(cause) => HandStep::End(Err(cause)),
            },
            Ok(Next::Flush) => {
                let state = handshake_after_flush(reading.phase);
                let step = take_state(state, 4, &mut reading.room, &mut reading.phase);
                self.skip(4);
                step
            }
            Ok(Next::Payload(line)) => {
                let size = 4 + line.len();
                let state = handshake_after_line(reading.phase, line);
                reading.clean = clean_after(reading.clean, line);
                let step = take_state(state, size as u64, &mut reading.room, &mut reading.phase);
                self.skip(size);
                step
            }
            Err(_) => HandStep::End(Err(BreakCause::BadPacket)),
        }
    }

    /// Reads the first answer.
    fn read_hello(&mut self, reading: &mut HandReading) -> Result<(), BreakCause>
        requires { is_early reading.old.phase ≡ true }
        ensures ok { OnOk result ((start : Wire) → IsReading handshake_step handshake_start start
            self.old.wire reading.old.room reading.old.phase (HelloWith true reading.old.clean)
            → IsReading handshake_step handshake_start start
            self.new.wire reading.new.room reading.new.phase (HelloWith false reading.new.clean)) }
        ensures late { OnOk result (is_early reading.new.phase ≡ false) }
        ensures err { IfErr result (λ why. (start : Wire) → IsReading handshake_step handshake_start start
            self.old.wire reading.old.room reading.old.phase (HelloWith true reading.old.clean)
            → IsHeard handshake_step handshake_start start self.new.wire (Broke why)
            (HelloWith true reading.new.clean)) }
        ensures sent { self.new.wire.sent ≡ self.old.wire.sent }
        ensures stage { self.new.wire.stage ≡ self.old.wire.stage }
        ensures rest { self.new ≡ record self.old { wire = self.new.wire } }
    {
        while is_early(reading.phase) {
            match self.hand_step(reading) {
                HandStep::On => {}
                HandStep::End(Err(cause)) => return Err(cause),
                HandStep::End(Ok(_)) => unreachable!(),
            }
        }
        Ok(())
    }

    /// Reads the second answer.
    fn read_caps(&mut self, reading: &mut HandReading) -> Result<Caps, BreakCause>
        requires { is_early reading.old.phase ≡ false }
        ensures heard { (start : Wire) → IsReading handshake_step handshake_start start
            self.old.wire reading.old.room reading.old.phase (HelloWith false reading.old.clean)
            → IsHeard handshake_step handshake_start start self.new.wire (caps_end result)
            (HelloWith false reading.new.clean) }
        ensures sent { self.new.wire.sent ≡ self.old.wire.sent }
        ensures stage { self.new.wire.stage ≡ self.old.wire.stage }
        ensures rest { self.new ≡ record self.old { wire = self.new.wire } }
    {
        loop {
            match self.hand_step(reading) {
                HandStep::On => {}
                HandStep::End(end) => return end,
            }
        }
    }

    /// Reads the first answer, sends the second text and reads the second answer.
    fn shake_on(&mut self, caps: &[u8]) -> Result<Announced, OpenFault>
        requires { caps.now ≡ caps_text }
        ensures after { GoesAfter self.old.wire self.new.wire result }
        ensures rest { self.new ≡ record self.old { wire = self.new.wire } }
    {
        let mut reading = HandReading {
            room: MOST_ANSWER,
            phase: HandshakePhase::Server,
            clean: false,
        };
        match self.read_hello(&mut reading) {
            Ok(()) => self.shake_caps(caps, &mut reading),
            Err(cause) => Err(OpenFault::Broken(cause)),
        }
    }

    /// Sends the second text and reads the second answer.
    fn shake_caps(&mut self, caps: &[u8], reading: &mut HandReading) -> Result<Announced, OpenFault>
        requires text { caps.now ≡ caps_text }
        requires late { is_early reading.old.phase ≡ false }
        ensures after { (start : Wire) → self.old.wire.sent ≡ start.sent → self.old.wire.stage ≡ start.stage
            → IsReading handshake_step handshake_start start
            self.old.wire reading.old.room reading.old.phase (HelloWith false reading.old.clean)
            → GoesAfter start self.new.wire result }
        ensures rest { self.new ≡ record self.old { wire = self.new.wire } }
    {
        match self.send(caps) {
            Ok(()) => match self.read_caps(reading) {
                Ok(caps) => Ok(Announced {
                    caps,
                    clean: reading.clean,
                }),
                Err(cause) => Err(OpenFault::Broken(cause)),
            },
            Err(SendFault::Failed) => Err(OpenFault::Broken(BreakCause::LinkFault)),
            Err(SendFault::NoMemory) => Err(OpenFault::NoMemory),
        }
    }

    /// The handshake.
    fn shake(&mut self, hello: &[u8], caps: &[u8]) -> Result<Announced, OpenFault>
        requires hello { hello.now ≡ hello_text }
        requires caps { caps.now ≡ caps_text }
        ensures opening { IsOpening self.old.wire self.new.wire (opening_end result) }
        ensures announced { IfOk result (λ a. Announces a.clean self.old.wire self.new.wire a.caps) }
        ensures rest { self.new ≡ record self.old { wire = self.new.wire } }
    {
        match self.send(hello) {
            Ok(()) => self.shake_on(caps),
            Err(SendFault::Failed) => Err(OpenFault::Broken(BreakCause::LinkFault)),
            Err(SendFault::NoMemory) => Err(OpenFault::NoMemory),
        }
    }

    /// The handshake. It is complete if what is left unread begins with two good answers.
    fn shake_whole(&mut self, hello: &[u8], caps: &[u8]) -> Result<Announced, OpenFault>
        requires hello { hello.now ≡ hello_text }
        requires caps { caps.now ≡ caps_text }
        ensures opening { IsOpening self.old.wire self.new.wire (opening_end result) }
        ensures announced { IfOk result (λ a. Announces a.clean self.old.wire self.new.wire a.caps) }
        ensures complete { IsComplete handshake_step handshake_start self.old.wire self.new.wire (opening_end result) }
        ensures rest { self.new ≡ record self.old { wire = self.new.wire } }
    {
        complete();
        self.shake(hello, caps)
    }

    /// Opens a session over a link: the handshake and the capabilities. It takes all the memory that a reply needs.
    pub fn begin(alloc: Global, link: K) -> Begun<K>
        ensures live { (s : SessionSeen) → result ≡ Begun.Live s
            → IsOpening (wire_of [] (K.seen link)) s.wire (Good s.caps) }
        ensures standing { (s : SessionSeen) → result ≡ Begun.Live s → s.standing ≡ Standing.Live }
        ensures broken { (l : K) (why : BreakCause) → result ≡ Begun.Broken l why
            → (unread : List ℕ) × IsOpening (wire_of [] (K.seen link)) (wire_of unread (K.seen l)) (Broke why) }
        ensures live_complete { (s : SessionSeen) → result ≡ Begun.Live s
            → IsComplete handshake_step handshake_start (wire_of [] (K.seen link)) s.wire (Good s.caps) }
        ensures broken_complete { (l : K) (why : BreakCause) → result ≡ Begun.Broken l why
            → IsComplete handshake_step handshake_start (wire_of [] (K.seen link)) (wire_of [] (K.seen l)) (Broke why) }
        ensures no_memory { (l : K) → result ≡ Begun.NoMemory l
            → (unread : List ℕ) × IsOpening (wire_of [] (K.seen link)) (wire_of unread (K.seen l)) OutOfMemory }
    {
        Session::open(alloc, link).begun
    }

    /// Opens a session over a link, as `begin` does, and says what the driver announced of `clean`.
    pub(crate) fn open(alloc: Global, link: K) -> Opened<K>
        ensures live { (s : SessionSeen) → result.begun ≡ Begun.Live s
            → IsOpening (wire_of [] (K.seen link)) s.wire (Good s.caps) }
        ensures announced { (s : SessionSeen) → result.begun ≡ Begun.Live s
            → Announces result.clean (wire_of [] (K.seen link)) s.wire s.caps }
        ensures standing { (s : SessionSeen) → result.begun ≡ Begun.Live s → s.standing ≡ Standing.Live }
        ensures broken { (l : K) (why : BreakCause) → result.begun ≡ Begun.Broken l why
            → (unread : List ℕ) × IsOpening (wire_of [] (K.seen link)) (wire_of unread (K.seen l)) (Broke why) }
        ensures live_complete { (s : SessionSeen) → result.begun ≡ Begun.Live s
            → IsComplete handshake_step handshake_start (wire_of [] (K.seen link)) s.wire (Good s.caps) }
        ensures broken_complete { (l : K) (why : BreakCause) → result.begun ≡ Begun.Broken l why
            → IsComplete handshake_step handshake_start (wire_of [] (K.seen link)) (wire_of [] (K.seen l)) (Broke why) }
        ensures no_memory { (l : K) → result.begun ≡ Begun.NoMemory l
            → (unread : List ℕ) × IsOpening (wire_of [] (K.seen link)) (wire_of unread (K.seen l)) OutOfMemory }
    {
        let Ok(rooms) = rooms_for(alloc) else {
            return unclean(Begun::NoMemory(link));
        };
        let Rooms {
            reader,
            piece,
            hello,
            caps,
        } = rooms;
        let mut session = Session::over(alloc, link, reader, piece);
        match session.shake_whole(hello.as_slice(), caps.as_slice()) {
            Ok(Announced { caps, clean }) => {
                session.set_caps(caps);
                let begun = Begun::Live(session);
                Opened { begun, clean }
            }
            Err(OpenFault::Broken(cause)) => unclean(Begun::Broken(session.into_link(), cause)),
            Err(OpenFault::NoMemory) => unclean(Begun::NoMemory(session.into_link())),
        }
    }
}

/// An opening in which nothing was announced.
fn unclean<K: Link>(begun: Begun<K>) -> Opened<K>
    ensures { result.begun ≡ begun }
{
    Opened {
        begun,
        clean: false,
    }
}

/// What a session needs before it begins.
#[derive(Drop)]
struct Rooms {
    reader: PktReader,
    piece: Vec<u8>,
    hello: Vec<u8>,
    caps: Vec<u8>,
}

fn rooms_for(alloc: Global) -> Result<Rooms, AllocError>
    ensures reader { IfOk result (λ r. r.reader.unread ≡ []) }
    ensures piece { IfOk result (λ r. 0 < vec_len r.piece) }
    ensures hello { IfOk result (λ r. r.hello.items ≡ hello_text) }
    ensures caps { IfOk result (λ r. r.caps.items ≡ caps_text) }
{
    let reader = PktReader::reserve(alloc)?;
    let mut piece = Vec::new(alloc);
    piece.resize(65_520, 0)?;
    let mut hello = Vec::new(alloc);
    push_hello(alloc, &mut hello)?;
    let mut caps = Vec::new(alloc);
    push_caps(alloc, &mut caps)?;
    Ok(Rooms {
        reader,
        piece,
        hello,
        caps,
    })
}

/// Whether the first answer is still being read.
fn is_early(phase: HandshakePhase) -> bool
    ensures { result ≡ is_early phase }
{
    match phase {
        HandshakePhase::Server | HandshakePhase::Version | HandshakePhase::EndOfHello => true,
        HandshakePhase::Capabilities(_) => false,
    }
}
