//! The reply to a request for a path: each payload of its content is put when its packet is whole.
ghost use Rattle.std.specs.Prelude.{◌≡◌, ◌≤◌, ◌<◌, ◌+◌, ◌-◌, ◌*◌, ◌++◌, ℕ, Bool, true, false, Ok, List, [], length};
ghost use Rattle.pkt_line.specs.Packets.{Payload};
ghost use Rattle.filter_words.specs.Requests.{first_text, second_text, clean_text};
ghost use Rattle.filter_words.specs.SmudgeReply.{reply_step, reply_start, piece_in};
ghost use Rattle.filter_words.specs.declared.answer_state.AnswerState.TheVariants as state;
ghost use Rattle.edge_kit.specs.Files.{IsOpenLeaf};
ghost use Rattle.edge_kit.specs.Seen.{LeafSeen};
ghost use Rattle.edge_kit.specs.declared.leaf_state.LeafState.TheVariants as leaf_state;
ghost use Rattle.filter_proto.specs.Wires.{Wire, SendsOn};
ghost use Rattle.filter_proto.specs.Exchanges.{IsReading, IsHeard, IsExchange};
ghost use Rattle.filter_proto.specs.Replies.{IsPut, HasPut, EndPut, NotBegun, TouchesNot, reply_end, standing_after};
ghost use Rattle.filter_proto.specs.Complete.{IsComplete};
ghost use Rattle.filter_proto.specs.Steps.{FlushIs, StepIs, StepBegins};
ghost use Rattle.filter_proto.specs.declared.asked.Step.TheVariants as step;

use crate::asked::{Asked, Reading, Step};
use crate::laws::complete;
use crate::sent_parts::SmudgeRequest;
use crate::session::{Session, Standing};
use byte_path::ObjectId;
use edge_kit::{Leaf, Link, SendFault};
use filter_words::{
    AnswerState, BreakCause, MOST_ANSWER, Reply, ReplyPhase, reply_after_flush, reply_after_line,
};
use pkt_line::Next;

/// Puts a piece, if no put has failed before.
fn put_piece<L: Leaf>(put: &mut Result<(), SendFault>, leaf: &mut L, piece: &[u8])
    requires { put.old ≡ Ok tt → IsOpenLeaf (L.seen leaf.old).state }
    ensures put { (before : LeafSeen) (content : List ℕ) → IsPut before (L.seen leaf.old) put.old content
        → IsPut before (L.seen leaf.new) put.new (content ++ piece.now) }
    ensures usable { put.new ≡ Ok tt → IsOpenLeaf (L.seen leaf.new).state }
{
    if put.is_ok() {
        *put = leaf.put(piece);
    }
}

/// Puts a payload of the content. Other payloads aren't put.
#[tactic(auto, using(crate::proofs::Lines::line_begun))]
fn put_line<L: Leaf>(phase: ReplyPhase, put: &mut Result<(), SendFault>, leaf: &mut L, line: &[u8])
    requires { put.old ≡ Ok tt → IsOpenLeaf (L.seen leaf.old).state }
    ensures put { (before : LeafSeen) (content : List ℕ) → IsPut before (L.seen leaf.old) put.old content
        → IsPut before (L.seen leaf.new) put.new (content ++ piece_in (state.On phase) (Payload line.now)) }
    ensures begun { (next : ReplyPhase) (before : LeafSeen)
        → reply_step true phase (Payload line.now) ≡ state.On next
        → NotBegun phase before (L.seen leaf.old) put.old → NotBegun next before (L.seen leaf.new) put.new }
    ensures usable { put.new ≡ Ok tt → IsOpenLeaf (L.seen leaf.new).state }
{
    match phase {
        ReplyPhase::Content => put_piece(put, leaf, line),
        ReplyPhase::KeyList(_) | ReplyPhase::LastKeyList(_) => {}
    }
}

/// Takes a payload. It returns false if there is no room for it.
fn take_line<L: Leaf>(reading: &mut Reading, leaf: &mut L, piece: &[u8]) -> bool
    requires long { length piece.now ≤ 65516 }
    requires usable { reading.old.put ≡ Ok tt → IsOpenLeaf (L.seen leaf.old).state }
    ensures long { result ≡ false → (reading.old.room < 4 + length piece.now)
        × (reading.new ≡ reading.old) × (L.seen leaf.new ≡ L.seen leaf.old) }
    ensures room { result ≡ true → reading.new.room + (4 + length piece.now) ≡ reading.old.room }
    ensures phase { result ≡ true → (d : Bool)
        → reply_step d reading.old.phase (Payload piece.now) ≡ state.On reading.new.phase }
    ensures put { result ≡ true → (before : LeafSeen) (content : List ℕ)
        → IsPut before (L.seen leaf.old) reading.old.put content
        → IsPut before (L.seen leaf.new) reading.new.put
        (content ++ piece_in (state.On reading.old.phase) (Payload piece.now)) }
    ensures begun { result ≡ true → (before : LeafSeen)
        → NotBegun reading.old.phase before (L.seen leaf.old) reading.old.put
        → NotBegun reading.new.phase before (L.seen leaf.new) reading.new.put }
    ensures usable { reading.new.put ≡ Ok tt → IsOpenLeaf (L.seen leaf.new).state }
{
    let size = piece.len() as u64 + 4;
    if reading.room < size {
        return false;
    }
    reading.room -= size;
    let phase = reading.phase;
    reading.phase = reply_after_line(phase, piece);
    put_line(phase, &mut reading.put, leaf, piece);
    true
}

/// Takes a flush packet.
#[tactic(auto, using(crate::proofs::Told::never_late))]
fn take_flush(can_delay: bool, reading: &mut Reading) -> Step
    ensures { FlushIs can_delay reading.old result reading.new }
{
    if reading.room < 4 {
        return Step::End(Reply::Broken(BreakCause::TooLong));
    }
    match reply_after_flush(can_delay, reading.phase) {
        AnswerState::On(phase) => {
            reading.room -= 4;
            reading.phase = phase;
            Step::On
        }
        AnswerState::Done(good) => Step::End(Reply::from(good)),
        AnswerState::Broken(cause) => Step::End(Reply::Broken(cause)),
        AnswerState::Late => unreachable!(),
    }
}

impl<K: Link> Session<K> {
    /// Takes one more packet of a reply, or more bytes.
    #[tactic(auto, using(crate::proofs::More::stands_long, crate::proofs::More::payload_long))]
    fn step<L: Leaf>(&mut self, can_delay: bool, reading: &mut Reading, leaf: &mut L) -> Step
        requires { reading.old.put ≡ Ok tt → IsOpenLeaf (L.seen leaf.old).state }
        ensures step { (start : Wire) (before : LeafSeen) → IsReading (reply_step can_delay) reply_start start
            self.old.wire reading.old.room reading.old.phase (HasPut can_delay before (L.seen leaf.old) reading.old.put)
            → StepIs can_delay start self.new.wire result reading.new before (L.seen leaf.new) }
        ensures begins { (before : LeafSeen) → NotBegun reading.old.phase before (L.seen leaf.old) reading.old.put
            → StepBegins result reading.new before (L.seen leaf.new) }
        ensures smaller { result ≡ step.On → 2 * reading.new.room + (65520 - length self.new.wire.unread)
            < 2 * reading.old.room + (65520 - length self.old.wire.unread) }
        ensures usable { reading.new.put ≡ Ok tt → IsOpenLeaf (L.seen leaf.new).state }
        ensures sent { self.new.wire.sent ≡ self.old.wire.sent }
        ensures stage { self.new.wire.stage ≡ self.old.wire.stage }
        ensures rest { self.new ≡ record self.old { wire = self.new.wire } }
    {
        match self.peek() {
            Ok(Next::NeedMore) => match self.fill() {
                Ok(()) => Step::On,
                Err(cause) => Step::End(Reply::Broken(cause)),
            },
            Ok(Next::Flush) => {
                let step = take_flush(can_delay, reading);
                self.skip(4);
                step
            }
            Ok(Next::Payload(piece)) => {
                let size = 4 + piece.len();
                let fits = take_line(reading, leaf, piece);
                self.skip(size);
                if fits {
                    Step::On
                } else {
                    Step::End(Reply::Broken(BreakCause::TooLong))
                }
            }
            Err(_) => Step::End(Reply::Broken(BreakCause::BadPacket)),
        }
    }

    /// Reads a reply.
    fn read_reply<L: Leaf>(&mut self, can_delay: bool, leaf: &mut L) -> Asked
        requires { IsOpenLeaf (L.seen leaf.old).state }
        ensures heard { IsHeard (reply_step can_delay) reply_start self.old.wire self.new.wire (reply_end result.reply)
            (EndPut can_delay (L.seen leaf.old) (L.seen leaf.new) result.put (reply_end result.reply)) }
        ensures begins { TouchesNot result.reply (L.seen leaf.old) (L.seen leaf.new) result.put }
        ensures sent { self.new.wire.sent ≡ self.old.wire.sent }
        ensures stage { self.new.wire.stage ≡ self.old.wire.stage }
        ensures rest { self.new ≡ record self.old { wire = self.new.wire } }
    {
        let mut reading = Reading {
            room: MOST_ANSWER,
            phase: ReplyPhase::KeyList(None),
            put: Ok(()),
        };
        loop {
            match self.step(can_delay, &mut reading, leaf) {
                Step::On => {}
                Step::End(reply) => {
                    let put = reading.put;
                    return Asked { reply, put };
                }
            }
        }
    }

    /// Reads the reply to a request, if that was sent.
    #[tactic(auto, using(crate::proofs::More::answered, crate::proofs::Lines::request_unsent))]
    fn reply_to<L: Leaf>(
        &mut self,
        sent: Result<(), SendFault>,
        can_delay: bool,
        leaf: &mut L,
    ) -> Asked
        requires usable { IsOpenLeaf (L.seen leaf.old).state }
        ensures exchange { (text : List ℕ) (start : Wire) → SendsOn text start self.old.wire sent
            → IsExchange (reply_step can_delay) reply_start text start self.new.wire (reply_end result.reply)
            (EndPut can_delay (L.seen leaf.old) (L.seen leaf.new) result.put (reply_end result.reply)) }
        ensures begins { TouchesNot result.reply (L.seen leaf.old) (L.seen leaf.new) result.put }
        ensures rest { self.new ≡ record self.old { wire = self.new.wire } }
    {
        match sent {
            Ok(()) => self.read_reply(can_delay, leaf),
            Err(SendFault::Failed) => Asked {
                reply: Reply::Broken(BreakCause::LinkFault),
                put: Ok(()),
            },
            Err(SendFault::NoMemory) => Asked {
                reply: Reply::NoMemory,
                put: Ok(()),
            },
        }
    }

    /// Sends a request and reads its reply.
    fn request<L: Leaf>(&mut self, request: &SmudgeRequest<'_>, leaf: &mut L) -> Asked
        requires usable { IsOpenLeaf (L.seen leaf.old).state }
        requires some { 1 ≤ length request.now.path.now }
        requires few { length request.now.path.now ≤ 4096 }
        ensures exchange { IsExchange (reply_step request.now.can_delay) reply_start
            (first_text request.now.path.now request.now.name.now
            request.now.can_delay request.now.content.now)
            self.old.wire self.new.wire (reply_end result.reply)
            (EndPut request.now.can_delay (L.seen leaf.old) (L.seen leaf.new) result.put
            (reply_end result.reply)) }
        ensures begins { TouchesNot result.reply (L.seen leaf.old) (L.seen leaf.new) result.put }
        ensures rest { self.new ≡ record self.old { wire = self.new.wire } }
    {
        let sent = self.send_smudge(request);
        self.reply_to(sent, request.can_delay, leaf)
    }

    /// Sends a request to clean a content and reads its reply.
    pub(crate) fn request_clean<L: Leaf>(
        &mut self,
        path: &[u8],
        content: &[u8],
        leaf: &mut L,
    ) -> Asked
        requires usable { IsOpenLeaf (L.seen leaf.old).state }
        requires some { 1 ≤ length path.now }
        requires few { length path.now ≤ 4096 }
        ensures exchange { IsExchange (reply_step false) reply_start (clean_text path.now content.now)
            self.old.wire self.new.wire (reply_end result.reply)
            (EndPut false (L.seen leaf.old) (L.seen leaf.new) result.put (reply_end result.reply)) }
        ensures rest { self.new ≡ record self.old { wire = self.new.wire } }
    {
        let sent = self.send_clean(path, content);
        self.reply_to(sent, false, leaf)
    }

    /// Asks for a path with the name of its blob, and with `can-delay=1` exactly if the driver announced `delay`. The
    /// content of the reply is put into the leaf, packet by packet. After a put that failed the rest of the reply is
    /// read and dropped.
    pub fn ask<L: Leaf>(
        &mut self,
        path: &[u8],
        name: &ObjectId,
        content: &[u8],
        leaf: &mut L,
    ) -> Asked
        requires live { self.old.standing ≡ Standing.Live }
        requires smudge { self.old.caps.smudge ≡ true }
        requires fresh { (L.seen leaf.old).state ≡ leaf_state.Fresh }
        requires some { 1 ≤ length path.now }
        requires few { length path.now ≤ 4096 }
        ensures exchange { IsExchange (reply_step self.old.caps.delay) reply_start
            (first_text path.now name.now self.old.caps.delay content.now)
            self.old.wire self.new.wire (reply_end result.reply)
            (EndPut self.old.caps.delay (L.seen leaf.old) (L.seen leaf.new) result.put (reply_end result.reply)) }
        ensures begins { TouchesNot result.reply (L.seen leaf.old) (L.seen leaf.new) result.put }
        ensures complete { IsComplete (reply_step self.old.caps.delay) reply_start
            self.old.wire self.new.wire (reply_end result.reply) }
        ensures standing { self.new ≡ record self.old {
          wire = self.new.wire;
          standing = standing_after result.reply;
        } }
    {
        complete();
        let can_delay = self.caps().delay;
        let request = SmudgeRequest {
            path,
            name,
            can_delay,
            content,
        };
        let asked = self.request(&request, leaf);
        self.set_standing(standing_after(asked.reply));
        asked
    }

    /// Asks again for a path that was delayed and then listed, with an empty content and without `can-delay=1`.
    #[tactic(auto, unfolding(filter_words::specs::Requests::second_text))]
    pub fn ask_again<L: Leaf>(&mut self, path: &[u8], name: &ObjectId, leaf: &mut L) -> Asked
        requires live { self.old.standing ≡ Standing.Live }
        requires smudge { self.old.caps.smudge ≡ true }
        requires fresh { (L.seen leaf.old).state ≡ leaf_state.Fresh }
        requires some { 1 ≤ length path.now }
        requires few { length path.now ≤ 4096 }
        ensures exchange { IsExchange (reply_step false) reply_start (second_text path.now name.now)
            self.old.wire self.new.wire (reply_end result.reply)
            (EndPut false (L.seen leaf.old) (L.seen leaf.new) result.put (reply_end result.reply)) }
        ensures begins { TouchesNot result.reply (L.seen leaf.old) (L.seen leaf.new) result.put }
        ensures complete { IsComplete (reply_step false) reply_start
            self.old.wire self.new.wire (reply_end result.reply) }
        ensures standing { self.new ≡ record self.old {
          wire = self.new.wire;
          standing = standing_after result.reply;
        } }
    {
        complete();
        let request = SmudgeRequest {
            path,
            name,
            can_delay: false,
            content: b"",
        };
        let asked = self.request(&request, leaf);
        self.set_standing(standing_after(asked.reply));
        asked
    }
}

/// The standing of a session after a reply.
fn standing_after(reply: Reply) -> Standing
    ensures { result ≡ standing_after reply }
{
    match reply {
        Reply::Content | Reply::Error | Reply::ErrorAfter | Reply::Delayed => Standing::Live,
        Reply::Abort => Standing::Aborted,
        Reply::Broken(_) | Reply::NoMemory => Standing::Over,
    }
}
