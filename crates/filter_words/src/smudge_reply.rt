//! The reply to a smudge request, packet by packet.
ghost use Rattle.std.specs.Prelude.{◌≡◌, ◌+◌, ◌∷◌, List, ℕ, Bool, map};
ghost use Rattle.pkt_line.specs.Packets.{Packet, Payload, Flush, size};
ghost use Rattle.filter_words.specs.Outcomes.{outcome, limit, packet_of};
ghost use Rattle.filter_words.specs.SmudgeReply.{reply_in, reply_step, reply_start, first_state, last_state};

use crate::answer_state::{AnswerState, MOST_ANSWER};
use crate::packet::ReadPacket;
use crate::reply::{BreakCause, Reply};
use crate::words::{Status, next_status};

/// How a reply to a smudge request ended well: gitattributes(5), "Long Running Filter Process".
#[derive(Clone, Copy, PartialEq, Eq)]
pub enum GoodReply {
    Content,
    Error,
    /// `status=error` after the content.
    ErrorAfter,
    Abort,
    Delayed,
}

/// In which part of a reply its reading stands, and the status that its key list has named so far.
#[derive(Clone, Copy, PartialEq, Eq)]
pub enum ReplyPhase {
    KeyList(Option<Status>),
    Content,
    /// The key list after the content.
    LastKeyList(Option<Status>),
}

impl From<GoodReply> for Reply {
    ghost use Rattle.std.specs.Prelude.{◌≡◌};
    ghost use Rattle.filter_words.specs.SmudgeReply.{reply_of_good};

    ghost from_gives = { λ good reply. reply ≡ reply_of_good good };

    fn from(good: GoodReply) -> Reply {
        match good {
            GoodReply::Content => Reply::Content,
            GoodReply::Error => Reply::Error,
            GoodReply::ErrorAfter => Reply::ErrorAfter,
            GoodReply::Abort => Reply::Abort,
            GoodReply::Delayed => Reply::Delayed,
        }
    }
}

/// The reply that has come to its end.
pub fn reply_of(state: AnswerState<ReplyPhase, GoodReply>) -> Option<Reply>
    ensures { result ≡ reply_in state }
{
    match state {
        AnswerState::Done(good) => Some(Reply::from(good)),
        AnswerState::Broken(cause) => Some(Reply::Broken(cause)),
        AnswerState::On(_) | AnswerState::Late => None,
    }
}

/// What a payload makes of a reply.
pub fn reply_after_line(phase: ReplyPhase, line: &[u8]) -> ReplyPhase
    ensures { (d : Bool) → reply_step d phase (Payload line.now) ≡ AnswerState.On result }
{
    match phase {
        ReplyPhase::KeyList(status) => ReplyPhase::KeyList(next_status(status, line)),
        ReplyPhase::Content => ReplyPhase::Content,
        ReplyPhase::LastKeyList(status) => ReplyPhase::LastKeyList(next_status(status, line)),
    }
}

/// What a flush packet makes of a reply to a request that had `can-delay=1`, or not.
pub fn reply_after_flush(can_delay: bool, phase: ReplyPhase) -> AnswerState<ReplyPhase, GoodReply>
    ensures { result ≡ reply_step can_delay phase Flush }
{
    match phase {
        ReplyPhase::KeyList(status) => after_key_list(can_delay, status),
        ReplyPhase::Content => AnswerState::On(ReplyPhase::LastKeyList(None)),
        ReplyPhase::LastKeyList(status) => after_last_key_list(status),
    }
}

fn after_key_list(can_delay: bool, status: Option<Status>) -> AnswerState<ReplyPhase, GoodReply>
    ensures { result ≡ first_state can_delay status }
{
    match status {
        Some(Status::Success) => AnswerState::On(ReplyPhase::Content),
        Some(Status::Error) => AnswerState::Done(GoodReply::Error),
        Some(Status::Abort) => AnswerState::Done(GoodReply::Abort),
        Some(Status::Delayed) => {
            if can_delay {
                AnswerState::Done(GoodReply::Delayed)
            } else {
                AnswerState::Broken(BreakCause::StrangeDelay)
            }
        }
        Some(Status::Other) | None => AnswerState::Broken(BreakCause::UnknownStatus),
    }
}

fn after_last_key_list(status: Option<Status>) -> AnswerState<ReplyPhase, GoodReply>
    ensures { result ≡ last_state status }
{
    match status {
        Some(Status::Success) | None => AnswerState::Done(GoodReply::Content),
        Some(Status::Error) => AnswerState::Done(GoodReply::ErrorAfter),
        Some(Status::Abort) => AnswerState::Done(GoodReply::Abort),
        Some(Status::Delayed | Status::Other) => AnswerState::Broken(BreakCause::UnknownStatus),
    }
}

/// What one more packet makes of a reply, with this much room for it, and the room that is left. A reply begins with
/// `MOST_ANSWER` and `ReplyPhase::KeyList(None)`.
pub fn reply_after_packet(
    can_delay: bool,
    room: u64,
    state: AnswerState<ReplyPhase, GoodReply>,
    packet: &ReadPacket<'_>,
) -> (u64, AnswerState<ReplyPhase, GoodReply>)
    ensures counted { (next : ReplyPhase) → result.1 ≡ AnswerState.On next
        → result.0 + size (packet_of packet.now) ≡ room }
    ensures outcome { (rest : List Packet) → outcome (reply_step can_delay) result.0 result.1 rest
        ≡ outcome (reply_step can_delay) room state (packet_of packet.now ∷ rest) }
{
    let AnswerState::On(phase) = state else {
        return (room, AnswerState::Late);
    };
    let size = packet.size();
    if size > room {
        return (room, AnswerState::Broken(BreakCause::TooLong));
    }
    match packet {
        ReadPacket::Payload(line) => (room - size, AnswerState::On(reply_after_line(phase, line))),
        ReadPacket::Flush => (room - size, reply_after_flush(can_delay, phase)),
    }
}
