//! The answer to a list request, packet by packet.
ghost use Rattle.std.specs.Prelude.{◌≡◌, ◌+◌, ◌<◌, ◌^◌, vec_len, length, ◌&&◌, not, ◌∷◌, ◌++◌, [], List, ℕ, map};
ghost use Rattle.std.specs.Prelude.{codes, IfOk};
ghost use Rattle.pkt_line.specs.Packets.{Packet, Payload, Flush, size};
ghost use Rattle.std.specs.Option.{option_map};
ghost use Rattle.std.specs.List.{list_any};
ghost use Rattle.std.specs.Str.{bytes_eq};
ghost use Rattle.filter_words.specs.Outcomes.{outcome, limit, packet_of};
ghost use Rattle.filter_words.specs.Words.{value_of};
ghost use Rattle.filter_words.specs.Listing.{reply_of_good, list_reply_in, name_in, after_name, after_value};
ghost use Rattle.filter_words.specs.Listing.{list_step, list_status, list_start};
ghost use Rattle.filter_words.specs.ListStates.{good_list, list_state, list_phase, bytes_of};

use crate::answer_state::{AnswerState, MOST_ANSWER};
use crate::packet::ReadPacket;
use crate::reply::{BreakCause, ListReply};
use crate::words::{Status, next_status, value_of};
use std::alloc::{AllocError, Global};

/// In which part of the answer to `list_available_blobs` its reading stands: gitattributes(5), "Long Running Filter
/// Process".
#[derive(Clone, Copy)]
pub enum ListPart {
    /// Lines, of which each `pathname=` line names a path.
    Names,
    /// The key list after them, and the status that it has named so far.
    KeyList(Option<Status>),
}

/// How such an answer ended well.
#[derive(Clone, Copy)]
pub enum ListEnd {
    /// With `status=success`.
    Success,
    Abort,
}

/// The answer to a list request as it is read, and the paths that it has named so far, in its order.
#[derive(Drop)]
pub struct Listing<'a> {
    pub state: AnswerState<ListPart, ListEnd>,
    pub names: Vec<&'a [u8]>,
}

/// The reply to a list request that ended well and named this many paths.
pub fn list_reply(end: ListEnd, count: u32) -> ListReply
    ensures { (names : List (List ℕ)) → count ≡ length names
        → result ≡ reply_of_good (good_list end names) }
{
    match end {
        ListEnd::Success => {
            if count == 0 {
                ListReply::Empty
            } else {
                ListReply::Names(count)
            }
        }
        ListEnd::Abort => ListReply::Abort,
    }
}

impl Listing<'_> {
    /// The reply that has come to its end.
    pub fn reply(&self) -> Option<ListReply>
        requires { vec_len self.now.names < 2 ^ 32 }
        ensures { result ≡ list_reply_in
            (list_state self.now.state (map bytes_of self.now.names.items)) }
    {
        match &self.state {
            AnswerState::Done(end) => Some(list_reply(*end, self.names.len() as u32)),
            AnswerState::Broken(cause) => Some(ListReply::Broken(*cause)),
            AnswerState::On(_) | AnswerState::Late => None,
        }
    }
}

/// What a flush packet makes of the answer to a list request.
pub fn list_after_flush(part: ListPart) -> AnswerState<ListPart, ListEnd>
    ensures { (delayed names : List (List ℕ))
        → list_state result names ≡ list_step delayed (list_phase part names) Flush }
{
    match part {
        ListPart::Names => AnswerState::On(ListPart::KeyList(None)),
        ListPart::KeyList(status) => after_list_status(status),
    }
}

fn after_list_status(status: Option<Status>) -> AnswerState<ListPart, ListEnd>
    ensures { (names : List (List ℕ)) → list_state result names ≡ list_status names status }
{
    match status {
        Some(Status::Success) => AnswerState::Done(ListEnd::Success),
        Some(Status::Abort) => AnswerState::Done(ListEnd::Abort),
        Some(Status::Error) => AnswerState::Broken(BreakCause::ListRefused),
        Some(Status::Delayed | Status::Other) | None => AnswerState::Broken(
            BreakCause::UnknownStatus,
        ),
    }
}

/// The path that a line names.
pub fn listed_name(line: &[u8]) -> Option<&[u8]>
    ensures { option_map (λ name. name.now) result ≡ value_of (codes "pathname") line.now }
{
    value_of(b"pathname", line)
}

fn has_slice(names: &[&[u8]], name: &[u8]) -> bool
    ensures { result ≡ list_any (λ known. bytes_eq known.now name.now) names.now }
{
    names.iter().any(|known| *known == name)
}

/// Whether a path is delayed and wasn't listed before.
fn is_expected(delayed: &[&[u8]], listed: &[&[u8]], name: &[u8]) -> bool
    ensures { result ≡ (name_in (map bytes_of delayed.now) name.now
        && not (name_in (map bytes_of listed.now) name.now)) }
{
    has_slice(delayed, name) && !has_slice(listed, name)
}

/// What the answer is after a line that names this path: one that is delayed, and wasn't listed before.
fn name_listed<'a>(
    delayed: &[&[u8]],
    mut names: Vec<&'a [u8]>,
    name: &'a [u8],
) -> Result<Listing<'a>, AllocError>
    ensures { IfOk result (λ l. list_state l.state (map bytes_of l.names.items)
        ≡ after_name (map bytes_of delayed.now) (map bytes_of names.entry.items) name.now) }
{
    if is_expected(delayed, names.as_slice(), name) {
        names.push(name)?;
        Ok(Listing {
            state: AnswerState::On(ListPart::Names),
            names,
        })
    } else {
        Ok(Listing {
            state: AnswerState::Broken(BreakCause::StrangePath),
            names,
        })
    }
}

/// What the answer is after a line that belongs to it.
fn list_after_line<'a>(
    delayed: &[&[u8]],
    part: ListPart,
    names: Vec<&'a [u8]>,
    line: &'a [u8],
) -> Result<Listing<'a>, AllocError>
    ensures { IfOk result (λ l. list_state l.state (map bytes_of l.names.items)
        ≡ list_step (map bytes_of delayed.now) (list_phase part (map bytes_of names.entry.items))
        (Payload line.now)) }
{
    match part {
        ListPart::Names => match listed_name(line) {
            Some(name) => name_listed(delayed, names, name),
            None => Ok(Listing {
                state: AnswerState::On(ListPart::Names),
                names,
            }),
        },
        ListPart::KeyList(status) => Ok(Listing {
            state: AnswerState::On(ListPart::KeyList(next_status(status, line))),
            names,
        }),
    }
}

/// What one more packet makes of the answer to a list request, with this much room for it, while these paths are
/// delayed, and the room that is left. It begins with `MOST_ANSWER`, `ListPart::Names` and no names, and looks for each
/// name by a scan over the paths.
pub fn list_after_packet<'a>(
    delayed: &[&[u8]],
    room: u64,
    listing: Listing<'a>,
    packet: &ReadPacket<'a>,
) -> Result<(u64, Listing<'a>), AllocError>
    ensures counted { IfOk result (λ next. (part : ListPart) → next.1.state ≡ AnswerState.On part
        → next.0 + size (packet_of packet.now) ≡ room) }
    ensures outcome { IfOk result (λ next. (rest : List Packet)
        → outcome (list_step (map bytes_of delayed.now)) next.0
        (list_state next.1.state (map bytes_of next.1.names.items)) rest
        ≡ outcome (list_step (map bytes_of delayed.now)) room
        (list_state listing.entry.state (map bytes_of listing.entry.names.items))
        (packet_of packet.now ∷ rest)) }
{
    let Listing { state, names } = listing;
    let AnswerState::On(part) = state else {
        let state = AnswerState::Late;
        return Ok((room, Listing { state, names }));
    };
    let size = packet.size();
    if size > room {
        let state = AnswerState::Broken(BreakCause::TooLong);
        return Ok((room, Listing { state, names }));
    }
    match packet {
        ReadPacket::Payload(line) => {
            let next = list_after_line(delayed, part, names, line)?;
            Ok((room - size, next))
        }
        ReadPacket::Flush => {
            let state = list_after_flush(part);
            Ok((room - size, Listing { state, names }))
        }
    }
}
