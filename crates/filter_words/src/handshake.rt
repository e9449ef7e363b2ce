//! The answers of a handshake, packet by packet.
ghost use Rattle.std.specs.Prelude.{◌≡◌, ◌+◌, ◌∷◌, List, map};
ghost use Rattle.pkt_line.specs.Packets.{Packet, Payload, Flush, size};
ghost use Rattle.filter_words.specs.Outcomes.{outcome, limit, packet_of};
ghost use Rattle.filter_words.specs.Words.{without_lf};
ghost use Rattle.filter_words.specs.Handshake.{handshake_step, handshake_start, wanted_line, with_capability};
ghost use Rattle.filter_words.specs.Handshake.{announces_clean};

use crate::answer_state::AnswerState;
use crate::packet::ReadPacket;
use crate::reply::{BreakCause, Caps};
use crate::words::without_end;

/// In which part of a handshake the reading of a driver's answers stands: gitattributes(5), "Long Running Filter
/// Process". The first answer is three packets, and the second is lines of capabilities.
#[derive(Clone, Copy, PartialEq, Eq)]
pub enum HandshakePhase {
    /// The line `git-filter-server` is wanted.
    Server,
    /// The line `version=2` is.
    Version,
    /// The flush packet that ends the first answer is.
    EndOfHello,
    /// The capabilities that the second answer has named so far.
    Capabilities(Caps),
}

/// What a payload makes of a handshake.
pub fn handshake_after_line(phase: HandshakePhase, line: &[u8]) -> AnswerState<HandshakePhase, Caps>
    ensures { result ≡ handshake_step phase (Payload line.now) }
{
    match phase {
        HandshakePhase::Server => wanted(line, b"git-filter-server", HandshakePhase::Version),
        HandshakePhase::Version => wanted(line, b"version=2", HandshakePhase::EndOfHello),
        HandshakePhase::EndOfHello => AnswerState::Broken(BreakCause::BadHandshake),
        HandshakePhase::Capabilities(caps) => AnswerState::On(HandshakePhase::Capabilities(
            more_caps(caps, line),
        )),
    }
}

/// What a flush packet makes of a handshake.
pub fn handshake_after_flush(phase: HandshakePhase) -> AnswerState<HandshakePhase, Caps>
    ensures { result ≡ handshake_step phase Flush }
{
    match phase {
        HandshakePhase::Server | HandshakePhase::Version => AnswerState::Broken(
            BreakCause::BadHandshake,
        ),
        HandshakePhase::EndOfHello => AnswerState::On(HandshakePhase::Capabilities(Caps {
            smudge: false,
            delay: false,
        })),
        HandshakePhase::Capabilities(caps) => AnswerState::Done(caps),
    }
}

fn wanted(line: &[u8], text: &[u8], next: HandshakePhase) -> AnswerState<HandshakePhase, Caps>
    ensures { result ≡ wanted_line line.now text.now next }
{
    if without_end(line) == text {
        AnswerState::On(next)
    } else {
        AnswerState::Broken(BreakCause::BadHandshake)
    }
}

fn more_caps(caps: Caps, line: &[u8]) -> Caps
    ensures { result ≡ with_capability caps line.now }
{
    let text = without_end(line);
    Caps {
        smudge: caps.smudge || text == b"capability=smudge".as_slice(),
        delay: caps.delay || text == b"capability=delay".as_slice(),
    }
}

/// Whether a line of capabilities says that the driver cleans contents too: `capability=clean`. It is none of `Caps`,
/// since a checkout asks for no clean.
pub fn announces_clean(line: &[u8]) -> bool
    ensures { result ≡ announces_clean line.now }
{
    without_end(line) == b"capability=clean".as_slice()
}

/// What one more packet makes of a handshake's two answers, with this much room for it, and the room that is left. A
/// handshake begins with `MOST_ANSWER` and `HandshakePhase::Server`.
pub fn handshake_after_packet(
    room: u64,
    state: AnswerState<HandshakePhase, Caps>,
    packet: &ReadPacket<'_>,
) -> (u64, AnswerState<HandshakePhase, Caps>)
    ensures counted { (next : HandshakePhase) → result.1 ≡ AnswerState.On next
        → result.0 + size (packet_of packet.now) ≡ room }
    ensures outcome { (rest : List Packet) → outcome handshake_step result.0 result.1 rest
        ≡ outcome handshake_step room state (packet_of packet.now ∷ rest) }
{
    let AnswerState::On(phase) = state else {
        return (room, AnswerState::Late);
    };
    let size = packet.size();
    if size > room {
        return (room, AnswerState::Broken(BreakCause::TooLong));
    }
    match packet {
        ReadPacket::Payload(line) => (room - size, handshake_after_line(phase, line)),
        ReadPacket::Flush => (room - size, handshake_after_flush(phase)),
    }
}
