//! What an answer comes to.
ghost use Rattle.std.specs.Prelude.{◌≡◌};
ghost use Rattle.filter_words.specs.BreakWords.{break_word};

/// Why an answer of a driver, or its handshake, is broken.
///
/// The last two come from a list alone.
#[derive(Clone, Copy, Debug, PartialEq, Eq)]
pub enum BreakCause {
    /// The driver's output ended inside the answer.
    Ended,
    /// A send or a read failed.
    LinkFault,
    /// Four bytes that give no length of a packet.
    BadPacket,
    /// A handshake that isn't the protocol's.
    BadHandshake,
    /// A status that the request doesn't allow, or none.
    UnknownStatus,
    /// `status=delayed`, but `can-delay=1` wasn't sent.
    StrangeDelay,
    /// More than 536,870,912 bytes of packets in one answer.
    TooLong,
    /// A list names a path that isn't delayed, or names one twice.
    StrangePath,
    /// A list with `status=error`.
    ListRefused,
}

impl BreakCause {
    /// The cause in one word.
    pub fn word(self) -> &'static str
        ensures { result.now ≡ break_word self }
    {
        match self {
            BreakCause::Ended => "broken-ended",
            BreakCause::LinkFault => "broken-link",
            BreakCause::BadPacket => "broken-packet",
            BreakCause::BadHandshake => "broken-handshake",
            BreakCause::UnknownStatus => "broken-status",
            BreakCause::StrangeDelay => "broken-delay",
            BreakCause::TooLong => "broken-too-long",
            BreakCause::StrangePath => "broken-strange-path",
            BreakCause::ListRefused => "broken-list",
        }
    }
}

/// What a driver answered to a smudge request (gitattributes(5), "Long Running Filter Process").
#[derive(Clone, Copy, Debug, PartialEq, Eq)]
pub enum Reply {
    Content,
    Error,
    /// `status=error` after the content.
    ErrorAfter,
    Abort,
    Delayed,
    Broken(BreakCause),
    NoMemory,
}

/// What a driver answered to `list_available_blobs`.
#[derive(Clone, Copy, Debug, PartialEq, Eq)]
pub enum ListReply {
    /// How many paths it named.
    Names(u32),
    Empty,
    Abort,
    Broken(BreakCause),
    NoMemory,
}

/// The capabilities that a driver announced and that count.
#[derive(Clone, Copy, Debug, PartialEq, Eq)]
pub struct Caps {
    pub smudge: bool,
    pub delay: bool,
}
