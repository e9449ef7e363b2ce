//! The words of a journal, in both directions.
ghost use Rattle.std.specs.Prelude.{◌≡◌};
ghost use Rattle.journal_audit.specs.Words.{own_word, opening_word, reply_word};
ghost use Rattle.journal_audit.specs.Journal.{done_word};
ghost use Rattle.journal_audit.specs.Reading.{word_in, list_word};
ghost use Rattle.journal_audit.specs.Reading.{all_owns, all_openings, all_replies, all_lists, all_planned};

use checkout_core::{FailCause, ObjectKind, OpenCause, Own, SkipCause, Verdict};
use filter_words::{BreakCause, ListReply, Reply};

/// A value that one word stands for.
pub(crate) trait HasWord: Copy {
    ghost use Rattle.std.specs.Prelude.{List, ℕ};

    ghost word: { Self → List ℕ };

    fn word(self) -> &'static str
        ensures { result.now ≡ word self };
}

impl HasWord for Own {
    ghost word = { own_word };

    fn word(self) -> &'static str {
        match self {
            Own::Fine { unencoded } => { if unencoded { "fine-unencoded" } else { "fine" } }
            Own::ReadFailed => "read",
            Own::WriteFailed => "write",
            Own::NoMemory => "no-memory",
            Own::Object(kind) => kind.word(),
        }
    }
}

impl HasWord for OpenCause {
    ghost word = { opening_word };

    fn word(self) -> &'static str {
        match self {
            OpenCause::NotStarted => "not-started",
            OpenCause::NoMemory => "no-memory",
            OpenCause::Broken(why) => why.word(),
        }
    }
}

impl HasWord for Reply {
    ghost word = { reply_word };

    fn word(self) -> &'static str {
        match self {
            Reply::Content => "content",
            Reply::Error => "error",
            Reply::ErrorAfter => "error-late",
            Reply::Abort => "abort",
            Reply::Delayed => "delayed",
            Reply::NoMemory => "no-memory",
            Reply::Broken(why) => why.word(),
        }
    }
}

/// A list's replies but `Names`, which has two words.
impl HasWord for ListReply {
    ghost word = { list_word };

    fn word(self) -> &'static str {
        match self {
            ListReply::Names(_) => "",
            ListReply::Empty => "empty",
            ListReply::Abort => "abort",
            ListReply::NoMemory => "no-memory",
            ListReply::Broken(why) => why.word(),
        }
    }
}

/// The verdicts that a plan gives.
impl HasWord for Verdict {
    ghost word = { done_word };

    fn word(self) -> &'static str {
        match self {
            Verdict::Skipped(cause) => cause.word(),
            Verdict::Failed(cause) => cause.word(),
            _ => "",
        }
    }
}

/// The first of these values that has this word.
fn find_word<W: HasWord>(all: &[W], word: &[u8]) -> Option<W>
    ensures { result ≡ word_in W.word all.now word.now }
{
    for value in all {
        if value.word().as_bytes() == word {
            return Some(*value);
        }
    }
    None
}

pub(crate) fn own_of(word: &[u8]) -> Option<Own>
    ensures { result ≡ word_in own_word all_owns word.now }
{
    find_word(
        &[
            Own::Fine { unencoded: false },
            Own::Fine { unencoded: true },
            Own::ReadFailed,
            Own::WriteFailed,
            Own::NoMemory,
            Own::Object(ObjectKind::Absent),
            Own::Object(ObjectKind::Header),
            Own::Object(ObjectKind::Size),
            Own::Object(ObjectKind::WrongName),
            Own::Object(ObjectKind::TooLarge),
        ],
        word,
    )
}

pub(crate) fn opening_of(word: &[u8]) -> Option<OpenCause>
    ensures { result ≡ word_in opening_word all_openings word.now }
{
    find_word(
        &[
            OpenCause::NotStarted,
            OpenCause::NoMemory,
            OpenCause::Broken(BreakCause::Ended),
            OpenCause::Broken(BreakCause::LinkFault),
            OpenCause::Broken(BreakCause::BadPacket),
            OpenCause::Broken(BreakCause::BadHandshake),
            OpenCause::Broken(BreakCause::UnknownStatus),
            OpenCause::Broken(BreakCause::StrangeDelay),
            OpenCause::Broken(BreakCause::TooLong),
            OpenCause::Broken(BreakCause::StrangePath),
            OpenCause::Broken(BreakCause::ListRefused),
        ],
        word,
    )
}

pub(crate) fn reply_of(word: &[u8]) -> Option<Reply>
    ensures { result ≡ word_in reply_word all_replies word.now }
{
    find_word(
        &[
            Reply::Content,
            Reply::Delayed,
            Reply::Error,
            Reply::ErrorAfter,
            Reply::Abort,
            Reply::NoMemory,
            Reply::Broken(BreakCause::Ended),
            Reply::Broken(BreakCause::LinkFault),
            Reply::Broken(BreakCause::BadPacket),
            Reply::Broken(BreakCause::BadHandshake),
            Reply::Broken(BreakCause::UnknownStatus),
            Reply::Broken(BreakCause::StrangeDelay),
            Reply::Broken(BreakCause::TooLong),
            Reply::Broken(BreakCause::StrangePath),
            Reply::Broken(BreakCause::ListRefused),
        ],
        word,
    )
}

pub(crate) fn list_of(word: &[u8]) -> Option<ListReply>
    ensures { result ≡ word_in list_word all_lists word.now }
{
    find_word(
        &[
            ListReply::Empty,
            ListReply::Abort,
            ListReply::NoMemory,
            ListReply::Broken(BreakCause::Ended),
            ListReply::Broken(BreakCause::LinkFault),
            ListReply::Broken(BreakCause::BadPacket),
            ListReply::Broken(BreakCause::BadHandshake),
            ListReply::Broken(BreakCause::UnknownStatus),
            ListReply::Broken(BreakCause::StrangeDelay),
            ListReply::Broken(BreakCause::TooLong),
            ListReply::Broken(BreakCause::StrangePath),
            ListReply::Broken(BreakCause::ListRefused),
        ],
        word,
    )
}

pub(crate) fn planned_of(word: &[u8]) -> Option<Verdict>
    ensures { result ≡ word_in done_word all_planned word.now }
{
    find_word(
        &[
            Verdict::Skipped(SkipCause::Gitlink),
            Verdict::Skipped(SkipCause::Unmerged),
            Verdict::Skipped(SkipCause::Sparse),
            Verdict::Skipped(SkipCause::Intent),
            Verdict::Failed(FailCause::NameNotText),
            Verdict::Failed(FailCause::UnknownEncoding),
            Verdict::Failed(FailCause::NoProcess),
        ],
        word,
    )
}
