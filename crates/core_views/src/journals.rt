//! Journals of checkouts.
//!
//! The kind `journal` has one of these forms:
//!
//! - the cell `text`: the audit of this journal comes;
//! - the cells `line` and `text`: the audit of a journal with each kind of line comes, with this text in place of the
//!   line with this number;
//! - no cell: the journal of a run in which path 1 is delayed comes, as it is printed.
use case_kit::{Cell, number_of, shown, unknown};
use checkout_core::{Event, Own, Start};
use filter_words::{Caps, ListReply, Reply};
use journal_audit::{audit, print_journal};
use std::alloc::{AllocError, Global};
use std::test::Fail;

/// A journal with each kind of line, but for its last LF.
const WHOLE: &[u8] =
    b"journal 2 2 6\npool\ndesk 0 required\ndesk 0 required\ndesk 1 optional\ndone sparse\ndone no-process\n\
    open-failed 1 broken-ended\nopened 0 smudge delay\nanswered 2 delayed\nnamed 2\nlisted 0 names 1\n\
    redone 2 content\nlisted 0 empty\nclose 1 2 fine\nclose 2 2 fine\nopened 1 smudge -\nanswered 3 error\n\
    hand-back 3\nshut 1\nclaim 0 0\nclaim 3 1\nclose 3 1 fine-unencoded\nclose 0 0 object-size\nend 17";

/// The history of a run in which path 1 is delayed.
const HISTORY: &[Event] = &[
    Event::Opened {
        driver: 0,
        caps: Caps {
            smudge: true,
            delay: true,
        },
    },
    Event::Answered {
        path: 1,
        reply: Reply::Delayed,
    },
    Event::Named { path: 1 },
    Event::Listed {
        driver: 0,
        reply: ListReply::Names(1),
    },
    Event::Redone {
        path: 1,
        reply: Reply::Content,
    },
    Event::Listed {
        driver: 0,
        reply: ListReply::Empty,
    },
    Event::Close {
        path: 1,
        actor: 1,
        own: Own::Fine { unencoded: false },
    },
    Event::Claim { path: 0, actor: 0 },
    Event::Close {
        path: 0,
        actor: 0,
        own: Own::Fine { unencoded: false },
    },
];

const STARTS: &[Start] = &[
    Start::Pool,
    Start::Desk {
        driver: 0,
        required: true,
    },
];

/// The audit of a text.
fn audit_of(alloc: Global, text: &[u8]) -> Result<Vec<u8>, Fail> {
    if text.len() > 67_108_864 {
        return Err(unknown(b"journal"));
    }
    Ok(shown(alloc, audit(alloc, text)?)?)
}

/// The journal with this text in place of the line of this number.
fn with_line(alloc: Global, number: u32, line: &[u8]) -> Result<Vec<u8>, AllocError> {
    let mut text = Vec::new(alloc);
    let mut at = 0u32;
    for row in WHOLE.split(|byte| *byte == b'\n') {
        at = at.wrapping_add(1);
        text.extend_from_slice(if at == number { line } else { row })?;
        text.push(b'\n')?;
    }
    Ok(text)
}

/// What comes of a case of the kind `journal`.
pub fn judged(alloc: Global, cells: &[Cell]) -> Result<Vec<u8>, Fail> {
    match cells {
        [] => Ok(print_journal(alloc, STARTS, 1, 1, HISTORY)?),
        [text] => audit_of(alloc, &text.value),
        [line, text] => {
            let text = with_line(alloc, number_of(&line.value)?, &text.value)?;
            audit_of(alloc, &text)
        }
        _ => Err(unknown(b"journal")),
    }
}
