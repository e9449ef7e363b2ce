//! Events of a checkout, and what they make of its paths.
//!
//! The kind `checkout` has a step for each event, spelled as a line of the journal: its word, and behind it what the
//! line has. A step answers `ok` or `refused`. The step `verdict` and a path gives its verdict, `unclosed` how many
//! paths are open, and `replay` what a replay of events answers, between which `;` stands. A refused event has to
//! leave the number of open paths. With a first cell `two` the checkout has the first two paths alone.
use case_kit::{
    Cell, Words, found, given, meant, noted, number_of, parted, push_all, shown, unknown,
};
use checkout_core::{
    Event, ObjectKind, OpenCause, Own, SkipCause, Start, State, Verdict, replay, step,
};
use filter_words::{BreakCause, Caps, ListReply, Reply};
use std::alloc::{AllocError, Global};
use std::test::Fail;

/// Path 0 is the pool's. Paths 1 and 2 are of driver 0, which is required. Paths 3 and 4 are of driver 1, which isn't.
/// Path 5 is a gitlink.
const STARTS: [Start; 6] = [
    Start::Pool,
    Start::Desk {
        driver: 0,
        required: true,
    },
    Start::Desk {
        driver: 0,
        required: true,
    },
    Start::Desk {
        driver: 1,
        required: false,
    },
    Start::Desk {
        driver: 1,
        required: false,
    },
    Start::Done(Verdict::Skipped(SkipCause::Gitlink)),
];

/// One worker, actor 0, and a desk for each driver: actor 1 and actor 2.
fn fresh(alloc: Global) -> Result<State, AllocError> {
    State::start(alloc, Vec::from_slice(alloc, &STARTS)?, 1, 2)
}

/// The first two of these paths alone, with one worker and one driver.
fn fresh_of_two(alloc: Global) -> Result<State, AllocError> {
    let [first, second, ..] = STARTS;
    State::start(alloc, Vec::from_slice(alloc, &[first, second])?, 1, 1)
}

const CAPS: Words<(bool, bool)> = &[
    (b"smudge delay", (true, true)),
    (b"smudge -", (true, false)),
    (b"- -", (false, false)),
];

const CAUSES: Words<OpenCause> = &[
    (b"not-started", OpenCause::NotStarted),
    (b"no-memory", OpenCause::NoMemory),
    (b"broken-ended", OpenCause::Broken(BreakCause::Ended)),
    (
        b"broken-strange-path",
        OpenCause::Broken(BreakCause::StrangePath),
    ),
    (b"broken-list", OpenCause::Broken(BreakCause::ListRefused)),
];

const REPLIES: Words<Reply> = &[
    (b"content", Reply::Content),
    (b"error", Reply::Error),
    (b"error-late", Reply::ErrorAfter),
    (b"delayed", Reply::Delayed),
    (b"abort", Reply::Abort),
    (b"no-memory", Reply::NoMemory),
    (
        b"broken-strange-path",
        Reply::Broken(BreakCause::StrangePath),
    ),
    (b"broken-list", Reply::Broken(BreakCause::ListRefused)),
];

const LIST_REPLIES: Words<ListReply> = &[
    (b"names 0", ListReply::Names(0)),
    (b"names 1", ListReply::Names(1)),
    (b"names 2", ListReply::Names(2)),
    (b"empty", ListReply::Empty),
];

const OWNS: Words<Own> = &[
    (b"fine", Own::Fine { unencoded: false }),
    (b"fine-unencoded", Own::Fine { unencoded: true }),
    (b"object-size", Own::Object(ObjectKind::Size)),
    (b"read", Own::ReadFailed),
    (b"write", Own::WriteFailed),
    (b"no-memory", Own::NoMemory),
];

/// The event of a line.
#[derive(Clone, Copy)]
enum Told {
    Opened,
    Listed,
    Shut,
    Claim,
    Close,
    OpenFailed,
    Answered,
    Redone,
    Named,
    HandBack,
}

const EVENTS: Words<Told> = &[
    (b"opened", Told::Opened),
    (b"listed", Told::Listed),
    (b"shut", Told::Shut),
    (b"claim", Told::Claim),
    (b"close", Told::Close),
    (b"open-failed", Told::OpenFailed),
    (b"answered", Told::Answered),
    (b"redone", Told::Redone),
    (b"named", Told::Named),
    (b"hand-back", Told::HandBack),
];

/// The start of a driver's session, with what it announces.
fn opened(driver: u32, caps: &[u8]) -> Result<Event, Fail> {
    let (smudge, delay) = found(CAPS, caps)?;
    let caps = Caps { smudge, delay };
    Ok(Event::Opened { driver, caps })
}

/// The end of a path, by an actor.
fn closed(path: u32, rest: &[u8]) -> Result<Event, Fail> {
    let (actor, own) = parted(rest);
    let actor = number_of(actor)?;
    let own = found(OWNS, own)?;
    Ok(Event::Close { path, actor, own })
}

/// An event with the number of a driver or a path, and what stands behind it.
fn event_with(told: Told, number: u32, rest: &[u8]) -> Result<Event, Fail> {
    let (driver, path) = (number, number);
    Ok(match told {
        Told::Opened => opened(driver, rest)?,
        Told::Listed => Event::Listed {
            driver,
            reply: found(LIST_REPLIES, rest)?,
        },
        Told::Shut => Event::Shut { driver },
        Told::Claim => Event::Claim {
            path,
            actor: number_of(rest)?,
        },
        Told::Close => closed(path, rest)?,
        Told::OpenFailed => Event::OpenFailed {
            path,
            cause: found(CAUSES, rest)?,
        },
        Told::Answered => Event::Answered {
            path,
            reply: found(REPLIES, rest)?,
        },
        Told::Redone => Event::Redone {
            path,
            reply: found(REPLIES, rest)?,
        },
        Told::Named => Event::Named { path },
        Told::HandBack => Event::HandBack { path },
    })
}

/// The event of a journal's line.
fn event_of(word: &[u8], text: &[u8]) -> Result<Event, Fail> {
    let told = found(EVENTS, word)?;
    let (number, rest) = parted(text);
    event_with(told, number_of(number)?, rest)
}

/// Appends the events between which `;` stands.
fn push_events(events: &mut Vec<Event>, text: &[u8]) -> Result<(), Fail> {
    for line in text.split(|byte| *byte == b';') {
        let (word, rest) = parted(line);
        events.push(event_of(word, rest)?)?;
    }
    Ok(())
}

/// The events between which `;` stands.
fn events_of(alloc: Global, text: &[u8]) -> Result<Vec<Event>, Fail> {
    let mut events = Vec::new(alloc);
    push_events(&mut events, text)?;
    Ok(events)
}

/// What a replay of events answers.
fn replayed(alloc: Global, state: &mut State, text: &[u8]) -> Result<Vec<u8>, Fail> {
    let events = events_of(alloc, text)?;
    if events.len() > 1000 {
        return Err(unknown(text));
    }
    Ok(shown(alloc, replay(state, &events))?)
}

/// A word, the cause behind it, and a note if the text isn't encoded.
fn verdict_text(
    alloc: Global,
    word: &[u8],
    cause: &str,
    unencoded: bool,
) -> Result<Vec<u8>, AllocError> {
    let mut text = Vec::from_slice(alloc, word)?;
    text.extend_from_slice(cause.as_bytes())?;
    if unencoded {
        text.extend_from_slice(b" unencoded")?;
    }
    Ok(text)
}

/// The verdict of a path.
fn verdict_of(alloc: Global, state: &State, path: u32) -> Result<Vec<u8>, AllocError> {
    match state.verdict(path) {
        None => Vec::from_slice(alloc, b"none"),
        Some(Verdict::Written { unencoded }) => verdict_text(alloc, b"written", "", unencoded),
        Some(Verdict::Unfiltered { cause, unencoded }) => {
            verdict_text(alloc, b"unfiltered ", cause.word(), unencoded)
        }
        Some(Verdict::Failed(cause)) => verdict_text(alloc, b"failed ", cause.word(), false),
        Some(Verdict::NoMemory) => Vec::from_slice(alloc, b"no-memory"),
        Some(Verdict::Skipped(cause)) => verdict_text(alloc, b"skipped ", cause.word(), false),
    }
}

/// What an event answers.
fn answer_of(alloc: Global, state: &mut State, event: Event) -> Result<Vec<u8>, AllocError> {
    let open = state.unclosed();
    if step(state, event).is_ok() {
        return Vec::from_slice(alloc, b"ok");
    }
    let is_kept = state.unclosed() == open;
    noted(
        Vec::from_slice(alloc, b"refused")?,
        is_kept,
        b"other paths are open",
    )
}

/// What a step looks at.
#[derive(Clone, Copy)]
enum Look {
    Verdict,
    Unclosed,
    Replay,
}

const LOOKS: Words<Look> = &[
    (b"verdict", Look::Verdict),
    (b"unclosed", Look::Unclosed),
    (b"replay", Look::Replay),
];

/// What a look at a checkout tells.
fn looked(alloc: Global, state: &mut State, look: Look, text: &[u8]) -> Result<Vec<u8>, Fail> {
    match look {
        Look::Verdict => {
            let path = number_of(text)?;
            given(verdict_of(alloc, state, path))
        }
        Look::Unclosed => given(shown(alloc, state.unclosed())),
        Look::Replay => replayed(alloc, state, text),
    }
}

/// What a step answers.
fn step_of(alloc: Global, state: &mut State, cell: &Cell) -> Result<Vec<u8>, Fail> {
    let text = cell.value.as_slice();
    match meant(LOOKS, &cell.key) {
        Some(look) => looked(alloc, state, look, text),
        None => {
            let event = event_of(&cell.key, text)?;
            given(answer_of(alloc, state, event))
        }
    }
}

/// Appends what each step answers.
fn push_steps(
    alloc: Global,
    came: &mut Vec<u8>,
    state: &mut State,
    cells: &[Cell],
) -> Result<(), Fail> {
    for cell in cells {
        let answer = step_of(alloc, state, cell)?;
        push_all(came, &[&answer, b"\n"])?;
    }
    Ok(())
}

/// What the steps answer.
fn answers_of(alloc: Global, mut state: State, cells: &[Cell]) -> Result<Vec<u8>, Fail> {
    let mut came = Vec::new(alloc);
    push_steps(alloc, &mut came, &mut state, cells)?;
    Ok(came)
}

/// What comes of a case of the kind `checkout`.
pub fn followed(alloc: Global, cells: &[Cell]) -> Result<Vec<u8>, Fail> {
    match cells {
        [first, rest @ ..] if first.key.as_slice() == b"two".as_slice() => {
            answers_of(alloc, fresh_of_two(alloc)?, rest)
        }
        _ => answers_of(alloc, fresh(alloc)?, cells),
    }
}
