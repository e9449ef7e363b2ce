//! One run of the core, with many paths and two drivers.
ghost use Rattle.std.specs.Prelude.{◌≡◌, ◌<◌, ℕ, Bool, length, IfOk};
ghost use Rattle.checkout_core.specs.States.{AreBelow};
ghost use Rattle.checkout_core.specs.declared.path.Start.TheVariants.{Desk};

use checkout_core::{Event, Own, Start, State, replay};
use filter_words::{BreakCause, Caps, ListReply, Reply};
use std::alloc::{AllocError, Global};
use std::io;
use std::io::Print;
use std::rt::Clock;
use std::time::Instant;

const BOTH: Caps = Caps {
    smudge: true,
    delay: true,
};

/// Of eight paths in a row the first four are the pool's, the next two are of driver 0, and the
/// last two are of driver 1, which isn't required.
fn start_of(path: u32) -> Start
    ensures { (d : ℕ) (required : Bool) → result ≡ Desk d required → d < 2 }
{
    match path % 8 {
        0..=3 => Start::Pool,
        4 | 5 => Start::Desk {
            driver: 0,
            required: true,
        },
        _ => Start::Desk {
            driver: 1,
            required: false,
        },
    }
}

fn starts(alloc: Global, paths: u32) -> Result<Vec<Start>, AllocError>
    ensures below { IfOk result (λ v. AreBelow 2 v.items) }
    ensures few { IfOk result (λ v. length v.items ≡ paths) }
{
    let mut starts = Vec::with_capacity(alloc, paths as usize)?;
    for path in 0..paths {
        starts.push(start_of(path))?;
    }
    Ok(starts)
}

fn close(path: u32, actor: u32) -> Event {
    Event::Close {
        path,
        actor,
        own: Own::Fine { unencoded: false },
    }
}

fn answered(path: u32, reply: Reply) -> Event {
    Event::Answered { path, reply }
}

/// What happens to a path in a round, if anything does.
///
/// - Each path of the pool is claimed and closed.
/// - Driver 0 gives every other path, delays the others, lists all of these at once, and then gives them.
/// - Each session of driver 1 delays a path and breaks at the next, so that each is swept.
fn event_of(round: u32, path: u32, is_later: bool) -> Option<Event> {
    match (round, path % 8, is_later) {
        (0, 0..=3, false) => Some(Event::Claim {
            path,
            actor: path % 4,
        }),
        (0, 0..=3, true) => Some(close(path, path % 4)),
        (1, 4, false) => Some(answered(path, Reply::Content)),
        (1, 5, false) => Some(answered(path, Reply::Delayed)),
        (2, 5, false) => Some(Event::Named { path }),
        (3, 5, false) => Some(Event::Redone {
            path,
            reply: Reply::Content,
        }),
        (4, 4 | 5, false) => Some(close(path, 4)),
        (5, 6, false) => Some(Event::Opened {
            driver: 1,
            caps: BOTH,
        }),
        (5, 6, true) => Some(answered(path, Reply::Delayed)),
        (5, 7, false) => Some(answered(path, Reply::Broken(BreakCause::Ended))),
        (6, 6 | 7, false) => Some(close(path, 5)),
        _ => None,
    }
}

/// What comes of driver 0 before a round, of a run with so many paths.
fn head_of(round: u32, paths: u32) -> Option<Event> {
    let reply = match round {
        3 => ListReply::Names(paths / 8),
        4 => ListReply::Empty,
        1 => {
            return Some(Event::Opened {
                driver: 0,
                caps: BOTH,
            });
        }
        _ => return None,
    };
    Some(Event::Listed { driver: 0, reply })
}

/// A run that closes every path, if the number of paths is a multiple of 8.
fn events(alloc: Global, paths: u32) -> Result<Vec<Event>, AllocError> {
    let mut events = Vec::new(alloc);
    for round in 0..7 {
        if let Some(event) = head_of(round, paths) {
            events.push(event)?;
        }
        for path in 0..paths {
            for is_later in [false, true] {
                if let Some(event) = event_of(round, path, is_later) {
                    events.push(event)?;
                }
            }
        }
    }
    Ok(events)
}

/// Replays these events, and tells how many there are and what they leave. The time told is that of the replay alone.
fn tell_replay<R: Clock + Print>(
    rt: &R,
    state: &mut State,
    events: &[Event],
    timed: bool,
) -> io::Result<()> {
    let open = state.unclosed();
    let begun = Instant::now(rt)?;
    if events.len() > u32::MAX as usize {
        return Ok(());
    }
    let told = replay(state, events);
    let micros = begun.elapsed(rt)?.as_micros();
    let taken = events.len();
    let left = state.unclosed();
    println!(rt; "{open} paths, {taken} events, {left} left, {told:?}")?;
    if timed {
        println!(rt; "{micros} microseconds")?;
    }
    Ok(())
}

/// Replays a run of so many paths, at most a million, and tells of it.
pub fn tell<R: Clock + Print + AllocGlobal>(rt: &R, paths: u32, timed: bool) -> io::Result<()> {
    let paths = paths.min(1_000_000);
    let starts = starts(rt.alloc(), paths)?;
    let events = events(rt.alloc(), paths)?;
    let mut state = State::start(rt.alloc(), starts, 4, 2)?;
    tell_replay(rt, &mut state, events.as_slice(), timed)
}
