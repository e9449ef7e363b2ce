// The core: a path of the pool, and a path that its driver delays and then gives.
use bench_books::marks::{begin, end};
use checkout_core::{Event, Own, Start, State, Verdict, step};
use filter_words::{Caps, ListReply, Reply};
use std::alloc::{AllocError, Global};
use std::io;
use std::io::Print;

const BOTH: Caps = Caps {
    smudge: true,
    delay: true,
};

const FINE: Own = Own::Fine { unencoded: false };

/// All that happens, with one worker and the desk of driver 0.
const EVENTS: &[Event] = &[
    Event::Claim { path: 0, actor: 0 },
    Event::Close {
        path: 0,
        actor: 0,
        own: FINE,
    },
    Event::Opened {
        driver: 0,
        caps: BOTH,
    },
    Event::Answered {
        path: 1,
        reply: Reply::Delayed,
    },
    Event::Named { path: 1 },
    Event::Listed {
        driver: 0,
        reply: ListReply::Names(1),
    },
    Event::Redone {
        path: 1,
        reply: Reply::Content,
    },
    Event::Listed {
        driver: 0,
        reply: ListReply::Empty,
    },
    Event::Close {
        path: 1,
        actor: 1,
        own: FINE,
    },
];

fn begun(alloc: Global) -> Result<State, AllocError> {
    let mut starts = Vec::with_capacity(alloc, 2)?;
    starts.push_reserved(Start::Pool);
    starts.push_reserved(Start::Desk {
        driver: 0,
        required: true,
    });
    State::start(alloc, starts, 1, 1)
}

/// Takes each event, and then the first one again, which is refused.
fn steps(state: &mut State) -> bool {
    for event in EVENTS {
        if step(state, *event).is_err() {
            return false;
        }
    }
    step(state, Event::Claim { path: 0, actor: 0 }).is_err()
}

/// Takes the events, and looks at what is left before and after.
fn make_all<R: Print>(rt: &R, state: &mut State) -> io::Result<()> {
    begin(rt, "State::unclosed")?;
    end(rt, state.unclosed() == 2)?;
    begin(rt, "step")?;
    end(rt, steps(state))?;
    begin(rt, "State::verdict")?;
    let verdict = state.verdict(1);
    end(
        rt,
        matches!(verdict, Some(Verdict::Written { unencoded: false })),
    )
}

pub fn make_calls<R: Print + AllocGlobal>(rt: &R) -> io::Result<()> {
    let mut state = begun(rt.alloc())?;
    make_all(rt, &mut state)
}
