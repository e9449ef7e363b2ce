//! Which events a state takes: one condition for each kind of event.
ghost use Rattle.std.specs.Prelude.{◌≡◌, ◌&&◌, ◌<◌, length, MatchOption, not};
ghost use Rattle.checkout_core.specs.Verdicts.{unasked_cause, refused_cause, held_close, heard_close, unasked_close};
ghost use Rattle.checkout_core.specs.Verdicts.{refused_verdict, heard_verdict, is_first, lacks_smudge, unasked_fine};
ghost use Rattle.checkout_core.specs.Conditions.{is_path_break, effect_of, at_path, at_driver, at_both, claim_at};
ghost use Rattle.checkout_core.specs.Conditions.{open_at, fail_at, answer_at, name_at, list_at, redo_at, hand_back_at};
ghost use Rattle.checkout_core.specs.Conditions.{shut_at, is_good_opening, is_good_reply, heard_opening, replied};
ghost use Rattle.checkout_core.specs.Conditions.{replied_state, replied_desk, replied_sweep, list_desk, list_sweep};
ghost use Rattle.checkout_core.specs.Conditions.{list_allowed, is_delay};
ghost use Rattle.checkout_core.specs.DriverPaths.{IsDriverPath, LacksDriverPath, IsDesk, LacksDesk};
ghost use Rattle.checkout_core.specs.declared.event.Event.TheVariants.{Close};

use crate::driver::{DriverState, OpenSession};
use crate::driver_path::DriverPath;
use crate::effect::{Effect, Sweep};
use crate::event::{Event, OpenCause};
use crate::path::{Heard, PathState, Start};
use crate::state::State;
use crate::verdict::{FailCause, FilterCause, Own, Verdict};
use filter_words::{BreakCause, Caps, ListReply, Reply};

/// Whether the answer for one path can break like this: the other breaks come from a list alone.
fn is_path_break(cause: BreakCause) -> bool
    ensures { result ≡ is_path_break cause }
{
    !matches!(cause, BreakCause::StrangePath | BreakCause::ListRefused)
}

fn is_good_opening(cause: OpenCause) -> bool
    ensures { result ≡ is_good_opening cause }
{
    match cause {
        OpenCause::Broken(broken) => is_path_break(broken),
        OpenCause::NotStarted | OpenCause::NoMemory => true,
    }
}

fn is_good_reply(reply: Reply) -> bool
    ensures { result ≡ is_good_reply reply }
{
    match reply {
        Reply::Broken(broken) => is_path_break(broken),
        _ => true,
    }
}

fn heard_opening(cause: OpenCause) -> Heard
    ensures { result ≡ heard_opening cause }
{
    match cause {
        OpenCause::NotStarted => Heard::Refused(FilterCause::NotStarted),
        OpenCause::Broken(broken) => Heard::Refused(FilterCause::Broken(broken)),
        OpenCause::NoMemory => Heard::OutOfMemory,
    }
}

fn replied_state(reply: Reply) -> PathState
    ensures { result ≡ replied_state reply }
{
    match reply {
        Reply::Content => PathState::Heard(Heard::Got),
        Reply::Error => PathState::Heard(Heard::Refused(FilterCause::Error)),
        Reply::ErrorAfter => PathState::Heard(Heard::Refused(FilterCause::ErrorAfter)),
        Reply::Delayed => PathState::Delayed,
        Reply::Abort => PathState::Heard(Heard::Refused(FilterCause::Abort)),
        Reply::Broken(broken) => PathState::Heard(Heard::Refused(FilterCause::Broken(broken))),
        Reply::NoMemory => PathState::Heard(Heard::OutOfMemory),
    }
}

fn replied_desk(session: OpenSession, reply: Reply) -> DriverState
    ensures { result ≡ replied_desk session reply }
{
    match reply {
        Reply::Delayed => DriverState::On(OpenSession {
            any_delayed: true,
            ..session
        }),
        Reply::Abort => DriverState::Aborted,
        Reply::Broken(_) | Reply::NoMemory => DriverState::Off,
        Reply::Content | Reply::Error | Reply::ErrorAfter => DriverState::On(session),
    }
}

fn replied_sweep(reply: Reply) -> Sweep
    ensures { result ≡ replied_sweep reply }
{
    match reply {
        Reply::Abort | Reply::Broken(_) => Sweep::Lose,
        Reply::NoMemory => Sweep::OutOfMemory,
        _ => Sweep::Keep,
    }
}

fn replied(path: u32, driver: u32, session: OpenSession, reply: Reply) -> Effect
    ensures { result ≡ replied path driver session reply }
{
    Effect::Both {
        path,
        state: replied_state(reply),
        driver,
        next: replied_desk(session, reply),
        sweep: replied_sweep(reply),
    }
}

fn list_desk(session: OpenSession, reply: ListReply) -> DriverState
    ensures { result ≡ list_desk session reply }
{
    match reply {
        ListReply::Names(_) => DriverState::On(OpenSession {
            noting_list: false,
            ..session
        }),
        ListReply::Empty => DriverState::Done,
        ListReply::Abort => DriverState::Aborted,
        ListReply::Broken(_) | ListReply::NoMemory => DriverState::Off,
    }
}

fn list_sweep(reply: ListReply) -> Sweep
    ensures { result ≡ list_sweep reply }
{
    match reply {
        ListReply::Names(_) => Sweep::Keep,
        ListReply::NoMemory => Sweep::OutOfMemory,
        _ => Sweep::Lose,
    }
}

/// The cause of a path that its driver will never be asked for.
fn unasked_cause(state: DriverState) -> Option<FilterCause>
    ensures { result ≡ unasked_cause state }
{
    match state {
        DriverState::Aborted => Some(FilterCause::Abort),
        DriverState::On(session) if !session.caps.smudge => Some(FilterCause::NoSmudge),
        _ => None,
    }
}

/// The cause of a path that its driver refused.
fn refused_cause(driver: DriverState, state: PathState) -> Option<FilterCause>
    ensures { result ≡ refused_cause driver state }
{
    match state {
        PathState::Heard(Heard::Refused(cause)) => Some(cause),
        PathState::Unasked => unasked_cause(driver),
        _ => None,
    }
}

/// The verdict of a path that was refused for this cause.
fn refused_verdict(required: bool, cause: FilterCause, unencoded: bool) -> Verdict
    ensures { result ≡ refused_verdict required cause unencoded }
{
    if required {
        Verdict::Failed(FailCause::Filter(cause))
    } else {
        Verdict::Unfiltered { cause, unencoded }
    }
}

fn heard_verdict(required: bool, heard: Heard, unencoded: bool) -> Verdict
    ensures { result ≡ heard_verdict required heard unencoded }
{
    match heard {
        Heard::Got => Verdict::Written { unencoded },
        Heard::Refused(cause) => refused_verdict(required, cause, unencoded),
        Heard::Lost => Verdict::Failed(FailCause::Missing),
        Heard::OutOfMemory => Verdict::NoMemory,
    }
}

/// The verdict of a path that an actor has in hand. Its object can fail to be read only if it wasn't read before.
fn held_close(raw: Option<FilterCause>, own: Own) -> Option<Verdict>
    ensures { result ≡ held_close raw own }
{
    match (raw, own) {
        (None, Own::Fine { unencoded }) => Some(Verdict::Written { unencoded }),
        (Some(cause), Own::Fine { unencoded }) => Some(Verdict::Unfiltered { cause, unencoded }),
        (_, Own::WriteFailed) => Some(Verdict::Failed(FailCause::WriteFailed)),
        (_, Own::NoMemory) => Some(Verdict::NoMemory),
        (None, Own::Object(kind)) => Some(Verdict::Failed(FailCause::Object(kind))),
        (None, Own::ReadFailed) => Some(Verdict::Failed(FailCause::ReadFailed)),
        (Some(_), Own::Object(_) | Own::ReadFailed) => None,
    }
}

/// The verdict of a path that its driver answered for.
fn heard_close(required: bool, heard: Heard, own: Own) -> Option<Verdict>
    ensures { result ≡ heard_close required heard own }
{
    match own {
        Own::Fine { unencoded } => Some(heard_verdict(required, heard, unencoded)),
        Own::WriteFailed if matches!(heard, Heard::OutOfMemory) => Some(Verdict::NoMemory),
        Own::WriteFailed => Some(Verdict::Failed(FailCause::WriteFailed)),
        Own::NoMemory => Some(Verdict::NoMemory),
        Own::Object(_) | Own::ReadFailed => None,
    }
}

/// Whether an open session was opened for this path.
fn is_first(state: DriverState, path: u32) -> bool
    ensures { result ≡ is_first state path }
{
    match state {
        DriverState::On(session) => path == session.first,
        _ => false,
    }
}

fn lacks_smudge(state: DriverState) -> bool
    ensures { result ≡ lacks_smudge state }
{
    match state {
        DriverState::On(session) => !session.caps.smudge,
        _ => false,
    }
}

/// The verdict of a path that its driver will never be asked for.
fn unasked_fine(required: bool, cause: Option<FilterCause>, own: Own) -> Option<Verdict>
    ensures { result ≡ unasked_fine required cause own }
{
    let cause = cause?;
    match own {
        Own::Fine { unencoded } => Some(refused_verdict(required, cause, unencoded)),
        Own::WriteFailed => Some(Verdict::Failed(FailCause::WriteFailed)),
        _ => None,
    }
}

/// The verdict of a path that its driver wasn't asked for.
fn unasked_close(required: bool, state: DriverState, path: u32, own: Own) -> Option<Verdict>
    ensures { result ≡ unasked_close required state path own }
{
    let first = is_first(state, path);
    match own {
        Own::Object(_) | Own::ReadFailed if first => None,
        Own::Object(kind) => Some(Verdict::Failed(FailCause::Object(kind))),
        Own::ReadFailed => Some(Verdict::Failed(FailCause::ReadFailed)),
        Own::NoMemory if first && !lacks_smudge(state) => None,
        Own::NoMemory => Some(Verdict::NoMemory),
        Own::Fine { .. } | Own::WriteFailed => unasked_fine(required, unasked_cause(state), own),
    }
}

/// Whether a first request may be answered like this.
fn may_answer(session: OpenSession, reply: Reply) -> bool
    ensures { result ≡ (session.caps.smudge
        && (is_good_reply reply && not (is_delay reply && not session.caps.delay))) }
{
    let delayed = matches!(reply, Reply::Delayed);
    session.caps.smudge && is_good_reply(reply) && !(delayed && !session.caps.delay)
}

impl State {
    fn driver_path(&self, path: u32) -> Option<DriverPath>
        ensures { MatchOption result (LacksDriverPath self.now path) (IsDriverPath self.now path) }
    {
        let was = self.path_at(path)?;
        let Start::Desk { driver, required } = was.start else {
            return None;
        };
        let state = self.driver_at(driver)?;
        Some(DriverPath {
            path: was,
            driver,
            required,
            state,
        })
    }

    fn claim(&self, path: u32, actor: u32) -> Option<Effect>
        ensures { result ≡ at_path self.now path (claim_at self.now path actor) }
    {
        let was = self.path_at(path)?;
        if !self.is_actor(actor) {
            return None;
        }
        match was.state {
            PathState::Waiting(raw) => Some(Effect::Moves {
                path,
                state: PathState::Held(actor, raw),
            }),
            _ => None,
        }
    }

    fn opened(&mut self, driver: u32, caps: Caps) -> Option<Effect>
        ensures same { self.new ≡ self.old }
        ensures effect { result ≡ at_driver self.old driver (open_at self.old driver caps) }
    {
        let state = self.driver_at(driver)?;
        let first = self.lowest_unasked(driver)?;
        if !matches!(state, DriverState::Off) {
            return None;
        }
        Some(Effect::Switches {
            driver,
            state: DriverState::On(OpenSession {
                caps,
                first,
                any_delayed: false,
                noting_list: false,
            }),
            sweep: Sweep::Keep,
        })
    }

    fn open_failed(&mut self, path: u32, cause: OpenCause) -> Option<Effect>
        ensures same { self.new ≡ self.old }
        ensures effect { result ≡ at_both self.old path (fail_at self.old path cause) }
    {
        let driver_path = self.driver_path(path)?;
        let next = self.is_next(path, driver_path.driver, driver_path.path);
        if !(matches!(driver_path.state, DriverState::Off) && next && is_good_opening(cause)) {
            return None;
        }
        Some(Effect::Moves {
            path,
            state: PathState::Heard(heard_opening(cause)),
        })
    }

    fn answered(&mut self, path: u32, reply: Reply) -> Option<Effect>
        ensures same { self.new ≡ self.old }
        ensures effect { result ≡ at_both self.old path (answer_at self.old path reply) }
    {
        let driver_path = self.driver_path(path)?;
        let DriverState::On(session) = driver_path.state else {
            return None;
        };
        let next = self.is_next(path, driver_path.driver, driver_path.path);
        if !(next && may_answer(session, reply)) {
            return None;
        }
        Some(replied(path, driver_path.driver, session, reply))
    }

    fn named(&mut self, path: u32) -> Option<Effect>
        ensures same { self.new ≡ self.old }
        ensures effect { result ≡ at_both self.old path (name_at self.old path) }
    {
        let driver_path = self.driver_path(path)?;
        let DriverState::On(session) = driver_path.state else {
            return None;
        };
        let asked = self.all_asked(driver_path.driver);
        let unnamed = self.none_named(driver_path.driver);
        let turn = self.named_count(driver_path.driver);
        let delayed = matches!(driver_path.path.state, PathState::Delayed);
        if !(session.any_delayed && asked && delayed && (session.noting_list || unnamed)) {
            return None;
        }
        Some(Effect::Both {
            path,
            state: PathState::Named(turn),
            driver: driver_path.driver,
            next: DriverState::On(OpenSession {
                noting_list: true,
                ..session
            }),
            sweep: Sweep::Keep,
        })
    }

    fn listed(&mut self, driver: u32, reply: ListReply) -> Option<Effect>
        ensures same { self.new ≡ self.old }
        ensures effect { result ≡ at_driver self.old driver (list_at self.old driver reply) }
    {
        let state = self.driver_at(driver)?;
        let DriverState::On(session) = state else {
            return None;
        };
        if !self.may_list(driver, session, reply) {
            return None;
        }
        Some(Effect::Switches {
            driver,
            state: list_desk(session, reply),
            sweep: list_sweep(reply),
        })
    }

    fn may_list(&mut self, driver: u32, session: OpenSession, reply: ListReply) -> bool
        requires { driver < length self.old.drivers }
        ensures same { self.new ≡ self.old }
        ensures allowed { result ≡ list_allowed self.old driver session reply }
    {
        match reply {
            ListReply::Names(count) => session.noting_list && count == self.named_count(driver),
            _ => {
                let asked = self.all_asked(driver);
                let unnamed = self.none_named(driver);
                session.any_delayed && !session.noting_list && asked && unnamed
            }
        }
    }

    fn redone(&self, path: u32, reply: Reply) -> Option<Effect>
        ensures { result ≡ at_both self.now path (redo_at self.now path reply) }
    {
        let driver_path = self.driver_path(path)?;
        let DriverState::On(session) = driver_path.state else {
            return None;
        };
        let PathState::Named(turn) = driver_path.path.state else {
            return None;
        };
        let again = !matches!(reply, Reply::Delayed) && is_good_reply(reply);
        if session.noting_list || !again || !self.is_lowest_turn(path, driver_path.driver, turn) {
            return None;
        }
        Some(replied(path, driver_path.driver, session, reply))
    }

    fn hand_back(&self, path: u32) -> Option<Effect>
        ensures { result ≡ at_both self.now path (hand_back_at path) }
    {
        let driver_path = self.driver_path(path)?;
        if driver_path.required {
            return None;
        }
        let cause = refused_cause(driver_path.state, driver_path.path.state)?;
        Some(Effect::Moves {
            path,
            state: PathState::Waiting(Some(cause)),
        })
    }

    fn shut(&mut self, driver: u32) -> Option<Effect>
        ensures same { self.new ≡ self.old }
        ensures effect { result ≡ at_driver self.old driver (shut_at self.old driver) }
    {
        let state = self.driver_at(driver)?;
        let DriverState::On(session) = state else {
            return None;
        };
        let asked = self.all_asked(driver);
        if session.any_delayed || !asked {
            return None;
        }
        Some(Effect::Switches {
            driver,
            state: DriverState::Done,
            sweep: Sweep::Keep,
        })
    }

    fn close(&self, path: u32, actor: u32, own: Own) -> Option<Effect>
        ensures { result ≡ effect_of self.now (Close path actor own) }
    {
        let was = self.path_at(path)?;
        let verdict = match was.state {
            PathState::Held(holder, raw) if actor == holder => held_close(raw, own)?,
            PathState::Heard(heard) => heard_close(self.desk(path, actor)?.required, heard, own)?,
            PathState::Unasked => {
                let driver_path = self.desk(path, actor)?;
                unasked_close(driver_path.required, driver_path.state, path, own)?
            }
            _ => return None,
        };
        Some(Effect::Moves {
            path,
            state: PathState::Closed(verdict),
        })
    }

    /// The path, if this actor is the desk of its driver.
    fn desk(&self, path: u32, actor: u32) -> Option<DriverPath>
        ensures { MatchOption result (LacksDesk self.now path actor) (IsDesk self.now path actor) }
    {
        let driver_path = self.driver_path(path)?;
        if self.is_desk(actor, driver_path.driver) {
            Some(driver_path)
        } else {
            None
        }
    }

    /// What the event changes, or `None` if it isn't a step.
    pub(crate) fn effect(&mut self, event: Event) -> Option<Effect>
        ensures same { self.new ≡ self.old }
        ensures effect { result ≡ effect_of self.old event }
    {
        match event {
            Event::Claim { path, actor } => self.claim(path, actor),
            Event::Close { path, actor, own } => self.close(path, actor, own),
            Event::Opened { driver, caps } => self.opened(driver, caps),
            Event::OpenFailed { path, cause } => self.open_failed(path, cause),
            Event::Answered { path, reply } => self.answered(path, reply),
            Event::Named { path } => self.named(path),
            Event::Listed { driver, reply } => self.listed(driver, reply),
            Event::Redone { path, reply } => self.redone(path, reply),
            Event::HandBack { path } => self.hand_back(path),
            Event::Shut { driver } => self.shut(driver),
        }
    }
}
