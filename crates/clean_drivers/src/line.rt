//! The line to a driver.
ghost use Rattle.std.specs.Prelude.{◌≡◌, ◌≤◌, ◌<◌, ◌+◌, ◌^◌, Some, None, Ok, Err, IsSome, IfErr, OnOk, length};
ghost use Rattle.filter_proto.specs.Wires.{SessionSeen};
ghost use Rattle.clean_drivers.specs.CleanLines.{line_of, Cleans, CleansBy, StartsFor, IsAsked, Replies, Begins, Closes};
ghost use Rattle.clean_drivers.specs.CleanLines.{answer_of, lasting, lasting_in, starts_of};

use crate::cause::{CleanCause, CleanFault};
use crate::session_start::{begin, end_session};
use byte_path::Bytes;
use edge_kit::Starter;
use filter_proto::{CleanSession, Cleaned};
use std::alloc::Global;
use std::marker::Model;

/// What starts a driver that cleans contents, the session that is open, if one is, and why every later path is refused,
/// if it is.
#[derive(Drop)]
pub struct CleanLine<S: Starter> {
    alloc: Global,
    starter: S,
    session: Option<CleanSession<S::Link>>,
    refusing: Option<CleanCause>,
}

impl<S: Starter> Model for CleanLine<S> {
    ghost use Rattle.std.specs.Prelude.{◌≡◌, Some};
    ghost use Rattle.filter_proto.specs.Wires.{SessionSeen};
    ghost use Rattle.filter_proto.specs.declared.session.Standing.TheVariants.{Live};
    ghost use Rattle.clean_drivers.specs.CleanLines.{CleanLineView, line_of, weight};

    ghost Value = { CleanLineView };

    ghost view = { λ l. line_of (S.seen l.starter) l.session l.refusing };

    // A link is out exactly while a session is open, and that can be asked.
    ghost invariant = { λ l. ((S.seen l.starter).out ≡ weight l.session)
        × ((s : SessionSeen) → l.session ≡ Some s → s.standing ≡ Live) };
}

impl<S: Starter> CleanLine<S> {
    /// A line with no session, over a starter none of whose links is out.
    pub fn new(alloc: Global, starter: S) -> CleanLine<S>
        requires { (S.seen starter).out ≡ 0 }
        ensures { result ≡ line_of (S.seen starter) None None }
    {
        CleanLine {
            alloc,
            starter,
            session: None,
            refusing: None,
        }
    }

    /// What the driver makes of a content for a path of 1 to 4,096 bytes. It is started, and a session opened, if none
    /// is open and no path before was refused for good.
    pub fn clean(&mut self, path: &[u8], content: &[u8]) -> Result<Bytes, CleanFault>
        requires few { length self.old.starter.had < 2 ^ 32 }
        requires some { 1 ≤ length path.now }
        requires within { length path.now ≤ 4096 }
        ensures cleans { Cleans path.now content.now self.old self.new result }
        ensures starts { starts_of self.new ≤ starts_of self.old + 1 }
    {
        match self.refusing {
            Some(why) => Err(CleanFault::Refused(why)),
            None => self.clean_willing(path, content),
        }
    }

    /// Cleans a content where no path before was refused for good.
    fn clean_willing(&mut self, path: &[u8], content: &[u8]) -> Result<Bytes, CleanFault>
        requires willing { self.old.refusing ≡ None }
        requires few { length self.old.starter.had < 2 ^ 32 }
        requires some { 1 ≤ length path.now }
        requires within { length path.now ≤ 4096 }
        ensures cleans { CleansBy path.now content.now None self.old.session self.old self.new result }
        ensures starts { starts_of self.new ≤ starts_of self.old + 1 }
    {
        if self.session.is_some() {
            self.ask(path, content)
        } else {
            self.start_for(path, content)
        }
    }

    /// Cleans a content by a session that it starts, where none is open.
    fn start_for(&mut self, path: &[u8], content: &[u8]) -> Result<Bytes, CleanFault>
        requires willing { self.old.refusing ≡ None }
        requires none { self.old.session ≡ None }
        requires few { length self.old.starter.had < 2 ^ 32 }
        requires some { 1 ≤ length path.now }
        requires within { length path.now ≤ 4096 }
        ensures cleans { StartsFor path.now content.now self.old.starter self.new result }
        ensures starts { starts_of self.new ≤ starts_of self.old + 1 }
    {
        match self.open() {
            Ok(()) => self.ask(path, content),
            Err(fault) => Err(fault),
        }
    }

    /// What starts the driver, once the open session is shut. None of its links is out then.
    pub fn into_starter(self) -> S
        ensures closes { Closes self (S.seen result) }
        ensures none_out { (S.seen result).out ≡ 0 }
    {
        let CleanLine {
            mut starter,
            session,
            ..
        } = self;
        if let Some(session) = session {
            end_session(&mut starter, session);
        }
        starter
    }

    /// Starts the driver, and opens a session that can be asked.
    fn open(&mut self) -> Result<(), CleanFault>
        requires none { self.old.session ≡ None }
        requires willing { self.old.refusing ≡ None }
        requires few { length self.old.starter.had < 2 ^ 32 }
        ensures ok { OnOk result ((s : SessionSeen) × Begins self.old.starter self.new.starter (Ok s)
            × (self.new ≡ line_of self.new.starter (Some s) None)) }
        ensures err { IfErr result (λ fault. Begins self.old.starter self.new.starter (Err fault)
            × (self.new ≡ line_of self.new.starter None (lasting fault))) }
        ensures starts { starts_of self.new ≤ starts_of self.old + 1 }
    {
        match begin(self.alloc, &mut self.starter) {
            Ok(session) => {
                self.session = Some(session);
                Ok(())
            }
            Err(fault) => {
                self.refusing = lasting(fault);
                Err(fault)
            }
        }
    }

    /// Asks for a path in the open session.
    fn ask(&mut self, path: &[u8], content: &[u8]) -> Result<Bytes, CleanFault>
        requires open { IsSome self.old.session }
        requires some { 1 ≤ length path.now }
        requires within { length path.now ≤ 4096 }
        ensures asked { (s : SessionSeen) → self.old.session ≡ Some s
            → IsAsked path.now content.now self.old.starter s self.new result }
        ensures starts { starts_of self.new ≤ starts_of self.old }
    {
        let answer = answer_of(self.reply(path, content));
        self.refusing = lasting_in(&answer);
        answer
    }

    /// The reply for a path in the open session, which ends where it is over.
    fn reply(&mut self, path: &[u8], content: &[u8]) -> Cleaned
        requires open { IsSome self.old.session }
        requires some { 1 ≤ length path.now }
        requires within { length path.now ≤ 4096 }
        ensures replies { (s : SessionSeen) → self.old.session ≡ Some s
            → Replies path.now content.now self.old.starter s self.new result }
        ensures starts { starts_of self.new ≤ starts_of self.old }
    {
        let Some(mut session) = self.session.take() else {
            unreachable!()
        };
        let cleaned = session.ask(path, content);
        if session.live() {
            self.session = Some(session);
        } else {
            end_session(&mut self.starter, session);
        }
        cleaned
    }
}

/// Why every later path is refused after a fault, if it is.
fn lasting(fault: CleanFault) -> Option<CleanCause>
    ensures { result ≡ lasting fault }
{
    match fault {
        CleanFault::Refused(CleanCause::Abort) => Some(CleanCause::Abort),
        CleanFault::Refused(CleanCause::NoClean) => Some(CleanCause::NoClean),
        CleanFault::Refused(_) | CleanFault::NoMemory => None,
    }
}

fn lasting_in(answer: &Result<Bytes, CleanFault>) -> Option<CleanCause>
    ensures { result ≡ lasting_in answer.now }
{
    match answer {
        Ok(_) => None,
        Err(fault) => lasting(*fault),
    }
}

/// What a reply comes to.
fn answer_of(cleaned: Cleaned) -> Result<Bytes, CleanFault>
    ensures { result ≡ answer_of cleaned }
{
    match cleaned {
        Cleaned::Content(content) => Ok(content),
        Cleaned::Error => Err(CleanFault::Refused(CleanCause::Error)),
        Cleaned::ErrorAfter => Err(CleanFault::Refused(CleanCause::ErrorAfter)),
        Cleaned::Abort => Err(CleanFault::Refused(CleanCause::Abort)),
        Cleaned::Broken(why) => Err(CleanFault::Refused(CleanCause::Broken(why))),
        Cleaned::NoMemory => Err(CleanFault::NoMemory),
    }
}
