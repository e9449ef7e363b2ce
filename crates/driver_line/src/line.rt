ghost use Rattle.std.specs.Prelude.{map, IsTrue, IsSome, ◌↔◌, ◌≡◌, ◌≢◌, ◌≤◌, ◌<◌, ◌+◌, ◌^◌, ℕ, Bool, true, false};
ghost use Rattle.std.specs.Prelude.{Option, Some, None, List, [], length};
ghost use Rattle.filter_words.specs.Requests.{first_text, second_text};
ghost use Rattle.delay_table.specs.Table.{contains};
ghost use Rattle.edge_kit.specs.declared.leaf_state.LeafState.TheVariants as state;
ghost use Rattle.filter_proto.specs.Wires.{SessionSeen};
ghost use Rattle.filter_proto.specs.Replies.{standing_after};
ghost use Rattle.driver_line.specs.Conversations.{Exchange, First, Second, Listing, Shutting};
ghost use Rattle.driver_line.specs.Lines.{LineView, Paths, Says, IsEnded, OpenIs, IsOpen};
ghost use Rattle.driver_line.specs.Lines.{IsLeafAfter, MayReply};
ghost use Rattle.driver_line.specs.Lines.{HasAnswered, SessionAfter, StandsAfter, GoesOn, NamesAre, IsLive};
ghost use Rattle.driver_line.specs.Lines.{list_standing};
ghost use Rattle.driver_line.specs.Lines.{late_in, names_in, AreDelayed, IsListedTable, starts_of};

use byte_path::ObjectId;
use checkout_core::OpenCause;
use delay_table::DelayTable;
use edge_kit::{Leaf, Link, SendFault, Starter};
use filter_proto::{Asked, Begun, Session, Standing};
use filter_words::{Caps, ListReply};
use std::alloc::Global;
use std::marker::Model;

/// What came of the opening of a session.
#[derive(Clone, Copy)]
pub enum SessionStart {
    Live(Caps),
    Failed(OpenCause),
}

/// What starts a driver, and the session that is open, if one is.
#[derive(Drop)]
pub struct Line<S: Starter> {
    alloc: Global,
    starter: S,
    session: Option<Session<S::Link>>,
}

impl<S: Starter> Model for Line<S> {
    ghost use Rattle.std.specs.Prelude.{◌≡◌, ◌<◌, Some};
    ghost use Rattle.filter_proto.specs.Wires.{SessionSeen};
    ghost use Rattle.driver_line.specs.Lines.{LineView};

    ghost Value = { LineView };

    ghost view = { λ l. record { starter = S.seen l.starter; session = l.session } };

    ghost invariant = { λ l. (s : SessionSeen) → l.session ≡ Some s → 0 < (S.seen l.starter).out };
}

impl<S: Starter> Line<S> {
    /// A line with no session.
    pub fn new(alloc: Global, starter: S) -> Line<S>
        ensures { result ≡ record { starter = S.seen starter; session = None } }
    {
        Line {
            alloc,
            starter,
            session: None,
        }
    }

    /// Ends the open session. One that could be asked is shut.
    pub fn finish(&mut self)
        ensures ended { (s : SessionSeen) → self.old.session ≡ Some s
            → IsEnded self.old.starter s.wire s.standing self.new }
        ensures same { self.old.session ≡ None → self.new ≡ self.old }
        ensures none { self.new.session ≡ None }
        ensures starts { starts_of self.new ≤ starts_of self.old }
    {
        if let Some(session) = self.session.take() {
            let link = session.shut();
            self.starter.end(link);
        }
    }
}

impl<S: Starter> Line<S> {
    /// Opens a session.
    pub fn open(&mut self) -> SessionStart
        requires none { self.old.session ≡ None }
        requires few { length self.old.starter.had < 2 ^ 32 }
        ensures says { (p : ℕ) → (e : Exchange) × OpenIs p result e × ((paths : Paths)
            → Says paths self.old e self.new) }
        ensures session { SessionAfter result self.new.session }
        ensures starts { starts_of self.new ≤ starts_of self.old + 1 }
    {
        match self.starter.start() {
            Ok(link) => match Session::begin(self.alloc, link) {
                Begun::Live(session) => {
                    let caps = session.caps();
                    self.session = Some(session);
                    SessionStart::Live(caps)
                }
                Begun::Broken(link, cause) => {
                    self.starter.end(link);
                    SessionStart::Failed(OpenCause::Broken(cause))
                }
                Begun::NoMemory(link) => {
                    self.starter.end(link);
                    SessionStart::Failed(OpenCause::NoMemory)
                }
            },
            Err(SendFault::Failed) => SessionStart::Failed(OpenCause::NotStarted),
            Err(SendFault::NoMemory) => SessionStart::Failed(OpenCause::NoMemory),
        }
    }

    /// What starts the driver, when no session is open any more.
    pub fn into_starter(self) -> S
        requires none { self.session ≡ None }
        ensures { S.seen result ≡ self.starter }
    {
        let Line { starter, .. } = self;
        starter
    }

    /// Whether a session is open.
    pub fn is_open(&self) -> bool
        ensures { IsTrue result ↔ IsSome self.now.session }
    {
        self.session.is_some()
    }

    /// Whether the driver of the open session announced `smudge`.
    pub fn has_smudge(&self) -> bool
        ensures yes { IsTrue result → (s : SessionSeen) → self.now.session ≡ Some s → s.caps.smudge ≡ true }
        ensures no { result ≡ false → (s : SessionSeen) → self.now.session ≡ Some s → s.caps.smudge ≡ false }
    {
        match &self.session {
            Some(session) => session.caps().smudge,
            None => false,
        }
    }

    /// Asks for a path in the open session, with the name of its object, and ends the session where it is over.
    pub fn ask<L: Leaf>(
        &mut self,
        text: &[u8],
        name: &ObjectId,
        content: &[u8],
        leaf: &mut L,
    ) -> Asked
        requires open { IsOpen self.old.session }
        requires fresh { (L.seen leaf.old).state ≡ state.Fresh }
        requires some { 1 ≤ length text.now }
        requires few { length text.now ≤ 4096 }
        ensures says { (p : ℕ) → (c : List ℕ) × ((paths : Paths) → paths.text p ≡ text.now
            → paths.name p ≡ name.now → paths.content p ≡ content.now
            → Says paths self.old (First p result.reply c) self.new)
            × IsLeafAfter (L.seen leaf.old) (L.seen leaf.new) result.put result.reply c }
        ensures goes { (s : SessionSeen) → self.old.session ≡ Some s
            → GoesOn s (standing_after result.reply) self.new.session }
        ensures may { (s : SessionSeen) → self.old.session ≡ Some s
            → MayReply s.caps.delay result.reply }
        ensures starts { starts_of self.new ≤ starts_of self.old }
    {
        let Some(session) = &mut self.session else {
            unreachable!()
        };
        let asked = ask_in(session, text, name, content, leaf);
        if !session.live() {
            self.finish();
        }
        asked
    }

    /// Asks again for a path in the open session, and ends the session where it is over.
    pub fn ask_again<L: Leaf>(&mut self, text: &[u8], name: &ObjectId, leaf: &mut L) -> Asked
        requires open { IsOpen self.old.session }
        requires fresh { (L.seen leaf.old).state ≡ state.Fresh }
        requires some { 1 ≤ length text.now }
        requires few { length text.now ≤ 4096 }
        ensures says { (p : ℕ) → (c : List ℕ) × ((paths : Paths) → paths.text p ≡ text.now
            → paths.name p ≡ name.now → Says paths self.old (Second p result.reply c) self.new)
            × IsLeafAfter (L.seen leaf.old) (L.seen leaf.new) result.put result.reply c }
        ensures goes { (s : SessionSeen) → self.old.session ≡ Some s
            → GoesOn s (standing_after result.reply) self.new.session }
        ensures may { MayReply false result.reply }
        ensures starts { starts_of self.new ≤ starts_of self.old }
    {
        let Some(session) = &mut self.session else {
            unreachable!()
        };
        let asked = ask_again_in(session, text, name, leaf);
        if !session.live() {
            self.finish();
        }
        asked
    }
}

impl<S: Starter> Line<S> {
    /// Asks the open session which delayed paths are ready, and ends the session where it is over, as after an empty
    /// list. The table has a place for each of these paths.
    pub fn list(&mut self, table: &mut DelayTable, numbers: &[u32]) -> ListReply
        requires live { IsLive self.old.session }
        requires none { table.old.turns ≡ [] }
        ensures says { (paths : Paths) (late : List ℕ) → table.old.names ≡ map paths.text numbers.now
            → ((q : ℕ) → contains q late ≡ contains q (late_in numbers.now table.old.places))
            → Says paths self.old (Listing late (names_in numbers.now table.new.turns result) result) self.new }
        ensures names { (known : List ℕ) → AreDelayed known numbers.now table.old
            → NamesAre known (names_in numbers.now table.new.turns result) result }
        ensures goes { (s : SessionSeen) → self.old.session ≡ Some s
            → GoesOn s (list_standing result) self.new.session }
        ensures table { IsListedTable table.old table.new }
        ensures starts { starts_of self.new ≤ starts_of self.old }
    {
        let Some(session) = &mut self.session else {
            unreachable!()
        };
        let reply = session.list(table);
        if ends_session(reply) {
            self.finish();
        }
        reply
    }

    /// Shuts the open session, in which nothing is owed any more.
    pub fn shut(&mut self)
        requires { IsLive self.old.session }
        ensures says { (paths : Paths) → Says paths self.old Shutting self.new }
        ensures none { self.new.session ≡ None }
    {
        self.finish();
    }
}

/// Asks in an open session.
#[tactic(auto, using(crate::proofs::Ends::with_content, crate::proofs::Ends::asked_may))]
fn ask_in<K: Link, L: Leaf>(
    session: &mut Session<K>,
    text: &[u8],
    name: &ObjectId,
    content: &[u8],
    leaf: &mut L,
) -> Asked
    requires live { session.old.standing ≡ Standing.Live }
    requires smudge { session.old.caps.smudge ≡ true }
    requires fresh { (L.seen leaf.old).state ≡ state.Fresh }
    requires some { 1 ≤ length text.now }
    requires few { length text.now ≤ 4096 }
    ensures answered { HasAnswered session.old.caps.delay
        (first_text text.now name.now session.old.caps.delay content.now) session.old.wire session.new.wire
        (L.seen leaf.old) (L.seen leaf.new) result.put result.reply }
    ensures may { MayReply session.old.caps.delay result.reply }
    ensures after { StandsAfter result.reply session.old session.new }
{
    session.ask(text, name, content, leaf)
}

/// Asks again in an open session.
#[tactic(auto, using(crate::proofs::Ends::with_content, crate::proofs::Ends::asked_may))]
fn ask_again_in<K: Link, L: Leaf>(
    session: &mut Session<K>,
    text: &[u8],
    name: &ObjectId,
    leaf: &mut L,
) -> Asked
    requires live { session.old.standing ≡ Standing.Live }
    requires smudge { session.old.caps.smudge ≡ true }
    requires fresh { (L.seen leaf.old).state ≡ state.Fresh }
    requires some { 1 ≤ length text.now }
    requires few { length text.now ≤ 4096 }
    ensures answered { HasAnswered false (second_text text.now name.now) session.old.wire session.new.wire
        (L.seen leaf.old) (L.seen leaf.new) result.put result.reply }
    ensures may { MayReply false result.reply }
    ensures after { StandsAfter result.reply session.old session.new }
{
    session.ask_again(text, name, leaf)
}

/// Whether a session is over after a list.
fn ends_session(reply: ListReply) -> bool
    ensures yes { result ≡ true → list_standing reply ≢ Standing.Live }
    ensures no { result ≡ false → list_standing reply ≡ Standing.Live }
{
    match reply {
        ListReply::Names(_) => false,
        ListReply::Empty | ListReply::Abort | ListReply::Broken(_) | ListReply::NoMemory => true,
    }
}
