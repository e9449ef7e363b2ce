//! How a session begins, and how it ends.
ghost use Rattle.std.specs.Prelude.{◌≡◌, ◌≤◌, ◌<◌, ◌+◌, ◌^◌, ℕ, List, OnOk, OnErr, length};
ghost use Rattle.filter_proto.specs.Wires.{wire_of};
ghost use Rattle.filter_proto.specs.declared.session.Standing.TheVariants.{Live, Over};
ghost use Rattle.clean_drivers.specs.CleanLines.{IsGivenBack, Opens, Begins};

use crate::cause::{CleanCause, CleanFault};
use edge_kit::{Link, SendFault, Starter};
use filter_proto::{CleanBegun, CleanSession};
use std::alloc::Global;

/// Starts a driver, and opens a session that can be asked. One that doesn't announce `clean` is shut.
pub fn begin<S: Starter>(
    alloc: Global,
    starter: &mut S,
) -> Result<CleanSession<S::Link>, CleanFault>
    requires few { length (S.seen starter.old).had < 2 ^ 32 }
    ensures begins { Begins (S.seen starter.old) (S.seen starter.new) result }
    ensures out { OnOk result ((S.seen starter.new).out ≡ (S.seen starter.old).out + 1) }
    ensures back { OnErr result ((S.seen starter.new).out ≡ (S.seen starter.old).out) }
    ensures had { length (S.seen starter.new).had ≤ length (S.seen starter.old).had + 1 }
{
    match starter.start() {
        Ok(link) => open(alloc, starter, link),
        Err(SendFault::Failed) => Err(CleanFault::Refused(CleanCause::NotStarted)),
        Err(SendFault::NoMemory) => Err(CleanFault::NoMemory),
    }
}

/// Opens a session over a link that a starter has just given.
fn open<S: Starter>(
    alloc: Global,
    starter: &mut S,
    link: S::Link,
) -> Result<CleanSession<S::Link>, CleanFault>
    requires out { 0 < (S.seen starter.old).out }
    ensures opens { Opens (S.Link.seen link) (S.seen starter.old) (S.seen starter.new) result }
    ensures out { OnOk result (S.seen starter.new ≡ S.seen starter.old) }
    ensures back { OnErr result ((S.seen starter.new).out + 1 ≡ (S.seen starter.old).out) }
    ensures had { length (S.seen starter.new).had ≤ length (S.seen starter.old).had + 1 }
{
    match CleanSession::begin(alloc, link) {
        CleanBegun::Live(session) => Ok(session),
        CleanBegun::NoClean(link) => {
            end_unclean(starter, link);
            Err(CleanFault::Refused(CleanCause::NoClean))
        }
        CleanBegun::Broken(link, why) => {
            end_unopened(starter, link);
            Err(CleanFault::Refused(CleanCause::Broken(why)))
        }
        CleanBegun::NoMemory(link) => {
            end_unopened(starter, link);
            Err(CleanFault::NoMemory)
        }
    }
}

/// Shuts a link whose driver doesn't clean, and gives it back. A fault of the two calls changes nothing else.
fn end_unclean<S: Starter>(starter: &mut S, mut link: S::Link)
    requires { 0 < (S.seen starter.old).out }
    ensures ended { (unread : List ℕ) → IsGivenBack (S.seen starter.old) (wire_of unread (S.Link.seen link)) Live
        (S.seen starter.new) }
    ensures had { length (S.seen starter.new).had ≡ length (S.seen starter.old).had + 1 }
    ensures out { (S.seen starter.new).out + 1 ≡ (S.seen starter.old).out }
{
    let _ = link.shut_input();
    let _ = link.wait_end();
    starter.end(link);
}

/// Gives a link back over which no session came about. Nothing is called on it.
fn end_unopened<S: Starter>(starter: &mut S, link: S::Link)
    requires { 0 < (S.seen starter.old).out }
    ensures ended { (unread : List ℕ) → IsGivenBack (S.seen starter.old) (wire_of unread (S.Link.seen link)) Over
        (S.seen starter.new) }
    ensures had { length (S.seen starter.new).had ≡ length (S.seen starter.old).had + 1 }
    ensures out { (S.seen starter.new).out + 1 ≡ (S.seen starter.old).out }
{
    starter.end(link);
}

/// Ends a session, which its starter keeps.
pub fn end_session<S: Starter>(starter: &mut S, session: CleanSession<S::Link>)
    requires { 0 < (S.seen starter.old).out }
    ensures ended { IsGivenBack (S.seen starter.old) session.wire session.standing (S.seen starter.new) }
    ensures had { length (S.seen starter.new).had ≡ length (S.seen starter.old).had + 1 }
    ensures out { (S.seen starter.new).out + 1 ≡ (S.seen starter.old).out }
{
    starter.end(session.shut());
}
