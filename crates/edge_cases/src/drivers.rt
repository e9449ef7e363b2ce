//! Drivers in memory: their links, their starts, and what is kept of both.
//!
//! - `session`: the cells `output`, `piece`, `fail-send` and `fail-read`, of which the last two are a number or `-`,
//!   and then the calls: `send` and a piece, `read` into four bytes, `shut` the input, and `wait` for the end. What
//!   each call answers has a line, and then comes what is kept of the driver `d`.
//! - `starts`: the cells `start` with a command. What its three starts give, each read whole, or `!` for one that
//!   fails, has a line, and then comes what is kept of each driver. With the first cell `at-once` two sessions of `a`
//!   are held at once, of which the second ends first, and a starter of `b` is given back first. The driver `a`
//!   starts, fails and starts; `b` starts once; a second `a` is ignored.
//!
//! What is kept of a driver is its command, and then in order a `!` for each failed start, and for each session what
//! was sent and taken, its counts of faults and of ends, and a dot if it was shut.
ghost use Rattle.std.specs.Prelude.{◌≡◌, ◌≤◌, ◌<◌, ◌+◌, ◌^◌, length};

use byte_path::{Bytes, Items};
use case_kit::{Cell, number_of, push_all, shown, unknown};
use edge_kit::{
    DriverScript, DriverSeen, Link, MemorySpawner, SendFault, SessionScript, SessionSeen, Spawner,
    StartOutcome, Starter,
};
use std::alloc::{AllocError, Global};
use std::test::Fail;

/// The start of a session that writes this, in pieces of nine bytes. With nothing to write it fails.
fn session_of(alloc: Global, output: &[u8]) -> Result<SessionScript, AllocError> {
    Ok(SessionScript {
        starts: !output.is_empty(),
        output: Bytes::copy_of(alloc, output)?,
        piece: 9,
        fail_send: None,
        fail_read: None,
    })
}

/// A driver of these starts.
fn driver_of(
    alloc: Global,
    command: &[u8],
    sessions: Vec<SessionScript>,
) -> Result<DriverScript, AllocError> {
    Ok(DriverScript {
        command: Bytes::copy_of(alloc, command)?,
        sessions: Items::from_vec(sessions),
    })
}

/// Appends what is kept of a session.
fn push_session(
    alloc: Global,
    came: &mut Vec<u8>,
    session: &SessionSeen,
) -> Result<(), AllocError> {
    let (sent, taken) = (session.sent.as_slice(), session.taken.as_slice());
    let end: &[u8] = if session.shut { b"." } else { b"" };
    let faults = shown(alloc, session.faults)?;
    let ends = shown(alloc, session.ends)?;
    push_all(came, &[b" ", sent, b">", taken, b" ", &faults, &ends, end])
}

/// Appends what is kept of a driver, and a line feed.
fn push_driver(alloc: Global, came: &mut Vec<u8>, driver: &DriverSeen) -> Result<(), AllocError> {
    came.extend_from_slice(driver.command.as_slice())?;
    for start in driver.starts.as_slice() {
        match &start.outcome {
            StartOutcome::Failed => came.extend_from_slice(b" !")?,
            StartOutcome::Session(session) => push_session(alloc, came, session)?,
        }
    }
    came.extend_from_slice(b"\n")
}

/// Appends what is kept of the drivers, in order.
fn push_kept(alloc: Global, came: &mut Vec<u8>, drivers: &[DriverSeen]) -> Result<(), AllocError> {
    for driver in drivers {
        push_driver(alloc, came, driver)?;
    }
    Ok(())
}

/// What a read into four bytes gives, or `!`.
fn read_of<L: Link>(alloc: Global, link: &mut L) -> Result<Vec<u8>, AllocError> {
    let mut into = [0; 4];
    match link.read(&mut into) {
        Ok(count) => Vec::from_slice(alloc, into.as_slice().split_at(count).0),
        Err(_) => Vec::from_slice(alloc, b"!"),
    }
}

/// What a call answers.
fn answer_of<L: Link>(alloc: Global, link: &mut L, cell: &Cell) -> Result<Vec<u8>, Fail> {
    let key = cell.key.as_slice();
    if key == b"send".as_slice() {
        Ok(shown(alloc, link.send(&cell.value))?)
    } else if key == b"read".as_slice() {
        Ok(read_of(alloc, link)?)
    } else if key == b"shut".as_slice() {
        Ok(shown(alloc, link.shut_input())?)
    } else if key == b"wait".as_slice() {
        Ok(shown(alloc, link.wait_end())?)
    } else {
        Err(unknown(key))
    }
}

/// Appends what calls on a link answer, each on a line.
fn push_answers<L: Link>(
    alloc: Global,
    came: &mut Vec<u8>,
    link: &mut L,
    calls: &[Cell],
) -> Result<(), Fail> {
    for call in calls {
        let answer = answer_of(alloc, link, call)?;
        push_all(came, &[&answer, b"\n"])?;
    }
    Ok(())
}

/// Makes these calls in one session.
fn talk_by<S: Starter>(
    alloc: Global,
    came: &mut Vec<u8>,
    starter: &mut S,
    calls: &[Cell],
) -> Result<(), Fail>
    requires { length (S.seen starter.old).had < 2 ^ 32 }
    ensures { (S.seen starter.new).out ≡ (S.seen starter.old).out }
{
    match starter.start() {
        Ok(mut link) => {
            let pushed = push_answers(alloc, came, &mut link, calls);
            starter.end(link);
            pushed
        }
        Err(_) => Err(unknown(b"start")),
    }
}

/// Makes these calls in one session of the driver `d`.
fn talk<P: Spawner>(
    alloc: Global,
    came: &mut Vec<u8>,
    spawner: &mut P,
    calls: &[Cell],
) -> Result<(), Fail> {
    let mut starter = spawner.starter(b"d")?;
    let pushed = talk_by(alloc, came, &mut starter, calls);
    spawner.take_back(starter);
    pushed
}

/// The number of a call that fails.
fn call_at(cell: &Cell) -> Result<Option<u32>, Fail> {
    if cell.value.as_slice() == b"-".as_slice() {
        return Ok(None);
    }
    Ok(Some(number_of(&cell.value)?))
}

/// The session of these cells.
fn session_by(
    alloc: Global,
    output: &Cell,
    piece: &Cell,
    fail_send: &Cell,
    fail_read: &Cell,
) -> Result<SessionScript, Fail> {
    let piece = number_of(&piece.value)?;
    let fail_send = call_at(fail_send)?;
    let fail_read = call_at(fail_read)?;
    Ok(SessionScript {
        starts: true,
        output: Bytes::copy_of(alloc, &output.value)?,
        piece,
        fail_send,
        fail_read,
    })
}

/// The driver `d` with this session.
fn spawner_of(alloc: Global, session: SessionScript) -> Result<MemorySpawner, AllocError> {
    let sessions = vec![in alloc; session]?;
    let driver = driver_of(alloc, b"d", sessions)?;
    let scripts = vec![in alloc; driver]?;
    Ok(MemorySpawner::new(alloc, scripts))
}

/// Appends what the calls in a session of the driver `d` answer, and what is kept of it.
fn push_talk(
    alloc: Global,
    came: &mut Vec<u8>,
    spawner: &mut MemorySpawner,
    calls: &[Cell],
) -> Result<(), Fail> {
    talk(alloc, came, spawner, calls)?;
    push_kept(alloc, came, spawner.drivers())?;
    Ok(())
}

/// What comes of a case of the kind `session`.
pub fn talked(alloc: Global, cells: &[Cell]) -> Result<Vec<u8>, Fail> {
    let [output, piece, fail_send, fail_read, calls @ ..] = cells else {
        return Err(unknown(b"session"));
    };
    let session = session_by(alloc, output, piece, fail_send, fail_read)?;
    let mut spawner = spawner_of(alloc, session)?;
    let mut came = Vec::new(alloc);
    push_talk(alloc, &mut came, &mut spawner, calls)?;
    Ok(came)
}

/// Appends the start of a session that writes each of these.
fn push_sessions(
    alloc: Global,
    sessions: &mut Vec<SessionScript>,
    outputs: &[&[u8]],
) -> Result<(), AllocError> {
    for output in outputs {
        sessions.push(session_of(alloc, output)?)?;
    }
    Ok(())
}

/// Appends the driver of a session that writes each of these.
fn push_script(
    alloc: Global,
    scripts: &mut Vec<DriverScript>,
    command: &[u8],
    outputs: &[&[u8]],
) -> Result<(), AllocError> {
    let mut sessions = Vec::new(alloc);
    push_sessions(alloc, &mut sessions, outputs)?;
    scripts.push(driver_of(alloc, command, sessions)?)?;
    Ok(())
}

/// Appends the drivers: `a` starts, fails and starts; `b` starts once; a second `a` is ignored.
fn push_scripts(alloc: Global, scripts: &mut Vec<DriverScript>) -> Result<(), AllocError> {
    push_script(alloc, scripts, b"a", &[b"one", b"", b"two"])?;
    push_script(alloc, scripts, b"b", &[b"six"])?;
    push_script(alloc, scripts, b"a", &[b"six"])
}

/// The drivers `a` and `b`.
fn spawner_of_two(alloc: Global) -> Result<MemorySpawner, AllocError> {
    let mut scripts = Vec::new(alloc);
    push_scripts(alloc, &mut scripts)?;
    Ok(MemorySpawner::new(alloc, scripts))
}

/// What a start gives, read whole, or `!` if it fails.
fn start_of<S: Starter>(alloc: Global, starter: &mut S) -> Result<Vec<u8>, AllocError>
    requires { length (S.seen starter.old).had < 10 }
    ensures had { length (S.seen starter.new).had ≤ length (S.seen starter.old).had + 1 }
    ensures out { (S.seen starter.new).out ≡ (S.seen starter.old).out }
{
    match starter.start() {
        Ok(mut link) => {
            let came = read_of(alloc, &mut link);
            starter.end(link);
            came
        }
        Err(_) => Vec::from_slice(alloc, b"!"),
    }
}

/// Appends what a start gives, and this behind it.
fn push_start<S: Starter>(
    alloc: Global,
    came: &mut Vec<u8>,
    starter: &mut S,
    behind: &[u8],
) -> Result<(), AllocError>
    requires { length (S.seen starter.old).had < 10 }
    ensures had { length (S.seen starter.new).had ≤ length (S.seen starter.old).had + 1 }
    ensures out { (S.seen starter.new).out ≡ (S.seen starter.old).out }
{
    let given = start_of(alloc, starter)?;
    push_all(came, &[&given, behind])
}

/// Appends what three starts of a starter give.
fn push_three<S: Starter>(
    alloc: Global,
    came: &mut Vec<u8>,
    starter: &mut S,
) -> Result<(), AllocError>
    requires { length (S.seen starter.old).had < 8 }
    ensures { (S.seen starter.new).out ≡ (S.seen starter.old).out }
{
    push_start(alloc, came, starter, b" ")?;
    push_start(alloc, came, starter, b" ")?;
    push_start(alloc, came, starter, b"\n")
}

/// Appends what three starts of a driver give, by one starter.
fn push_starts<P: Spawner>(
    alloc: Global,
    came: &mut Vec<u8>,
    spawner: &mut P,
    command: &[u8],
) -> Result<(), AllocError> {
    let mut starter = spawner.starter(command)?;
    let pushed = push_three(alloc, came, &mut starter);
    spawner.take_back(starter);
    pushed
}

/// What a start gives that fails while the first session goes on, before a second one.
fn start_beside<S: Starter>(
    alloc: Global,
    starter: &mut S,
    first: &mut S::Link,
) -> Result<Vec<u8>, SendFault>
    requires { length (S.seen starter.old).had < 9 }
    ensures { (S.seen starter.new).out ≡ (S.seen starter.old).out }
{
    let failed = start_of(alloc, starter)?;
    let second = starter.start()?;
    let sent = first.send(b"hello");
    starter.end(second);
    sent?;
    Ok(failed)
}

/// What a start gives that fails between two sessions at once, of which the second ends first.
fn two_sessions<S: Starter>(alloc: Global, starter: &mut S) -> Result<Vec<u8>, SendFault>
    requires { length (S.seen starter.old).had < 8 }
    ensures { (S.seen starter.new).out ≡ (S.seen starter.old).out }
{
    let mut first = starter.start()?;
    let failed = start_beside(alloc, starter, &mut first);
    starter.end(first);
    failed
}

/// Two sessions of `a` at once, of which the second ends first, and a starter of `b` that is given back first.
fn two_starters<P: Spawner>(alloc: Global, spawner: &mut P) -> Result<Vec<u8>, SendFault> {
    let mut starter = spawner.starter(b"a")?;
    let other = spawner.starter(b"b")?;
    let failed = two_sessions(alloc, &mut starter);
    spawner.take_back(other);
    spawner.take_back(starter);
    failed
}

/// Appends what the starts of a cell give.
fn push_started(
    alloc: Global,
    came: &mut Vec<u8>,
    spawner: &mut MemorySpawner,
    cell: &Cell,
) -> Result<(), SendFault> {
    if cell.key.as_slice() == b"at-once".as_slice() {
        let failed = two_starters(alloc, spawner)?;
        push_all(came, &[&failed, b"\n"])?;
    } else {
        push_starts(alloc, came, spawner, &cell.value)?;
    }
    Ok(())
}

/// Appends what the starts of the cells give, and what is kept of the drivers.
fn push_all_started(
    alloc: Global,
    came: &mut Vec<u8>,
    spawner: &mut MemorySpawner,
    cells: &[Cell],
) -> Result<(), SendFault> {
    for cell in cells {
        push_started(alloc, came, spawner, cell)?;
    }
    push_kept(alloc, came, spawner.drivers())?;
    Ok(())
}

/// What comes of a case of the kind `starts`.
pub fn started(alloc: Global, cells: &[Cell]) -> Result<Vec<u8>, Fail> {
    let mut spawner = spawner_of_two(alloc)?;
    let mut came = Vec::new(alloc);
    push_all_started(alloc, &mut came, &mut spawner, cells)?;
    Ok(came)
}
