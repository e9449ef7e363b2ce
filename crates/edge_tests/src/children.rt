//! Child processes: what they are sent, what they write, how they end.
ghost use Rattle.std.specs.Prelude.{◌≡◌, ◌≤◌, ◌<◌, ◌+◌, length};

use crate::place::{folder_with, path_in};
use crate::table::is_right;
use edge_adapters::{ProcessLink, ProcessSpawner};
use edge_kit::{Failed, Link, SendFault, Spawner, Starter};
use std::alloc::{AllocError, Global};
use std::fs::remove_dir_all;
use std::io;
use std::test::Fail;
use std::thread::sleep;
use std::time::Duration;

/// A command, what it is sent before its input is closed, and the whole of what it writes.
const CASES: [(&[u8], &[u8], &[u8]); 4] = [
    (b"cat", b"one\ntwo\n", b"one\ntwo\n"),
    // the shell reads the command
    (b"tr a-c A-C | tr A x; printf '\\0'", b"abcd", b"xBCd\0"),
    // its exit status isn't looked at
    (b"printf done; exit 3", b"", b"done"),
    (b"exit 0", b"", b""),
];

/// Reads to the end of the output, by pieces of at most four bytes.
fn read_all(alloc: Global, link: &mut ProcessLink) -> Result<Option<Vec<u8>>, AllocError> {
    let mut all = Vec::new(alloc);
    let mut piece = [0; 4];
    for _ in 0..100 {
        match link.read(&mut piece) {
            Ok(0) => return Ok(Some(all)),
            Ok(count) => {
                let (front, _) = piece.split_at(count.min(4));
                all.extend_from_slice(front)?;
            }
            Err(Failed) => return Ok(None),
        }
    }
    Ok(None)
}

/// Whether a link that is sent this gives this output, and can be shut.
fn gives(
    alloc: Global,
    link: &mut ProcessLink,
    sent: &[u8],
    output: &[u8],
) -> Result<bool, AllocError> {
    let is_sent = sent.is_empty() || link.send(sent).is_ok();
    let shut = link.shut_input().is_ok();
    let all = read_all(alloc, link)?;
    let waited = link.wait_end().is_ok();
    Ok(is_sent && shut && waited && all.is_some_and(|bytes| bytes.as_slice() == output))
}

/// Whether the session of a command is so.
fn is_so(rt: HostRuntime, command: &[u8], sent: &[u8], output: &[u8]) -> Result<bool, Fail> {
    let mut spawner = ProcessSpawner::new(rt);
    let mut starter = spawner.starter(command)?;
    let Ok(mut link) = starter.start() else {
        return Ok(false);
    };
    let right = gives(rt.alloc(), &mut link, sent, output)?;
    starter.end(link);
    spawner.take_back(starter);
    Ok(right)
}

#[test]
fn a_child_is_sent_its_input_and_its_output_is_read(rt: HostRuntime) -> Result<(), Fail> {
    for (command, sent, output) in CASES {
        is_right(&rt, is_so(rt, command, sent, output)?, command);
    }
    Ok(())
}

#[test]
fn a_send_to_a_closed_input_is_no_fault_and_no_signal(rt: HostRuntime) -> Result<(), Fail> {
    let mut starter = ProcessSpawner::new(rt).starter(b"exec <&-; printf x")?;
    let Ok(mut link) = starter.start() else {
        panic!(rt; "not started");
    };
    // its output ends after its input is closed
    let output = read_all(rt.alloc(), &mut link)?;
    assert!(rt; output.is_some_and(|bytes| bytes.as_slice() == b"x".as_slice()));
    assert!(rt; link.send(b"more").is_ok());
    assert!(rt; link.send(b"and more").is_ok());
    // what it wrote has ended, and stays so
    let rest = read_all(rt.alloc(), &mut link)?;
    assert!(rt; rest.is_some_and(|bytes| bytes.is_empty()));
    // but nothing is sent once this side has closed the input
    assert!(rt; link.shut_input().is_ok());
    assert!(rt; matches!(link.send(b"more"), Err(SendFault::Failed)));
    starter.end(link);
    Ok(())
}

/// The number of a child that is started, writes it, and is given up; or the empty text.
fn number_of<S: Starter>(alloc: Global, starter: &mut S) -> Result<String, AllocError>
    requires { length (S.seen starter.old).had < 10 }
    ensures had { length (S.seen starter.new).had ≤ length (S.seen starter.old).had + 1 }
    ensures out { (S.seen starter.new).out ≡ (S.seen starter.old).out }
{
    let mut piece = [0; 12];
    let count = match starter.start() {
        Ok(mut link) => {
            let count = link.read(&mut piece);
            starter.end(link);
            count.unwrap_or(0)
        }
        Err(_) => 0,
    };
    let (digits, _) = piece.as_slice().split_at(count.min(12));
    match str::from_utf8(digits) {
        Ok(number) => String::from_str(alloc, number),
        Err(_) => Ok(String::new(alloc)),
    }
}

/// Whether the system has a process of this number, be it a zombie.
fn is_there(rt: HostRuntime, number: &str) -> io::Result<bool> {
    let path = format!(in rt.alloc(); "/proc/{number}/stat")?;
    std::fs::exists(&rt, path.as_str())
}

#[test]
fn a_child_that_goes_on_is_ended_with_its_starter(rt: HostRuntime) -> Result<(), Fail> {
    if !std::fs::exists(&rt, "/proc/self/stat")? {
        return Ok(());
    }
    let mut spawner = ProcessSpawner::new(rt);
    let mut starter = spawner.starter(b"printf %s $$; exec sleep 1000")?;
    let first = number_of(rt.alloc(), &mut starter)?;
    let second = number_of(rt.alloc(), &mut starter)?;
    assert!(rt; is_there(rt, first.as_str())? && is_there(rt, second.as_str())?);
    spawner.take_back(starter);
    assert!(rt; !is_there(rt, first.as_str())? && !is_there(rt, second.as_str())?);
    Ok(())
}

/// A driver that goes on if no file is at the path, and makes one; and else ends.
const FIRST_GOES_ON: &str = "printf %s $$; [ -e PATH ] && exit; : >PATH; exec sleep 1000";

#[test]
fn a_child_that_has_ended_is_no_zombie_while_an_older_one_goes_on(
    rt: HostRuntime,
) -> Result<(), Fail> {
    if !std::fs::exists(&rt, "/proc/self/stat")? {
        return Ok(());
    }
    let folder = folder_with(rt, "zombie", "")?;
    let mark = path_in(rt, folder.as_str(), "mark")?;
    let command = FIRST_GOES_ON.replace(rt.alloc(), "PATH", mark.as_str())?;
    let mut spawner = ProcessSpawner::new(rt);
    let mut starter = spawner.starter(command.as_bytes())?;
    let first = number_of(rt.alloc(), &mut starter)?;
    let second = number_of(rt.alloc(), &mut starter)?;
    // time to end, also where others are at work, and a start, which looks
    sleep(&rt, Duration::from_millis(2000));
    let third = number_of(rt.alloc(), &mut starter)?;
    assert!(rt; is_there(rt, first.as_str())? && !is_there(rt, second.as_str())?);
    spawner.take_back(starter);
    assert!(rt; !is_there(rt, first.as_str())? && !is_there(rt, third.as_str())?);
    remove_dir_all(&rt, folder.as_str())?;
    Ok(())
}

/// Reads to the end of the output, or so far.
fn read_out<L: Link>(link: &mut L) {
    let mut piece = [0; 64];
    for _ in 0..100 {
        match link.read(&mut piece) {
            Ok(0) | Err(Failed) => return,
            Ok(_) => {}
        }
    }
}

/// One session, which is given up at the end of the output.
fn run_once<S: Starter>(starter: &mut S)
    requires { length (S.seen starter.old).had < 10 }
    ensures had { length (S.seen starter.new).had ≤ length (S.seen starter.old).had + 1 }
    ensures out { (S.seen starter.new).out ≡ (S.seen starter.old).out }
{
    if let Ok(mut link) = starter.start() {
        read_out(&mut link);
        starter.end(link);
    }
}

/// Whether this is what is kept of the first bytes of a command's output, after two sessions.
fn begins_with(rt: HostRuntime, command: &[u8], front: &[u8]) -> Result<bool, AllocError> {
    let mut spawner = ProcessSpawner::new(rt);
    let mut starter = spawner.starter(command)?;
    run_once(&mut starter);
    run_once(&mut starter);
    spawner.take_back(starter);
    match spawner.drivers() {
        [driver] => Ok(driver.front.as_slice() == front),
        _ => Ok(false),
    }
}

/// A command, and what is kept of what it writes first.
const FRONTS: [(&[u8], &[u8]); 5] = [
    (
        b"echo Not in a Git repository.",
        b"Not in a Git repository.\n",
    ),
    // packets begin with four hexadecimal digits
    (b"printf '0016git-filter-server\\n'", b""),
    (b"printf 00AfX", b""),
    (b"printf 00", b""),
    // 80 bytes of many
    (
        b"printf '%080d' 0 | tr 0 x; printf 'more than that'",
        &[b'x'; 80],
    ),
];

#[test]
fn what_a_driver_writes_in_place_of_packets_is_kept(rt: HostRuntime) -> Result<(), Fail> {
    for (command, front) in FRONTS {
        is_right(&rt, begins_with(rt, command, front)?, command);
    }
    Ok(())
}

#[test]
fn a_driver_that_still_writes_is_not_waited_for_in_vain(rt: HostRuntime) -> Result<(), Fail> {
    let mut starter = ProcessSpawner::new(rt).starter(b"yes")?;
    let Ok(mut link) = starter.start() else {
        panic!(rt; "not started");
    };
    assert!(rt; link.shut_input().is_ok());
    assert!(rt; link.wait_end().is_ok());
    starter.end(link);
    Ok(())
}

#[test]
fn a_command_that_is_not_text_is_not_started(rt: HostRuntime) -> Result<(), Fail> {
    let mut starter = ProcessSpawner::new(rt).starter(b"cat \xFF")?;
    assert!(rt; matches!(starter.start(), Err(SendFault::Failed)));
    Ok(())
}

#[test]
fn a_starter_starts_one_child_after_another(rt: HostRuntime) -> Result<(), Fail> {
    let mut starter = ProcessSpawner::new(rt).starter(b"cat")?;
    let Ok(mut first) = starter.start() else {
        panic!(rt; "not started");
    };
    assert!(rt; first.send(b"x").is_ok());
    // given up without a wait
    starter.end(first);
    let Ok(mut second) = starter.start() else {
        panic!(rt; "not started again");
    };
    assert!(rt; second.send(b"y").is_ok());
    starter.end(second);
    Ok(())
}
