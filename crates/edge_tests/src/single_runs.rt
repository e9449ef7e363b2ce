//! Commands that run once for a content, as child processes.
use crate::table::is_right;
use edge_adapters::ProcessSpawner;
use edge_kit::TakeFault;
use one_shot::{Once, OnceEnd, OnceMaker};
use std::alloc::AllocError;
use std::test::Fail;
use std::thread::Threads;

/// How many bytes an output may have.
const LIMIT: u64 = 4;

/// A command, its input, its output, and whether its exit status is 0.
const CASES: [(&[u8], &[u8], &[u8], bool); 5] = [
    (b"cat", b"one\n", b"one\n", true),
    // the shell reads the command
    (b"tr a-c A-C | tr A x", b"abcd", b"xBCd", true),
    // its input need not be read
    (b"printf done; exit 3", b"unread", b"done", false),
    (b"true", b"", b"", true),
    (b"no-such-command 2>/dev/null", b"", b"", false),
];

/// How a command ends.
fn end_of<T: Threads + Copy + Send>(
    rt: HostRuntime,
    threads: T,
    command: &[u8],
    input: &[u8],
    limit: u64,
) -> Result<Result<OnceEnd, TakeFault>, AllocError> {
    let mut once = ProcessSpawner::new(rt).once_maker(threads)?.once()?;
    Ok(once.run_once(command, input, limit))
}

#[test]
fn a_command_reads_the_content_and_its_output_is_taken(rt: HostRuntime) -> Result<(), Fail> {
    for (command, input, output, zero) in CASES {
        let end = end_of(rt, rt, command, input, LIMIT)?;
        let is_so = end.is_ok_and(|end| end.output.as_slice() == output && end.zero == zero);
        is_right(&rt, is_so, command);
    }
    Ok(())
}

#[test]
fn an_output_is_within_its_limit(rt: HostRuntime) -> Result<(), Fail> {
    let end = end_of(rt, rt, b"printf 12345; cat", b"6", LIMIT)?;
    assert!(rt; matches!(end, Err(TakeFault::TooLong)));
    Ok(())
}

#[test]
fn a_command_that_is_no_text_fails(rt: HostRuntime) -> Result<(), Fail> {
    let end = end_of(rt, rt, b"\xff", b"", LIMIT)?;
    assert!(rt; matches!(end, Err(TakeFault::Failed)));
    Ok(())
}

/// Whether a command gives so many bytes of an input that no pipe holds.
fn gives<T: Threads + Copy + Send>(
    rt: HostRuntime,
    threads: T,
    command: &[u8],
    count: usize,
) -> Result<bool, AllocError> {
    let input = vec![in rt.alloc(); b'x'; 1_000_000]?;
    let end = end_of(rt, threads, command, &input, 1_000_000)?;
    Ok(end.is_ok_and(|end| end.zero && end.output.as_slice().len() == count))
}

#[test]
fn a_large_content_goes_through_or_is_left_unread(rt: HostRuntime) -> Result<(), Fail> {
    assert!(rt; gives(rt, rt, b"cat", 1_000_000)?);
    assert!(rt; gives(rt, rt, b"true", 0)?);
    Ok(())
}
