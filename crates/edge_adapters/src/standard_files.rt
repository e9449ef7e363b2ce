//! Standard input, output and error, where this program was started without one of them.
use std::fs::{File, read_link};
use std::os::fd::{AsFd, AsRawFd};

/// The system's number for a descriptor that isn't open (EBADF).
const NOT_OPEN: i32 = 9;

/// How many descriptors a program is started with.
const STANDARD: i32 = 3;

/// Whether standard error leads to nothing, as where a stand-in has its number (proc_pid_fd(5)).
fn leads_nowhere(rt: HostRuntime) -> bool {
    match read_link(&rt, "/proc/self/fd/2") {
        Ok(file) => file.into_os_string().into_bytes().as_slice() == b"/dev/null".as_slice(),
        Err(_) => false,
    }
}

/// Whether standard error is closed, or leads to nothing.
pub fn is_silent(rt: HostRuntime) -> bool {
    match rt.stderr().as_fd().try_clone_to_owned() {
        Ok(_) => leads_nowhere(rt),
        Err(error) => error.raw_os_error() == Some(NOT_OPEN),
    }
}

/// Files that take the numbers of standard input, output and error where these are closed, so that no other file gets
/// one of them and then what is written there. Nothing can be written to them, as to what is closed. A program calls
/// this before it opens anything, and keeps them to its end.
pub fn hold_standard(rt: HostRuntime) -> Vec<File> {
    let mut held = Vec::new(rt.alloc());
    for _ in 0..STANDARD {
        match File::open(&rt, "/dev/null") {
            Ok(file) if file.as_raw_fd() < STANDARD => {
                let _ = held.push(file);
            }
            _ => return held,
        }
    }
    held
}
