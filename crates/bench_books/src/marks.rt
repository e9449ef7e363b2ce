//! The two lines of a call, between which `tests/fail_alloc` counts allocations.
use std::io;
use std::io::Print;

/// This call comes next.
pub fn begin<R: Print>(rt: &R, call: &str) -> io::Result<()> {
    println!(rt; "{call}")
}

/// The call came, and gave what it should or something else.
pub fn end<R: Print>(rt: &R, is_right: bool) -> io::Result<()> {
    if is_right {
        println!(rt; "right")
    } else {
        println!(rt; "wrong")
    }
}

/// The first line, where calls are told.
pub fn call_begins<R: Print>(rt: &R, told: bool, call: &str) {
    if told {
        let _ = begin(rt, call);
    }
}

/// The second line, where calls are told.
pub fn call_ends<R: Print>(rt: &R, told: bool) {
    if told {
        let _ = end(rt, true);
    }
}
