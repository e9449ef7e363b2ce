//! What an index tells of a file, by what the system tells of it, and which permissions a shared repository's files have.
#![tactic(auto)]

ghost use Rattle.std.specs.Prelude.{◌≡◌, ◌%◌, ◌^◌};

mod sharing;

use git_index::Stat;
pub use sharing::{Sharing, share_file, share_folder};
use std::fs::Metadata;
use std::os::unix::fs::MetadataExt;

/// The low 32 bits.
fn low(number: u64) -> u32
    ensures { result ≡ number % 2 ^ 32 }
{
    (number % (1 << 32)) as u32
}

/// The low 32 bits of a time, which may be one before 1970.
fn low_of_time(time: i64) -> u32 {
    low(time.cast_unsigned())
}

/// What an index tells of this file or link.
pub fn stat_of(found: &Metadata) -> Stat {
    Stat {
        ctime: low_of_time(found.ctime()),
        ctime_nanos: low_of_time(found.ctime_nsec()),
        mtime: low_of_time(found.mtime()),
        mtime_nanos: low_of_time(found.mtime_nsec()),
        dev: low(found.dev()),
        ino: low(found.ino()),
        uid: found.uid(),
        gid: found.gid(),
        size: low(found.size()),
        valid: false,
    }
}
