//! A command that runs once for each content: `filter.<name>.clean`, gitattributes(5), "filter".
ghost use Rattle.std.specs.Prelude.{◌≡◌};
ghost use Rattle.clean_drivers.specs.Singles.{RunsSingle, run_answer};

use crate::cause::{CleanCause, CleanFault};
use byte_path::Bytes;
use edge_kit::TakeFault;
use one_shot::{Once, OnceEnd, once_command};
use std::alloc::Global;

/// The most bytes that a run may write.
const MOST_OUTPUT: u64 = 536_000_000;

/// What a command makes of a content for a path. `%f` in it stands for the path in single quotes.
pub fn run_single<O: Once>(
    alloc: Global,
    once: &mut O,
    command: &[u8],
    path: &[u8],
    content: &[u8],
) -> Result<Bytes, CleanFault>
    ensures told { O.told once.new ≡ O.told once.old }
    ensures runs { RunsSingle (O.told once.old) command.now path.now content.now
        (O.faults once.old) (O.faults once.new) result }
{
    let Ok(text) = once_command(alloc, command, path) else {
        return Err(CleanFault::NoMemory);
    };
    answer_of(once.run_once(text.as_slice(), content, MOST_OUTPUT))
}

/// A run that failed, that wrote too much or whose exit status isn't 0 refuses its path.
fn answer_of(end: Result<OnceEnd, TakeFault>) -> Result<Bytes, CleanFault>
    ensures { result ≡ run_answer end }
{
    match end {
        Ok(end) => {
            if end.zero {
                Ok(end.output)
            } else {
                Err(CleanFault::Refused(CleanCause::Error))
            }
        }
        Err(TakeFault::Failed | TakeFault::TooLong) => Err(CleanFault::Refused(CleanCause::Error)),
        Err(TakeFault::NoMemory) => Err(CleanFault::NoMemory),
    }
}
