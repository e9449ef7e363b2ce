ghost use Rattle.std.specs.Prelude.{◌≡◌, IfOk, IfErr, IsErr, drop};
ghost use Rattle.std.specs.Vec.Iter.{into_iter_items};
ghost use Rattle.std.specs.IoError.{error_kind};
ghost use Rattle.std.specs.declared.io.ErrorKind.TheVariants.{OutOfMemory};
ghost use Rattle.program_kit.specs.Words.{words_of};

use std::alloc::{AllocError, Global};
use std::env::Args;
use std::io;
use std::io::ErrorKind;

/// The words after the first.
fn rest_of(alloc: Global, all: Args) -> Result<Vec<String>, AllocError>
    ensures { IfOk result (λ words. words.items ≡ drop 1 (into_iter_items all)) }
{
    all.skip(1).collect(alloc)
}

/// The words after the program's name, or none if one of them isn't text.
pub fn words_of(alloc: Global, all: io::Result<Args>) -> Result<Vec<String>, AllocError>
    ensures words { IfOk result (λ words. words.items ≡ words_of all) }
    ensures memory { IfErr all (λ e. error_kind e ≡ OutOfMemory → IsErr result) }
{
    match all {
        Ok(all) => rest_of(alloc, all),
        Err(error) if error.kind() == ErrorKind::OutOfMemory => Err(AllocError),
        Err(_) => Ok(Vec::new(alloc)),
    }
}
