// A driver's delayed paths.
ghost use Rattle.std.specs.Prelude.{◌≡◌, IfOk, Some, slice_get};
ghost use Rattle.delay_table.specs.declared.place.Place.TheVariants.{Idle};

use bench_books::marks::{begin, end};
use byte_path::Bytes;
use delay_table::DelayTable;
use std::alloc::{AllocError, Global};
use std::io;
use std::io::Print;

/// The names `a`, which is idle, and `b`, which is delayed.
fn table(alloc: Global) -> Result<DelayTable, AllocError>
    ensures { IfOk result (λ t. slice_get t.places 0 ≡ Some Idle) }
{
    let mut names = Vec::with_capacity(alloc, 2)?;
    names.push_reserved(Bytes::copy_of(alloc, b"a")?);
    names.push_reserved(Bytes::copy_of(alloc, b"b")?);
    let mut table = DelayTable::reserve(alloc, names)?;
    table.delay(1);
    Ok(table)
}

/// Delays the first name, lists the second, and delivers and takes what is there.
fn make_all<R: Print>(rt: &R, table: &mut DelayTable) -> io::Result<()>
    requires { slice_get table.old.places 0 ≡ Some Idle }
{
    begin(rt, "DelayTable::delay")?;
    table.delay(0);
    end(rt, table.listed().is_empty())?;
    begin(rt, "DelayTable::list")?;
    let listed = table.list(b"b");
    end(rt, listed == Some(1) && table.list(b"b").is_none())?;
    begin(rt, "DelayTable::listed")?;
    end(rt, matches!(table.listed(), [1]))?;
    begin(rt, "DelayTable::deliver")?;
    let delivered = table.deliver();
    end(rt, delivered == Some(1) && table.deliver().is_none())?;
    begin(rt, "DelayTable::rest")?;
    let left = table.rest();
    end(rt, left == Some(0) && table.rest().is_none())
}

pub fn make_calls<R: Print + AllocGlobal>(rt: &R) -> io::Result<()> {
    let mut table = table(rt.alloc())?;
    make_all(rt, &mut table)
}
