//! The numbers of the paths in the order of the paths.
ghost use Rattle.std.specs.Prelude.{◌≡◌, ◌<◌, ◌++◌, IfOk, OnOk};
ghost use Rattle.rehearsal.specs.Paths.{ending_in, in_order};

use std::alloc::{AllocError, Global};

fn push_ending(out: &mut Vec<u32>, digit: u32, count: u32) -> Result<(), AllocError>
    ensures { OnOk result (out.new.items ≡ out.old.items ++ ending_in digit count) }
{
    for number in 0..count {
        if number % 10 == digit {
            out.push(number)?;
        }
    }
    Ok(())
}

/// The numbers below this one in the order of their paths.
pub fn path_order(alloc: Global, count: u32) -> Result<Vec<u32>, AllocError>
    ensures { IfOk result (λ v. v.items ≡ in_order count) }
{
    let mut order = Vec::with_capacity(alloc, count as usize)?;
    for digit in 0..10 {
        push_ending(&mut order, digit, count)?;
    }
    Ok(order)
}
