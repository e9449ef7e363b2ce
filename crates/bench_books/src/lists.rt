// Lists of one and of two items.
ghost use Rattle.std.specs.Prelude.{◌≡◌, [], ◌∷◌, IfOk};
ghost use Rattle.std.specs.Global.{Vec};

use std::alloc::{AllocError, Global};

/// A list of one item.
pub fn alone<T: Drop>(alloc: Global, item: T) -> Result<Vec<T>, AllocError>
    ensures { IfOk result (λ v. v.items ≡ item ∷ []) }
{
    let mut items = Vec::with_capacity(alloc, 1)?;
    items.push_reserved(item);
    Ok(items)
}

/// A list of two items.
pub fn both<T: Drop>(alloc: Global, first: T, second: T) -> Result<Vec<T>, AllocError>
    ensures { IfOk result (λ v. v.items ≡ first ∷ second ∷ []) }
{
    let mut items = Vec::with_capacity(alloc, 2)?;
    items.push_reserved(first);
    items.push_reserved(second);
    Ok(items)
}

/// A list of the first item, and a list of a list of the second.
pub fn apart<T: Drop>(
    alloc: Global,
    first: T,
    second: T,
) -> Result<(Vec<T>, Vec<Vec<T>>), AllocError>
    ensures first { IfOk result (λ r. r.0.items ≡ first ∷ []) }
    ensures second { IfOk result (λ r. (v : Vec T) × (r.1.items ≡ v ∷ []) × (v.items ≡ second ∷ [])) }
{
    let one = alone(alloc, first)?;
    let inner = alone(alloc, second)?;
    let outer = alone(alloc, inner)?;
    Ok((one, outer))
}
