//! Items of a tree, moved out of it.
ghost use Rattle.std.specs.Prelude.{◌≡◌, IfOk, reverse};

use og_base::NoMemory;
use sqlite_items::Items;
use std::alloc::Global;

/// The items in turned order, the last first. None is copied. Refused only for want of memory.
pub fn turned<T: Drop>(alloc: Global, items: Items<T>) -> Result<Vec<T>, NoMemory>
    ensures { IfOk result (λ v. v.items ≡ reverse items) }
{
    let mut left = items;
    let mut out = Vec::with_capacity(alloc, left.len())?;
    'items: while let Some(item) = left.pop() {
        out.push(item)?;
    }
    Ok(out)
}

/// The items in their order. None is copied. Refused only for want of memory.
pub fn into_vec<T: Drop>(alloc: Global, items: Items<T>) -> Result<Vec<T>, NoMemory>
    ensures { IfOk result (λ v. v.items ≡ items) }
{
    let mut out = turned(alloc, items)?;
    out.reverse();
    Ok(out)
}
