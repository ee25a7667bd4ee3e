//! Items in blocks, one for each worker.
ghost use Rattle.std.specs.Prelude.{◌≡◌, ◌≤◌, IfOk};
ghost use Rattle.std.specs.List.{flat_map};

use og_base::NoMemory;
use std::alloc::Global;

/// How many items a block has at least, but for the last one: fewer are listed sooner than a thread begins.
pub const LEAST: usize = 1024;

/// The items cut into a block for each worker, or into fewer where these would have less than `LEAST` items. Refused
/// only for want of memory.
pub fn blocks_of<'a, X>(
    alloc: Global,
    workers: usize,
    items: &'a [X],
) -> Result<Vec<&'a [X]>, NoMemory>
    requires { 1 ≤ workers }
    ensures { IfOk result (λ v. flat_map (λ b. b.now) v.items ≡ items.now) }
{
    let size = items.len().div_ceil(workers).max(LEAST);
    // Room for all at once: `collect` asks for less where that is refused, and does not tell.
    let mut blocks = Vec::with_capacity(alloc, items.len().div_ceil(size))?;
    blocks.extend(items.chunks(size))?;
    Ok(blocks)
}
