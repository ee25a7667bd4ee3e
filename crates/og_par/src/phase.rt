//! A phase: the items of a slice cut into chunks, one for each worker.
ghost use Rattle.std.specs.Prelude.{◌≡◌, ◌<◌, ◌++◌, List, IfOk};
ghost use Rattle.og_par.specs.Phase.{AllowsOne, MadeOfEach};

use crate::crew::Crew;
use crate::gate::Gate;
use crate::piece::Piece;
use og_base::NoMemory;
use std::thread;
use std::thread::Threads;

/// For each item one list that the piece allows for it, these lists one after the other, in the
/// order of the items. The items are cut into chunks of their number divided by the crew's
/// workers, rounded up, the last one perhaps shorter, of which the first is made here and each other one in a
/// thread of its own; without items there is no chunk and no call of `enter`. Refused only for want of memory.
pub fn par_rows<H: Threads + Sync, T: Sync, P: Piece<T> + Sync, G: Gate + Sync>(
    crew: &Crew<'_, H, G>,
    items: &[T],
    piece: &P,
) -> Result<Vec<P::Out>, NoMemory>
where
    P::Out: Send + Drop,
    ensures { IfOk result (λ v. MadeOfEach (P.gives piece.now) items.now v.items) }
{
    if items.is_empty() {
        return Ok(Vec::new(crew.alloc()));
    }
    let size = items.len().div_ceil(crew.workers());
    made_of_chunks(crew, size, items, piece)
}

// What is made of some items, in chunks of a size: the last one in a new thread, those before it from here.
// So one thread begins all others, one after the other: where two begin others at one time, these wait longer
// for a processor.
fn made_of_chunks<H: Threads + Sync, T: Sync, P: Piece<T> + Sync, G: Gate + Sync>(
    crew: &Crew<'_, H, G>,
    size: usize,
    items: &[T],
    piece: &P,
) -> Result<Vec<P::Out>, NoMemory>
where
    P::Out: Send + Drop,
    requires { 0 < size }
    ensures { IfOk result (λ v. MadeOfEach (P.gives piece.now) items.now v.items) }
{
    if items.len() <= size {
        return made_of_chunk(crew, 0, items, piece);
    }
    let number = (items.len() - 1) / size;
    let (before, last) = items.split_at(number * size);
    let new = move || -> Result<Vec<P::Out>, NoMemory>
        ensures { IfOk result (λ v. MadeOfEach (P.gives piece.entry.now) last.entry.now v.items) }
    { made_of_chunk(crew, number, last, piece) };
    let here = move || -> Result<Vec<P::Out>, NoMemory>
        requires { 0 < size }
        ensures { IfOk result (λ v. MadeOfEach (P.gives piece.entry.now) before.entry.now v.items) }
    { made_of_chunks(crew, size, before, piece) };
    let (last, before) = thread::join(crew.rt(), new, here);
    followed(before?, last?)
}

// What is made of the items of one chunk, after the gate.
fn made_of_chunk<H: Threads + Sync, T, P: Piece<T>, G: Gate + Sync>(
    crew: &Crew<'_, H, G>,
    number: usize,
    chunk: &[T],
    piece: &P,
) -> Result<Vec<P::Out>, NoMemory>
where
    P::Out: Drop,
    ensures { IfOk result (λ v. MadeOfEach (P.gives piece.now) chunk.now v.items) }
{
    crew.gate().enter(number);
    let mut out = Vec::new(crew.alloc());
    'items: for item in chunk {
        piece.make(crew.alloc(), item, &mut out)?;
    }
    Ok(out)
}

/// The second list after the first; where the first is empty, the second as it lies in memory. Refused only
/// for want of memory.
pub fn followed<X: Drop>(first: Vec<X>, second: Vec<X>) -> Result<Vec<X>, NoMemory>
    ensures { IfOk result (λ v. v.items ≡ first.items ++ second.items) }
{
    if first.is_empty() {
        return Ok(second);
    }
    let (mut first, mut second) = (first, second);
    first.append(&mut second)?;
    Ok(first)
}

/// Where a piece allows one list for each item, what is made of the items is one list, for all
/// numbers of workers and all gates.
pub fn one_list_for_all_workers<T, P: Piece<T>>(piece: &P, items: &[T])
    ensures { AllowsOne (P.gives piece.now) → (a b : List P.Out) →
        MadeOfEach (P.gives piece.now) items.now a → MadeOfEach (P.gives piece.now) items.now b → a ≡ b }
{
    let _ = piece;
    let _ = items;
}
