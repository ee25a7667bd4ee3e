//! Items that are handed over, each to a worker of its own.
ghost use Rattle.std.specs.Prelude.{IfOk};
ghost use Rattle.std.specs.Fork.{AcceptsJobs};
ghost use Rattle.og_par.specs.Phase.{MadeOfEach};
ghost use Rattle.og_par.specs.Handed.{MakesOf};

use crate::crew::Crew;
use crate::gate::Gate;
use crate::phase::followed;
use og_base::NoMemory;
use std::thread;
use std::thread::Threads;

/// What the call makes of each item, these lists one after the other, in the order of the items. Each item
/// but the first is handed to a thread of its own, so there are to be as many items as workers; no gate is
/// told. Refused only for want of memory.
pub fn par_handed<
    H: Threads + Sync,
    T: Send + Drop,
    X: Send + Drop,
    F: Fn(T) -> Result<Vec<X>, NoMemory> + Sync,
    G: Gate + Sync,
>(crew: &Crew<'_, H, G>, mut items: Vec<T>, make: &F) -> Result<Vec<X>, NoMemory>
    requires { AcceptsJobs F.Fn make.now items.items }
    ensures { IfOk result (λ v. MadeOfEach (MakesOf F.Fn make.now) items.items v.items) }
{
    let Some(last) = items.pop() else {
        return Ok(Vec::new(crew.alloc()));
    };
    if items.is_empty() {
        return make(last);
    }
    let new = move || -> Result<Vec<X>, NoMemory>
        requires { F.pre make.now last }
        ensures { IfOk result (λ v. MakesOf F.Fn make.entry.now last v.items) }
    { make(last) };
    let here = move || -> Result<Vec<X>, NoMemory>
        requires { AcceptsJobs F.Fn make.now items.items }
        ensures { IfOk result (λ v. MadeOfEach (MakesOf F.Fn make.entry.now) items.items v.items) }
    { par_handed(crew, items, make) };
    let (last, before) = thread::join(crew.rt(), new, here);
    followed(before?, last?)
}
