//! Pairs of rows that are tried, by their places.
ghost use Rattle.std.specs.Prelude.{◌≡◌, ◌++◌, List, OnOk};
ghost use Rattle.og_par.specs.Phase.{MadeOfEach};
ghost use Rattle.og_rel.specs.declared.pair.Pair.{Pair};
ghost use Rattle.og_join.specs.Tried.{IsMadeOf, rows_meet};

use og_base::{DayCond, Glue, NoMemory};
use og_ops::{Hit, PairMap, test_pair_with};
use og_rel::Rel;
use std::alloc::Global;

// Two relations, and what is made of a row of each, where the condition holds of the two.
#[derive(Drop)]
pub(crate) struct Sides<'a, R, C, M> {
    pub(crate) left: &'a Rel<R>,
    pub(crate) right: &'a Rel<R>,
    pub(crate) cond: &'a C,
    pub(crate) pair_map: &'a M,
}

// Adds what the map makes of the rows at each pair of places, where it has days.
pub(crate) fn try_pairs<R: Glue + Drop, C: DayCond<R>, M: PairMap<R>>(
    alloc: Global,
    sides: &Sides<'_, R, C, M>,
    pairs: &[(usize, usize)],
    out: &mut Vec<Hit<R>>,
) -> Result<(), NoMemory>
    ensures { OnOk result ((made : List (Pair R))
        × MadeOfEach (λ places. IsMadeOf (M.image sides.now.pair_map.now) R.meaning (rows_meet R.glued R.meaning (C.holds sides.now.cond.now) sides.now.left.now sides.now.right.now places.0 places.1)) pairs.now made
        × (out.new.items ≡ out.old.items ++ made)) }
{
    'pairs: for places in pairs {
        let (m, n) = *places;
        try_rows(
            alloc,
            sides.left,
            m,
            sides.right,
            n,
            sides.cond,
            sides.pair_map,
            out,
        )?;
    }
    Ok(())
}

// Adds what the map makes of the rows at two places, where it has days.
fn try_rows<R: Glue + Drop, C: DayCond<R>, M: PairMap<R>>(
    alloc: Global,
    left: &Rel<R>,
    m: usize,
    right: &Rel<R>,
    n: usize,
    cond: &C,
    pair_map: &M,
    out: &mut Vec<Hit<R>>,
) -> Result<(), NoMemory>
    ensures { OnOk result ((made : List (Pair R)) × IsMadeOf (M.image pair_map.now) R.meaning (rows_meet R.glued R.meaning (C.holds cond.now) left.now right.now m n) made
        × (out.new.items ≡ out.old.items ++ made)) }
{
    if m >= left.len() || n >= right.len() {
        return Ok(());
    }
    match test_pair_with(
        alloc,
        left.row(m),
        left.days(m),
        right.row(n),
        right.days(n),
        cond,
        pair_map,
    )? {
        Some(hit) => {
            out.push(hit)?;
            Ok(())
        }
        None => Ok(()),
    }
}
