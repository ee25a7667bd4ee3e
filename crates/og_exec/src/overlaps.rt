//! The join on periods that overlap.
ghost use Rattle.std.specs.Prelude.{◌≡◌, ◌≤◌, ◌*◌, ◌++◌, ◌&&◌, ◌+◌, ◌<◌, ℤ, true, IfOk, length};
ghost use Rattle.std.specs.List.{All};
ghost use Rattle.og_base.specs.Calendar.{IsRefDay};
ghost use Rattle.og_value.specs.declared.term.Pred.TheVariants as preds;
ghost use Rattle.og_query.specs.declared.condition.Cond.TheVariants as conds;
ghost use Rattle.og_query.specs.declared.expression.Expr.TheVariants as exprs;
ghost use Rattle.og_plan.specs.Meaning.{all_hold, do_overlap, matches};
ghost use Rattle.og_exec.specs.Answers.{rel_of};
ghost use Rattle.og_exec.specs.Images.{images};
ghost use Rattle.og_exec.specs.Spans.{do_overlap_and};
ghost use Rattle.og_exec.specs.Tables.{rows_on};

use crate::answer::{Answer, Inputs, made};
use crate::spans::{Both, ColumnSpans, are_as_wide, say_overlap};
use crate::widths::added;
use og_base::NoMemory;
use og_expr::{CondDays, PartDays};
use og_join::overlap_join_with;
use og_ops::PairMap;
use og_par::{Crew, Gate};
use og_plan::ColPair;
use og_query::{Cond, Expr};
use og_rel::Rel;
use og_value::{Pred, Row, order_of_rows};
use sqlite_items::Items;
use std::thread::Threads;

// What the map makes of the combinations whose periods overlap and for which the rest holds, where each
// left row has so many values.
pub(crate) fn overlap_joined<'t, H: Threads + Sync, M: PairMap<Row> + Sync, G: Gate + Sync>(
    crew: &Crew<'_, H, G>,
    inputs: Inputs<'_>,
    width: usize,
    pair: &ColPair,
    rest: &Items<Cond>,
    pair_map: &M,
) -> Result<Answer<'t>, NoMemory>
    ensures law { IfOk result (λ a. (d : ℤ) → IsRefDay d → All (λ x. length x ≡ width) (rows_on (rel_of inputs.entry.left) d) → rows_on (rel_of a) d
        ≡ images (M.image pair_map.now d) (matches (λ x y. do_overlap x y pair.now && all_hold d rest.now (x ++ y)) (rows_on (rel_of inputs.entry.left) d) (rows_on (rel_of inputs.entry.right) d))) }
    ensures size { IfOk result (λ a. length (rel_of a) ≤ length (rel_of inputs.entry.left) * length (rel_of inputs.entry.right)) }
{
    made(pair_joined(
        crew,
        inputs.left.rel(),
        inputs.right.rel(),
        width,
        pair,
        rest,
        pair_map,
    ))
}

// The same of two relations.
fn pair_joined<H: Threads + Sync, M: PairMap<Row> + Sync, G: Gate + Sync>(
    crew: &Crew<'_, H, G>,
    left: &Rel<Row>,
    right: &Rel<Row>,
    width: usize,
    pair: &ColPair,
    rest: &Items<Cond>,
    pair_map: &M,
) -> Result<Rel<Row>, NoMemory>
    ensures law { IfOk result (λ r. (d : ℤ) → IsRefDay d → All (λ x. length x ≡ width) (rows_on left.now d) → rows_on r d
        ≡ images (M.image pair_map.now d) (matches (λ x y. do_overlap x y pair.now && all_hold d rest.now (x ++ y)) (rows_on left.now d) (rows_on right.now d))) }
    ensures size { IfOk result (λ r. length r ≤ length left.now * length right.now) }
{
    let alloc = crew.alloc();
    // A row has no period in a column that it has not.
    if pair.left >= width {
        return Ok(Rel::new(alloc));
    }
    let place = added(width, pair.right)?;
    let spans = ColumnSpans {
        pair,
        known: are_as_wide(left, width),
    };
    columns_joined(crew, left, right, width, place, &spans, rest, pair_map)
}

// What the map makes of the combinations for which the periods in the two columns of the glued row overlap
// and the rest holds.
fn columns_joined<H: Threads + Sync, M: PairMap<Row> + Sync, G: Gate + Sync>(
    crew: &Crew<'_, H, G>,
    left: &Rel<Row>,
    right: &Rel<Row>,
    width: usize,
    place: usize,
    spans: &ColumnSpans<'_>,
    rest: &Items<Cond>,
    pair_map: &M,
) -> Result<Rel<Row>, NoMemory>
    requires within { spans.now.pair.now.left < width }
    requires place { place ≡ width + spans.now.pair.now.right }
    requires known { spans.now.known ≡ true → All (λ p. length p.0 ≡ width) left.now }
    ensures law { IfOk result (λ r. (d : ℤ) → IsRefDay d → rows_on r d
        ≡ images (M.image pair_map.now d) (matches (λ x y. do_overlap_and d spans.now.pair.now.left place rest.now (x ++ y)) (rows_on left.now d) (rows_on right.now d))) }
    ensures size { IfOk result (λ r. length r ≤ length left.now * length right.now) }
{
    order_of_rows();
    let cond = PartDays { parts: rest };
    if say_overlap(rest, spans.pair.left, place) {
        return overlap_join_with(crew, left, right, spans, &cond, pair_map);
    }
    let overlap = overlap_of(spans.pair.left, place);
    let both = Both {
        first: CondDays { cond: &overlap },
        second: cond,
    };
    let joined = overlap_join_with(crew, left, right, spans, &both, pair_map);
    drop(overlap);
    joined
}

// The condition that the periods in two columns overlap.
fn overlap_of(left: usize, right: usize) -> Cond
    ensures { result ≡ conds.Relate preds.Overlaps (exprs.Column left) (exprs.Column right) }
{
    Cond::Relate {
        pred: Pred::Overlaps,
        left: Expr::Column(left),
        right: Expr::Column(right),
    }
}
