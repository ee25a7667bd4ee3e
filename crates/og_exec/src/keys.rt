//! The join on columns that are equal.
ghost use Rattle.std.specs.Prelude.{◌≡◌, ◌≤◌, ◌*◌, ◌++◌, ◌&&◌, ℤ, [], IfOk, length};
ghost use Rattle.og_base.specs.Calendar.{IsRefDay};
ghost use Rattle.og_value.specs.Values.{row_at, value_at};
ghost use Rattle.og_plan.specs.Meaning.{all_hold, column, matches};
ghost use Rattle.og_exec.specs.Answers.{rel_of};
ghost use Rattle.og_exec.specs.ColumnKeys as column_keys;
ghost use Rattle.og_exec.specs.Images.{images};
ghost use Rattle.og_exec.specs.Keys as meant;
ghost use Rattle.og_exec.specs.Tables.{rows_on};

use crate::answer::{Answer, Inputs, made};
use crate::key_rest::KeyRest;
use crate::semi_keys::first_width;
use crate::spans::{ColumnSpans, are_as_wide, columns_that_overlap};
use og_base::NoMemory;
use og_expr::PartDays;
use og_join::{Keys, key_join_with, key_span_join};
use og_ops::PairMap;
use og_par::{Crew, Gate};
use og_plan::ColPair;
use og_query::Cond;
use og_rel::Rel;
use og_value::{FixedValue, Row, Value, order_of_rows};
use sqlite_items::Items;
use std::alloc::Global;
use std::thread::Threads;

// The values of a key, the first one apart, so that a key of one column takes no memory of its own. Keys
// are ordered from the left.
#[derive(PartialEq, Eq, PartialOrd, Ord, Drop)]
struct ColumnKey {
    first: FixedValue,
    rest: KeyRest,
}

// Keys that are the values in the columns of pairs. A value that depends on the day counts as 0, so
// that each key is the same on all days.
#[derive(Drop)]
struct ColumnKeys<'a> {
    pairs: &'a Items<ColPair>,
}

impl Keys<Row> for ColumnKeys<'_> {
    ghost use Rattle.std.specs.Prelude.{true, false};
    ghost use Rattle.og_exec.specs.ColumnKeys.{column_key};
    ghost use Rattle.og_exec.specs.KeyLaws.{keys_exact};

    type Key = ColumnKey;

    ghost left_of = { λ k row. column_key true k.pairs.now row };

    ghost right_of = { λ k row. column_key false k.pairs.now row };

    fn left(&self, alloc: Global, row: &Row) -> Result<ColumnKey, NoMemory> {
        column_key(alloc, row, self.pairs, true)
    }

    fn right(&self, alloc: Global, row: &Row) -> Result<ColumnKey, NoMemory> {
        column_key(alloc, row, self.pairs, false)
    }

    ghost exact = { keys_exact };
}

// The key of a left row, or of a right one, its first value apart.
fn column_key(
    alloc: Global,
    row: &Row,
    pairs: &Items<ColPair>,
    left: bool,
) -> Result<ColumnKey, NoMemory>
    ensures { IfOk result (λ k. (d : ℤ) → column_keys.column_key left pairs.now (row_at row.now d) ≡ k) }
{
    let Some((pair, others)) = pairs.as_slice().split_first() else {
        return Ok(no_column(alloc));
    };
    let first = key_value(row, place_in(left, pair))?;
    let rest = key(alloc, row, others, left)?;
    Ok(ColumnKey { first, rest })
}

// The key where there are no pairs.
fn no_column(alloc: Global) -> ColumnKey
    ensures { result ≡ column_keys.apart [] }
{
    ColumnKey {
        first: FixedValue::Int(0),
        rest: KeyRest::of(Vec::new(alloc)),
    }
}

// The key of a left row, or of a right one.
fn key(alloc: Global, row: &Row, pairs: &[ColPair], left: bool) -> Result<KeyRest, NoMemory>
    ensures { IfOk result (λ k. (d : ℤ) → meant.key left pairs.now (row_at row.now d) ≡ k) }
{
    let mut values = Vec::with_capacity(alloc, pairs.len())?;
    'pairs: for pair in pairs {
        values.push(key_value(row, place_in(left, pair))?)?;
    }
    Ok(KeyRest::of(values))
}

// The place of the left column of a pair, or of the right one.
pub(crate) fn place_in(left: bool, pair: &ColPair) -> usize
    ensures { result ≡ meant.place_in left pair.now }
{
    if left { pair.left } else { pair.right }
}

// What a key has of the value in the column.
fn key_value(row: &Row, place: usize) -> Result<FixedValue, NoMemory>
    ensures { IfOk result (λ x. (d : ℤ) → meant.key_value (column (row_at row.now d) place) ≡ x) }
{
    if place >= row.len() {
        return Ok(FixedValue::Int(0));
    }
    value_key(row.value(place))
}

// What a key has of the value.
fn value_key(value: &Value) -> Result<FixedValue, NoMemory>
    ensures { IfOk result (λ x. (d : ℤ) → meant.key_value (value_at value.now d) ≡ x) }
{
    let key = match value {
        Value::Int(n) => FixedValue::Int(*n),
        Value::Text(text) => FixedValue::Text(text.copy()?),
        Value::Point(_) | Value::Period(_) => FixedValue::Int(0),
    };
    Ok(key)
}

// What the map makes of the combinations whose keys are equal and for which all parts hold.
pub(crate) fn key_joined<'t, H: Threads + Sync, M: PairMap<Row> + Sync, G: Gate + Sync>(
    crew: &Crew<'_, H, G>,
    inputs: Inputs<'_>,
    pairs: &Items<ColPair>,
    rest: &Items<Cond>,
    pair_map: &M,
) -> Result<Answer<'t>, NoMemory>
    ensures law { IfOk result (λ a. (d : ℤ) → IsRefDay d → rows_on (rel_of a) d
        ≡ images (M.image pair_map.now d) (matches (λ x y. meant.have_one_key pairs.now x y && all_hold d rest.now (x ++ y)) (rows_on (rel_of inputs.entry.left) d) (rows_on (rel_of inputs.entry.right) d))) }
    ensures size { IfOk result (λ a. length (rel_of a) ≤ length (rel_of inputs.entry.left) * length (rel_of inputs.entry.right)) }
{
    made(columns_joined(
        crew,
        inputs.left.rel(),
        inputs.right.rel(),
        pairs,
        rest,
        pair_map,
    ))
}

// The same of two relations. Where some part says that periods of both rows overlap, they are tried by
// the spans of these.
fn columns_joined<H: Threads + Sync, M: PairMap<Row> + Sync, G: Gate + Sync>(
    crew: &Crew<'_, H, G>,
    left: &Rel<Row>,
    right: &Rel<Row>,
    pairs: &Items<ColPair>,
    rest: &Items<Cond>,
    pair_map: &M,
) -> Result<Rel<Row>, NoMemory>
    ensures law { IfOk result (λ r. (d : ℤ) → IsRefDay d → rows_on r d
        ≡ images (M.image pair_map.now d) (matches (λ x y. meant.have_one_key pairs.now x y && all_hold d rest.now (x ++ y)) (rows_on left.now d) (rows_on right.now d))) }
    ensures size { IfOk result (λ r. length r ≤ length left.now * length right.now) }
{
    order_of_rows();
    let keys = ColumnKeys { pairs };
    let cond = PartDays { parts: rest };
    let width = first_width(left);
    let Some(pair) = columns_that_overlap(width, rest) else {
        return key_join_with(crew, left, right, &keys, &cond, pair_map);
    };
    let spans = ColumnSpans {
        pair: &pair,
        known: are_as_wide(left, width),
    };
    key_span_join(crew, left, right, &keys, &spans, &cond, pair_map)
}
