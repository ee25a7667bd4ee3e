//! The checks of a query.
ghost use Rattle.std.specs.Prelude.{map};
ghost use Rattle.og_query.specs.Kinds.{kinds_of};
ghost use Rattle.og_check.specs.Cores as spec;
ghost use Rattle.og_check.specs.Names.{schemas_in};
ghost use Rattle.og_check.specs.Results.{Gives};
ghost use Rattle.og_check.specs.Steps as steps;
ghost use Rattle.og_check.specs.Steps.{in_order};

use crate::cores::core_of;
use crate::kinds::{same_count, same_kind};
use crate::names::Names;
use crate::refusal::CheckRefusal;
use og_query::{Core, Query, Rest};
use og_syntax::{QueryText, RestText};
use og_value::{Catalog, Schema};
use sqlite_items::Items;
use std::alloc::Global;

/// A query over the names that may be asked.
pub fn query_of<C: Catalog>(
    alloc: Global,
    known: &C,
    names: Names,
    query: &QueryText,
) -> Result<Query, CheckRefusal>
    ensures { Gives result (spec.query_of (schemas_in names (C.known known.now)) query.now) }
{
    let first = core_of(alloc, known, names, &query.first)?;
    match rests_of(alloc, known, names, &first, query.rest.as_slice()) {
        Ok(rest) => Ok(Query { first, rest }),
        Err(refusal) => {
            drop(first);
            Err(refusal)
        }
    }
}

// The further SELECTs.
fn rests_of<C: Catalog>(
    alloc: Global,
    known: &C,
    names: Names,
    first: &Core,
    rests: &[RestText],
) -> Result<Items<Rest>, CheckRefusal>
    ensures { Gives result (in_order (map (spec.rest_of (schemas_in names (C.known known.now)) first.now) rests.now)) }
{
    let mut typed = Items::new(alloc);
    'each: for rest in rests {
        typed.push(rest_of(alloc, known, names, first, rest)?)?;
    }
    Ok(typed)
}

// A further SELECT, whose columns agree with those of the first.
fn rest_of<C: Catalog>(
    alloc: Global,
    known: &C,
    names: Names,
    first: &Core,
    rest: &RestText,
) -> Result<Rest, CheckRefusal>
    ensures { Gives result (spec.rest_of (schemas_in names (C.known known.now)) first.now rest.now) }
{
    let core = core_of(alloc, known, names, &rest.core)?;
    columns_agree(&core.schema, &first.schema).and(Ok(Rest { op: rest.op, core }))
}

// The first fault of the kinds of the columns that were found, where others are wanted.
fn columns_agree(found: &Schema, wanted: &Schema) -> Result<(), CheckRefusal>
    ensures { Gives result (steps.agree (kinds_of found.now) (kinds_of wanted.now)) }
{
    same_count(found.len(), wanted.len())?;
    'columns: for i in 0..found.len() {
        same_kind(found.column(i).kind, wanted.column(i).kind)?;
    }
    Ok(())
}
