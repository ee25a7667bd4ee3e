//! The rows that meet semis.
ghost use Rattle.std.specs.Prelude.{◌≡◌, ◌≤◌, ℤ, IfOk, length, filter};
ghost use Rattle.std.specs.List.{list_all};
ghost use Rattle.og_base.specs.Calendar.{IsRefDay};
ghost use Rattle.og_plan.specs.Meaning.{meets_semi};
ghost use Rattle.og_exec.specs.Answers.{rel_of};
ghost use Rattle.og_exec.specs.Tables.{rows_at, rows_on};

use crate::answer::{Answer, lent};
use crate::semi_keys::{EqualColumns, first_width};
use og_base::NoMemory;
use og_par::{Crew, Gate};
use og_plan::PlanSemi;
use og_rel::{Rel, Tables};
use og_semi::KeyedSemi;
use og_value::{Row, order_of_rows};
use std::thread::Threads;

// The rows that meet the semi. They are tried with those rows of its table alone that have the same
// values in the columns which parts say are equal.
fn semijoined<H: Threads + Sync, T: Tables<Row>, G: Gate + Sync>(
    crew: &Crew<'_, H, G>,
    input: &Rel<Row>,
    semi: &PlanSemi,
    tables: &T,
) -> Result<Rel<Row>, NoMemory>
    ensures law { IfOk result (λ r. (d : ℤ) → IsRefDay d → rows_on r d ≡ filter (λ row. meets_semi d (rows_at (T.named tables.now) d) row semi.now) (rows_on input.now d)) }
    ensures size { IfOk result (λ r. length r ≤ length input.now) }
{
    let alloc = crew.alloc();
    order_of_rows();
    let table = lent(alloc, &semi.table.name, tables);
    let matching = EqualColumns {
        parts: &semi.parts,
        width: first_width(input),
    };
    KeyedSemi {
        matching,
        positive: semi.positive,
    }
    .apply_by_workers(crew, input, table.rel())
}

// The rows that meet all of the semis, one semi after the other.
pub(crate) fn sifted<'t, H: Threads + Sync, T: Tables<Row>, G: Gate + Sync>(
    crew: &Crew<'_, H, G>,
    input: Answer<'t>,
    semis: &[PlanSemi],
    tables: &'t T,
) -> Result<Answer<'t>, NoMemory>
    ensures law { IfOk result (λ a. (d : ℤ) → IsRefDay d → rows_on (rel_of a) d ≡ filter (λ row. list_all (meets_semi d (rows_at (T.named tables.now) d) row) semis.now) (rows_on (rel_of input.entry) d)) }
    ensures size { IfOk result (λ a. length (rel_of a) ≤ length (rel_of input.entry)) }
{
    let mut met = input;
    'semis: for semi in semis {
        met = Answer::Made(semijoined(crew, met.rel(), semi, tables)?);
    }
    Ok(met)
}
