//! Tests of columns that a condition says are equal to others.
ghost use Rattle.std.specs.Prelude.{◌≡◌, ℤ, Contains, IfOk, IfSome, OnOk, true};
ghost use Rattle.std.specs.List.{list_all};
ghost use Rattle.og_reduce.specs.Sieves.{column};
ghost use Rattle.og_query.specs.Conditions.{compares, truth};
ghost use Rattle.og_query.specs.Expressions.{meaning};
ghost use Rattle.og_query.specs.Queries.{Fixed};
ghost use Rattle.og_query.specs.declared.expression.Expr.TheVariants as column_expr;
ghost use Rattle.og_reduce.specs.Sieves.{passes};

use crate::sieve::{Keys, Sieve, Test, add_test};
use og_base::NoMemory;
use og_query::{Cond, Expr};
use og_value::Cmp;
use sqlite_items::Items;

// What may stand in the column by one of the tests, where one is of it.
fn keys_at<'k>(tests: &[Test<'k>], column: usize) -> Option<&'k Keys>
    ensures { IfSome result (λ keys. Contains tests.now (column, keys.now)) }
{
    'tests: for test in tests {
        if test.column == column {
            return Some(test.keys);
        }
    }
    None
}

// Asks of a column what is asked of an equal one, where nothing is asked of it.
fn spread(from: usize, to: usize, tests: &mut Vec<Test<'_>>) -> Result<(), NoMemory>
    ensures { OnOk result ((row : Fixed) → column row from ≡ column row to → passes tests.old.items row ≡ true → passes tests.new.items row ≡ true) }
{
    if keys_at(tests.as_slice(), to).is_some() {
        return Ok(());
    }
    match keys_at(tests.as_slice(), from) {
        Some(keys) => add_test(tests, Some(to), keys),
        None => Ok(()),
    }
}

// The column that an expression is, where it is one.
fn column_of(expr: &Expr) -> Option<usize>
    ensures { IfSome result (λ place. expr.now ≡ column_expr.Column place) }
{
    match expr {
        Expr::Column(place) => Some(*place),
        _ => None,
    }
}

// Asks of either of two columns what is asked of the other, where they are columns and have one value.
fn share_values(left: &Expr, right: &Expr, tests: &mut Vec<Test<'_>>) -> Result<(), NoMemory>
    ensures { OnOk result ((d : ℤ) (row : Fixed) → meaning d row left.now ≡ meaning d row right.now → passes tests.old.items row ≡ true → passes tests.new.items row ≡ true) }
{
    let Some(m) = column_of(left) else {
        return Ok(());
    };
    let Some(n) = column_of(right) else {
        return Ok(());
    };
    spread(m, n, tests)?;
    spread(n, m, tests)
}

// As `share_values`, of two columns that compare so.
fn share_compared(
    op: Cmp,
    left: &Expr,
    right: &Expr,
    tests: &mut Vec<Test<'_>>,
) -> Result<(), NoMemory>
    ensures { OnOk result ((d : ℤ) (row : Fixed) → compares op (meaning d row left.now) (meaning d row right.now) ≡ true → passes tests.old.items row ≡ true → passes tests.new.items row ≡ true) }
{
    match op {
        Cmp::Eq => share_values(left, right, tests),
        _ => Ok(()),
    }
}

// Asks of columns what is asked of those that the condition says are equal to them.
#[cycle(same)]
fn share(cond: &Cond, tests: &mut Vec<Test<'_>>) -> Result<(), NoMemory>
    ensures { OnOk result ((d : ℤ) (row : Fixed) → truth d row cond.now ≡ true → passes tests.old.items row ≡ true → passes tests.new.items row ≡ true) }
{
    match cond {
        Cond::And(parts) => share_each(parts, tests),
        Cond::Compare { op, left, right } => share_compared(*op, left, right, tests),
        _ => Ok(()),
    }
}

// As `share`, of each of the conditions.
#[cycle(same)]
fn share_each(parts: &Items<Cond>, tests: &mut Vec<Test<'_>>) -> Result<(), NoMemory>
    ensures { OnOk result ((d : ℤ) (row : Fixed) → list_all (truth d row) parts.now ≡ true → passes tests.old.items row ≡ true → passes tests.new.items row ≡ true) }
{
    'parts: for part in parts.as_slice() {
        share(part, tests)?;
    }
    Ok(())
}

// The tests of columns, and of those that the condition says are equal to them, by way of that many others.
pub fn shared<'k>(cond: &Cond, others: usize, sieve: Sieve<'k>) -> Result<Sieve<'k>, NoMemory>
    ensures { IfOk result (λ shared. (d : ℤ) (row : Fixed) → truth d row cond.now ≡ true → passes sieve.entry row ≡ true → passes shared row ≡ true) }
{
    let mut tests = sieve.tests;
    'others: for _ in 0..others {
        share(cond, &mut tests)?;
    }
    Ok(Sieve::new(tests))
}
