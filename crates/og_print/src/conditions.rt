//! Conditions.
ghost use Rattle.std.specs.Prelude.{◌≡◌, ◌++◌, ◌∷◌, [], OnOk};
ghost use Rattle.og_print.specs.Words.{with_words, enclosed};
ghost use Rattle.og_print.specs.Conditions as spec;

use crate::expressions::write_expr;
use crate::words::{plain, separator};
use og_base::NoMemory;
use og_parse::{CondText, ExprText};
use og_syntax::Sort;
use og_value::{Cmp, Pred};
use sqlite_items::Items;
use std::alloc::Global;

/// Where a condition stands.
#[derive(Clone, Copy, PartialEq, Eq)]
pub enum Place {
    /// Alone, or in parentheses.
    Alone,
    /// Beside OR.
    BesideOr,
    /// Beside AND, or after NOT.
    BesideAnd,
}

// The symbol of a comparison.
fn cmp_sort(op: Cmp) -> Sort
    ensures { result ≡ spec.cmp_sort op }
{
    match op {
        Cmp::Eq => Sort::Equal,
        Cmp::Ne => Sort::NotEqual,
        Cmp::Lt => Sort::Less,
        Cmp::Le => Sort::LessEqual,
        Cmp::Gt => Sort::Greater,
        Cmp::Ge => Sort::GreaterEqual,
    }
}

// The word of a predicate.
fn pred_sort(pred: Pred) -> Sort
    ensures { result ≡ spec.pred_sort pred }
{
    match pred {
        Pred::Before => Sort::Before,
        Pred::Meets => Sort::Meets,
        Pred::Overlaps => Sort::Overlaps,
        Pred::Starts => Sort::Starts,
        Pred::Finishes => Sort::Finishes,
        Pred::During => Sort::During,
        Pred::Equals => Sort::Equals,
    }
}

// Appends two expressions with a word or a symbol between them.
fn write_relation(
    alloc: Global,
    left: &ExprText,
    sort: Sort,
    right: &ExprText,
    out: &mut Vec<u8>,
) -> Result<(), NoMemory>
    ensures { OnOk result (out.new.items ≡ with_words out.old.items (spec.relation_words left.now sort right.now)) }
{
    write_expr(alloc, left, out)?;
    plain(sort, out)?;
    write_expr(alloc, right, out)?;
    Ok(())
}

// Appends EMPTY and an expression.
fn write_empty(alloc: Global, period: &ExprText, out: &mut Vec<u8>) -> Result<(), NoMemory>
    ensures { OnOk result (out.new.items ≡ with_words out.old.items (spec.empty_words period.now)) }
{
    plain(Sort::Empty, out)?;
    plain(Sort::LeftParen, out)?;
    write_expr(alloc, period, out)?;
    plain(Sort::RightParen, out)?;
    Ok(())
}

// Appends CONTAINS and two expressions.
fn write_contains(
    alloc: Global,
    period: &ExprText,
    day: &ExprText,
    out: &mut Vec<u8>,
) -> Result<(), NoMemory>
    ensures { OnOk result (out.new.items ≡ with_words out.old.items (spec.contains_words period.now day.now)) }
{
    plain(Sort::Contains, out)?;
    plain(Sort::LeftParen, out)?;
    write_expr(alloc, period, out)?;
    plain(Sort::Comma, out)?;
    write_expr(alloc, day, out)?;
    plain(Sort::RightParen, out)?;
    Ok(())
}

// Appends a condition at a place.
#[cycle(conditions)]
#[tactic(auto, using(crate::proofs::Texts::with_words_append, crate::proofs::TreeWords::conditions))]
pub fn write_cond(
    alloc: Global,
    cond: &CondText,
    place: Place,
    out: &mut Vec<u8>,
) -> Result<(), NoMemory>
    ensures { OnOk result (out.new.items ≡ with_words out.old.items (spec.cond_words cond.now place)) }
{
    match cond {
        CondText::And(all) => {
            if place == Place::BesideAnd {
                return write_enclosed(alloc, all, Sort::And, Place::BesideAnd, out);
            }
            write_all(alloc, all, Sort::And, Place::BesideAnd, out)
        }
        CondText::Or(all) => {
            if place != Place::Alone {
                return write_enclosed(alloc, all, Sort::Or, Place::BesideOr, out);
            }
            write_all(alloc, all, Sort::Or, Place::BesideOr, out)
        }
        CondText::Not(one) => {
            plain(Sort::Not, out)?;
            write_cond(alloc, one.get(), Place::BesideAnd, out)?;
            Ok(())
        }
        CondText::Compare { op, left, right } => {
            write_relation(alloc, left, cmp_sort(*op), right, out)
        }
        CondText::Relate { pred, left, right } => {
            write_relation(alloc, left, pred_sort(*pred), right, out)
        }
        CondText::Empty(period) => write_empty(alloc, period, out),
        CondText::Contains(period, day) => write_contains(alloc, period, day, out),
    }
}

// Appends conditions at a place with a word between them, in parentheses.
#[cycle(conditions)]
fn write_enclosed(
    alloc: Global,
    all: &Items<CondText>,
    sort: Sort,
    place: Place,
    out: &mut Vec<u8>,
) -> Result<(), NoMemory>
    ensures { OnOk result (out.new.items ≡ with_words out.old.items (enclosed (spec.parts_words sort place all.now))) }
{
    plain(Sort::LeftParen, out)?;
    write_all(alloc, all, sort, place, out)?;
    plain(Sort::RightParen, out)?;
    Ok(())
}

// Appends conditions at a place with a word between them.
#[cycle(conditions)]
fn write_all(
    alloc: Global,
    all: &Items<CondText>,
    sort: Sort,
    place: Place,
    out: &mut Vec<u8>,
) -> Result<(), NoMemory>
    ensures { OnOk result (out.new.items ≡ with_words out.old.items (spec.parts_words sort place all.now)) }
{
    let mut is_first = true;
    'parts: for part in all.as_slice() {
        separator(is_first, sort, out)?;
        write_cond(alloc, part, place, out)?;
        is_first = false;
    }
    Ok(())
}
