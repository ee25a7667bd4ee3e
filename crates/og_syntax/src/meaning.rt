//! The words and symbols that have a meaning of their own.
ghost use Rattle.std.specs.Prelude.{◌≡◌};
ghost use Rattle.og_syntax.specs.Meanings as spec;

use crate::lexeme::Sort;
use og_value::{Cmp, Func, Pred, SetOp};

// The function of two expressions.
pub fn func_of_two(sort: Sort) -> Option<Func>
    ensures { result ≡ spec.func_of_two sort }
{
    match sort {
        Sort::Least => Some(Func::Least),
        Sort::Greatest => Some(Func::Greatest),
        Sort::Common => Some(Func::Common),
        _ => None,
    }
}

// The function of one expression.
pub fn func_of_one(sort: Sort) -> Option<Func>
    ensures { result ≡ spec.func_of_one sort }
{
    match sort {
        Sort::Start => Some(Func::Start),
        Sort::End => Some(Func::End),
        _ => None,
    }
}

// The comparison.
pub fn comparison_of(sort: Sort) -> Option<Cmp>
    ensures { result ≡ spec.comparison_of sort }
{
    match sort {
        Sort::Equal => Some(Cmp::Eq),
        Sort::NotEqual => Some(Cmp::Ne),
        Sort::Less => Some(Cmp::Lt),
        Sort::LessEqual => Some(Cmp::Le),
        Sort::Greater => Some(Cmp::Gt),
        Sort::GreaterEqual => Some(Cmp::Ge),
        _ => None,
    }
}

// The predicate.
pub fn predicate_of(sort: Sort) -> Option<Pred>
    ensures { result ≡ spec.predicate_of sort }
{
    match sort {
        Sort::Before => Some(Pred::Before),
        Sort::Meets => Some(Pred::Meets),
        Sort::Overlaps => Some(Pred::Overlaps),
        Sort::Starts => Some(Pred::Starts),
        Sort::Finishes => Some(Pred::Finishes),
        Sort::During => Some(Pred::During),
        Sort::Equals => Some(Pred::Equals),
        _ => None,
    }
}

// The operator between two cores of a query. Between those of a live query it is UNION.
pub fn set_op_of(live: bool, sort: Sort) -> Option<SetOp>
    ensures { result ≡ spec.set_op_of live sort }
{
    match (live, sort) {
        (_, Sort::Union) => Some(SetOp::Union),
        (false, Sort::Except) => Some(SetOp::Except),
        (false, Sort::Intersect) => Some(SetOp::Intersect),
        _ => None,
    }
}
