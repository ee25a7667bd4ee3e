//! Conditions on a row.
ghost use Rattle.std.specs.Prelude.{◌≡◌, IfOk};

use crate::expression::Expr;
use og_base::NoMemory;
use og_value::{Cmp, Pred};
use sqlite_items::{Boxed, Items};
use std::alloc::Global;

/// A condition on a row.
#[derive(Drop)]
pub enum Cond {
    /// All of the parts hold; of no parts it holds.
    And(Items<Cond>),
    /// One of the parts holds.
    Or(Items<Cond>),
    /// The part does not hold.
    Not(Boxed<Cond>),
    /// Two values of one kind, other than periods, compare so.
    Compare { op: Cmp, left: Expr, right: Expr },
    /// Two periods are in this relation.
    Relate { pred: Pred, left: Expr, right: Expr },
    /// The period has no day.
    Empty(Expr),
    /// The period contains the day.
    Contains(Expr, Expr),
}

impl Cond {
    /// The same condition once more.
    #[cycle(conditions)]
    pub fn copy(&self, alloc: Global) -> Result<Cond, NoMemory>
        ensures { IfOk result (λ c. c ≡ self.now) }
    {
        match self {
            Cond::And(all) => Ok(Cond::And(copy_conditions(alloc, all)?)),
            Cond::Or(all) => Ok(Cond::Or(copy_conditions(alloc, all)?)),
            Cond::Not(one) => Ok(Cond::Not(Boxed::new(alloc, one.get().copy(alloc)?)?)),
            Cond::Compare { op, left, right } => Ok(Cond::Compare {
                op: *op,
                left: left.copy(alloc)?,
                right: right.copy(alloc)?,
            }),
            Cond::Relate { pred, left, right } => Ok(Cond::Relate {
                pred: *pred,
                left: left.copy(alloc)?,
                right: right.copy(alloc)?,
            }),
            Cond::Empty(period) => Ok(Cond::Empty(period.copy(alloc)?)),
            Cond::Contains(period, day) => {
                Ok(Cond::Contains(period.copy(alloc)?, day.copy(alloc)?))
            }
        }
    }
}

// The same conditions once more.
#[cycle(conditions)]
fn copy_conditions(alloc: Global, all: &Items<Cond>) -> Result<Items<Cond>, NoMemory>
    ensures { IfOk result (λ cs. cs ≡ all.now) }
{
    let mut copies = Items::new(alloc);
    'all: for one in all.as_slice() {
        copies.push(one.copy(alloc)?)?;
    }
    Ok(copies)
}
