//! Expressions over the columns of a row.
ghost use Rattle.std.specs.Prelude.{◌≡◌, IfOk};

use og_base::NoMemory;
use og_value::{Func, Value};
use sqlite_items::Items;
use std::alloc::Global;

/// An expression. A column is its place, from 0, in the row that stands before the expression.
#[derive(Drop)]
pub enum Expr {
    /// The value at this place of the row.
    Column(usize),
    /// A value, which may depend on the day.
    Lit(Value),
    /// A function of the values of expressions.
    Call { func: Func, args: Items<Expr> },
}

impl Expr {
    /// The same expression once more.
    #[cycle(expressions)]
    pub fn copy(&self, alloc: Global) -> Result<Expr, NoMemory>
        ensures { IfOk result (λ e. e ≡ self.now) }
    {
        match self {
            Expr::Column(place) => Ok(Expr::Column(*place)),
            Expr::Lit(value) => Ok(Expr::Lit(value.copy()?)),
            Expr::Call { func, args } => Ok(Expr::Call {
                func: *func,
                args: copy_expressions(alloc, args)?,
            }),
        }
    }
}

/// The same expressions once more.
#[cycle(expressions)]
pub fn copy_expressions(alloc: Global, all: &Items<Expr>) -> Result<Items<Expr>, NoMemory>
    ensures { IfOk result (λ es. es ≡ all.now) }
{
    let mut copies = Items::new(alloc);
    'all: for one in all.as_slice() {
        copies.push(one.copy(alloc)?)?;
    }
    Ok(copies)
}
