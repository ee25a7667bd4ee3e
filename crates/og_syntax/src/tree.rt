//! Statements as they are written, without parentheses and quotes.
ghost use Rattle.std.specs.Prelude.{◌≡◌, IfOk};

use og_base::{NoMemory, RefDay};
use og_value::{Cmp, Column, Func, Name, Pred, Row, SetOp, Text, Value};
use sqlite_items::{Boxed, Items};
use std::alloc::Global;

/// An expression.
#[derive(Drop)]
pub enum ExprText {
    /// A column, with the name of its table where that is written.
    Column { table: Option<Name>, name: Name },
    Lit(Value),
    Call { func: Func, args: Items<ExprText> },
}

/// A condition. One in parentheses is a node of its own.
#[derive(Drop)]
pub enum CondText {
    And(Items<CondText>),
    Or(Items<CondText>),
    Not(Boxed<CondText>),
    Compare {
        op: Cmp,
        left: ExprText,
        right: ExprText,
    },
    Relate {
        pred: Pred,
        left: ExprText,
        right: ExprText,
    },
    Empty(ExprText),
    Contains(ExprText, ExprText),
}

/// A script, as its statements in order.
#[derive(Drop)]
pub struct Script {
    pub stmts: Items<Stmt>,
}

/// A statement.
#[derive(Drop)]
pub enum Stmt {
    Create {
        name: Name,
        columns: Items<Column>,
    },
    Insert {
        name: Name,
        rows: Items<Row>,
    },
    Delete {
        name: Name,
        cond: Option<CondText>,
    },
    Update {
        name: Name,
        sets: Items<SetText>,
        cond: Option<CondText>,
    },
    Drop {
        name: Name,
    },
    Tables,
    Keep {
        name: Name,
        query: QueryText,
    },
    PrintName {
        name: Name,
        day: RefDay,
    },
    PrintQuery {
        query: QueryText,
        day: RefDay,
    },
    Save {
        name: Name,
        file: Text,
    },
    OpenFile {
        name: Name,
        file: Text,
    },
    ImportFile {
        name: Name,
        file: Text,
    },
    Explain {
        query: QueryText,
    },
    Valid {
        name: Name,
        day: RefDay,
    },
    Live {
        name: Name,
        query: QueryText,
    },
}

/// An assignment of UPDATE.
pub struct SetText {
    pub column: Name,
    pub expr: ExprText,
}

// A call of its own: what drops an assignment has one step for it.
impl Drop for SetText {
    fn drop(self) {
        let SetText {
            column: _column,
            expr,
        } = self;
        drop(expr);
    }
}

/// A query: a core, and further ones that are combined with it from the left.
#[derive(Drop)]
pub struct QueryText {
    pub first: CoreText,
    pub rest: Items<RestText>,
}

/// A further core, and the operator before it.
#[derive(Drop)]
pub struct RestText {
    pub op: SetOp,
    pub core: CoreText,
}

/// A SELECT. The condition is that of WHERE without its conditions of EXISTS and NOT EXISTS.
pub struct CoreText {
    pub items: ItemsText,
    pub tables: Items<FromText>,
    pub cond: Option<CondText>,
    pub semis: Items<SemiText>,
}

// A call of its own: what drops a SELECT has one step for it.
impl Drop for CoreText {
    fn drop(self) {
        let CoreText {
            items: _items,
            tables: _tables,
            cond,
            semis: _semis,
        } = self;
        drop(cond);
    }
}

/// A condition of EXISTS, which is positive, or of NOT EXISTS.
pub struct SemiText {
    pub positive: bool,
    pub name: Name,
    pub alias: Option<Name>,
    pub cond: Option<CondText>,
}

// A call of its own: what drops a condition of EXISTS has one step for it.
impl Drop for SemiText {
    fn drop(self) {
        let SemiText {
            positive: _positive,
            name: _name,
            alias: _alias,
            cond,
        } = self;
        drop(cond);
    }
}

/// What a SELECT gives: all columns, or a list of items.
#[derive(Drop)]
pub enum ItemsText {
    Star,
    List(Items<ItemText>),
}

/// An item of a SELECT, with the name that AS gives it.
pub struct ItemText {
    pub expr: ExprText,
    pub name: Option<Name>,
}

// A call of its own: what drops an item has one step for it.
impl Drop for ItemText {
    fn drop(self) {
        let ItemText { expr, name: _name } = self;
        drop(expr);
    }
}

/// A name of FROM, its alias, and the condition where it stands after JOIN.
pub struct FromText {
    pub name: Name,
    pub alias: Option<Name>,
    pub on: Option<CondText>,
}

// A call of its own: what drops a table of FROM has one step for it.
impl Drop for FromText {
    fn drop(self) {
        let FromText {
            name: _name,
            alias: _alias,
            on,
        } = self;
        drop(on);
    }
}

impl ExprText {
    /// The same expression once more.
    #[cycle(expressions)]
    pub fn copy(&self, alloc: Global) -> Result<ExprText, NoMemory>
        ensures { IfOk result (λ e. e ≡ self.now) }
    {
        match self {
            ExprText::Column { table, name } => Ok(ExprText::Column {
                table: copy_name(table)?,
                name: name.copy()?,
            }),
            ExprText::Lit(value) => Ok(ExprText::Lit(value.copy()?)),
            ExprText::Call { func, args } => Ok(ExprText::Call {
                func: *func,
                args: copy_expressions(alloc, args)?,
            }),
        }
    }
}

// The same name once more, where there is one.
fn copy_name(name: &Option<Name>) -> Result<Option<Name>, NoMemory>
    ensures { IfOk result (λ n. n ≡ name.now) }
{
    match name {
        Some(name) => Ok(Some(name.copy()?)),
        None => Ok(None),
    }
}

// The same expressions once more.
#[cycle(expressions)]
fn copy_expressions(alloc: Global, all: &Items<ExprText>) -> Result<Items<ExprText>, NoMemory>
    ensures { IfOk result (λ es. es ≡ all.now) }
{
    let mut copies = Items::new(alloc);
    'all: for one in all.as_slice() {
        copies.push(one.copy(alloc)?)?;
    }
    Ok(copies)
}

impl CondText {
    /// The same condition once more.
    #[cycle(conditions)]
    pub fn copy(&self, alloc: Global) -> Result<CondText, NoMemory>
        ensures { IfOk result (λ c. c ≡ self.now) }
    {
        match self {
            CondText::And(all) => Ok(CondText::And(copy_conditions(alloc, all)?)),
            CondText::Or(all) => Ok(CondText::Or(copy_conditions(alloc, all)?)),
            CondText::Not(one) => Ok(CondText::Not(Boxed::new(alloc, one.get().copy(alloc)?)?)),
            CondText::Compare { op, left, right } => {
                let (left, right) = copy_both(alloc, left, right)?;
                Ok(CondText::Compare {
                    op: *op,
                    left,
                    right,
                })
            }
            CondText::Relate { pred, left, right } => {
                let (left, right) = copy_both(alloc, left, right)?;
                Ok(CondText::Relate {
                    pred: *pred,
                    left,
                    right,
                })
            }
            CondText::Empty(period) => Ok(CondText::Empty(period.copy(alloc)?)),
            CondText::Contains(period, day) => {
                let (period, day) = copy_both(alloc, period, day)?;
                Ok(CondText::Contains(period, day))
            }
        }
    }
}

// Both expressions once more.
fn copy_both(
    alloc: Global,
    left: &ExprText,
    right: &ExprText,
) -> Result<(ExprText, ExprText), NoMemory>
    ensures { IfOk result (λ both. both ≡ (left.now, right.now)) }
{
    let left = left.copy(alloc)?;
    match right.copy(alloc) {
        Ok(right) => Ok((left, right)),
        Err(NoMemory) => {
            drop(left);
            Err(NoMemory)
        }
    }
}

// The same conditions once more.
#[cycle(conditions)]
fn copy_conditions(alloc: Global, all: &Items<CondText>) -> Result<Items<CondText>, NoMemory>
    ensures { IfOk result (λ cs. cs ≡ all.now) }
{
    let mut copies = Items::new(alloc);
    'all: for one in all.as_slice() {
        copies.push(one.copy(alloc)?)?;
    }
    Ok(copies)
}
