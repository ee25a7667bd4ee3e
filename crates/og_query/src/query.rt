//! Queries over named relations.
ghost use Rattle.std.specs.Prelude.{◌≡◌, IfOk};

use crate::condition::Cond;
use crate::expression::{Expr, copy_expressions};
use og_base::NoMemory;
use og_value::{Name, Schema, SetOp};
use sqlite_items::Items;
use std::alloc::Global;

/// A name of FROM, and the schema of what it stands for.
#[derive(Drop)]
pub struct From1 {
    pub name: Name,
    pub schema: Schema,
}

/// A SELECT: of each combination of one row from each table, joined to one row, those for which the
/// condition holds and which meet each semi, mapped to the items.
pub struct Core {
    pub tables: Items<From1>,
    /// The conditions of ON in order and then that of WHERE, as one `And`.
    pub cond: Cond,
    pub semis: Items<Semi>,
    pub items: Items<Expr>,
    /// The schema of the items.
    pub schema: Schema,
}

// A call of its own: what drops a SELECT has one step for it.
impl Drop for Core {
    fn drop(self) {
        let Core {
            tables: _tables,
            cond: _cond,
            semis: _semis,
            items: _items,
            schema: _schema,
        } = self;
    }
}

/// A condition of EXISTS, which is positive, or of NOT EXISTS. Its columns are places in the row of
/// the core's tables followed by a row of this table.
pub struct Semi {
    pub positive: bool,
    pub table: From1,
    pub cond: Cond,
}

// A call of its own: what drops a condition of EXISTS has one step for it.
impl Drop for Semi {
    fn drop(self) {
        let Semi {
            positive: _positive,
            table: _table,
            cond: _cond,
        } = self;
    }
}

/// A further core, and the operator before it.
#[derive(Drop)]
pub struct Rest {
    pub op: SetOp,
    pub core: Core,
}

/// A query: a core, and further ones that are combined with it from the left.
#[derive(Drop)]
pub struct Query {
    pub first: Core,
    pub rest: Items<Rest>,
}

impl From1 {
    /// The same table once more.
    pub fn copy(&self) -> Result<From1, NoMemory>
        ensures { IfOk result (λ t. t ≡ self.now) }
    {
        Ok(From1 {
            name: self.name.copy()?,
            schema: self.schema.copy()?,
        })
    }
}

// The same tables once more.
fn copy_tables(alloc: Global, all: &Items<From1>) -> Result<Items<From1>, NoMemory>
    ensures { IfOk result (λ ts. ts ≡ all.now) }
{
    let mut copies = Items::new(alloc);
    'all: for one in all.as_slice() {
        copies.push(one.copy()?)?;
    }
    Ok(copies)
}

impl Semi {
    /// The same semi once more.
    pub fn copy(&self, alloc: Global) -> Result<Semi, NoMemory>
        ensures { IfOk result (λ s. s ≡ self.now) }
    {
        Ok(Semi {
            positive: self.positive,
            table: self.table.copy()?,
            cond: self.cond.copy(alloc)?,
        })
    }
}

// The same semis once more.
fn copy_semis(alloc: Global, all: &Items<Semi>) -> Result<Items<Semi>, NoMemory>
    ensures { IfOk result (λ ss. ss ≡ all.now) }
{
    let mut copies = Items::new(alloc);
    'all: for one in all.as_slice() {
        copies.push(one.copy(alloc)?)?;
    }
    Ok(copies)
}

impl Core {
    /// The same core once more.
    pub fn copy(&self, alloc: Global) -> Result<Core, NoMemory>
        ensures { IfOk result (λ c. c ≡ self.now) }
    {
        let tables = copy_tables(alloc, &self.tables)?;
        let semis = copy_semis(alloc, &self.semis)?;
        let items = copy_expressions(alloc, &self.items)?;
        let schema = self.schema.copy()?;
        let cond = self.cond.copy(alloc)?;
        Ok(Core {
            tables,
            cond,
            semis,
            items,
            schema,
        })
    }
}

// The same further cores once more.
fn copy_rests(alloc: Global, all: &Items<Rest>) -> Result<Items<Rest>, NoMemory>
    ensures { IfOk result (λ rs. rs ≡ all.now) }
{
    let mut copies = Items::new(alloc);
    'all: for one in all.as_slice() {
        let core = one.core.copy(alloc)?;
        copies.push(Rest { op: one.op, core })?;
    }
    Ok(copies)
}

impl Query {
    /// The same query once more.
    pub fn copy(&self, alloc: Global) -> Result<Query, NoMemory>
        ensures { IfOk result (λ q. q ≡ self.now) }
    {
        let rest = copy_rests(alloc, &self.rest)?;
        let first = self.first.copy(alloc)?;
        Ok(Query { first, rest })
    }
}
