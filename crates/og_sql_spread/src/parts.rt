//! Where the rows of a plan are made, and which of their columns hold what they are spread by.

use crate::why::Why;
use og_base::NoMemory;
use og_outline::Outline;
use og_plan::{ColPair, Plan, PlanSemi};
use og_query::{Cond, Expr};
use og_sql_text::is_steady_kind;
use og_value::{Cmp, Name, Schema, SetOp};
use std::alloc::Global;

/// Where rows are made.
#[derive(Clone, Copy, Debug, PartialEq, Eq)]
pub enum At {
    /// On each node a part, of rows that stand there. The parts together are the answer, once equal rows are made one.
    Nodes,
    /// On the coordinator, of tables that stand there.
    Here,
    /// On the coordinator, of rows that the nodes send.
    Sent(Why),
}

/// What a plan gives.
#[derive(Drop)]
pub struct Part {
    /// Where its rows are made.
    pub at: At,
    /// The places of the columns that hold what the rows are spread by.
    pub keys: Vec<usize>,
    /// The number of columns.
    pub width: usize,
}

impl Part {
    /// What the coordinator gives, of which no more is asked. Takes no memory.
    pub fn here(alloc: Global) -> Part {
        Part {
            at: At::Here,
            keys: Vec::new(alloc),
            width: 0,
        }
    }

    /// Whether the column at that place holds what the rows are spread by.
    pub fn has(&self, place: usize) -> bool {
        'keys: for key in self.keys.as_slice() {
            if *key == place {
                return true;
            }
        }
        false
    }
}

// By which column tables are spread, and the names that there are.
#[derive(Clone, Copy)]
struct Over<'a> {
    alloc: Global,
    column: &'a Name,
    outline: &'a Outline,
}

/// The place of the column by which rows of the schema are spread: it has that name, and numbers or texts.
pub fn key_of(schema: &Schema, column: &Name) -> Option<usize> {
    'columns: for i in 0..schema.len() {
        let one = schema.column(i);
        if one.name == *column && is_steady_kind(one.kind) {
            return Some(i);
        }
    }
    None
}

/// What a plan gives over the names, where tables are spread by the column. Refused only for want of memory.
pub fn part_of(
    alloc: Global,
    plan: &Plan,
    column: &Name,
    outline: &Outline,
) -> Result<Part, NoMemory> {
    part_below(
        plan,
        Over {
            alloc,
            column,
            outline,
        },
    )
}

// What a plan gives. It goes as deep as the plan.
#[cycle(spread)]
fn part_below(plan: &Plan, over: Over<'_>) -> Result<Part, NoMemory> {
    match plan {
        Plan::Scan { name, schema } => part_of_table(name, schema, over),
        Plan::Filter { input, .. } => part_below(input.get(), over),
        Plan::Project { input, items } => {
            let part = part_below(input.get(), over)?;
            projected(&part, items.as_slice(), over.alloc)
        }
        Plan::Semis { input, semis } => {
            let part = part_below(input.get(), over)?;
            met(part, semis.as_slice(), over)
        }
        Plan::Product { left, right }
        | Plan::KeyJoin { left, right, .. }
        | Plan::OverlapJoin { left, right, .. }
        | Plan::Combine { left, right, .. } => {
            let one = part_below(left.get(), over)?;
            let two = part_below(right.get(), over)?;
            part_of_two(plan, one, &two)
        }
    }
}

// What a plan of two inputs gives.
fn part_of_two(plan: &Plan, one: Part, two: &Part) -> Result<Part, NoMemory> {
    match plan {
        Plan::KeyJoin { pairs, .. } => joined(one, two, pairs.as_slice(), Why::OtherKey),
        Plan::Combine { op, .. } => Ok(combined(*op, one, two)),
        _ => joined(one, two, &[], Why::NoKey),
    }
}

// What a table gives.
fn part_of_table(name: &Name, schema: &Schema, over: Over<'_>) -> Result<Part, NoMemory> {
    let mut keys = Vec::new(over.alloc);
    let mut at = At::Here;
    if let Some(place) = key_at(name, schema, over) {
        keys.push(place)?;
        at = At::Nodes;
    }
    let width = schema.len();
    Ok(Part { at, keys, width })
}

// The place of the column by which a table is spread, if it is.
fn key_at(name: &Name, schema: &Schema, over: Over<'_>) -> Option<usize> {
    if over.outline.is_live(name) {
        return None;
    }
    key_of(schema, over.column)
}

// Where rows are made of those of two inputs.
fn together(one: At, two: At) -> At {
    match (one, two) {
        (At::Nodes, At::Nodes) => At::Nodes,
        (At::Here, At::Here) => At::Here,
        (At::Sent(_), _) => one,
        (_, At::Sent(_)) => two,
        _ => At::Sent(Why::Mixed),
    }
}

// What a join of the columns gives; why says why rows are sent, where none of these is what both are spread by.
fn joined(left: Part, right: &Part, pairs: &[ColPair], why: Why) -> Result<Part, NoMemory> {
    let mut at = together(left.at, right.at);
    if at == At::Nodes && !has_key_pair(&left, right, pairs) {
        at = At::Sent(why);
    }
    let Part {
        mut keys,
        width,
        ..
    } = left;
    'keys: for key in right.keys.as_slice() {
        keys.push(width.saturating_add(*key))?;
    }
    let width = width.saturating_add(right.width);
    Ok(Part { at, keys, width })
}

// Whether some pair of columns is what both sides are spread by.
fn has_key_pair(left: &Part, right: &Part, pairs: &[ColPair]) -> bool {
    'pairs: for pair in pairs {
        if left.has(pair.left) && right.has(pair.right) {
            return true;
        }
    }
    false
}

// What two answers give that are put together.
fn combined(op: SetOp, left: Part, right: &Part) -> Part {
    let mut at = together(left.at, right.at);
    let Part {
        mut keys,
        width,
        ..
    } = left;
    keys.retain(|key: &usize| -> bool { right.has(*key) });
    if at == At::Nodes && op != SetOp::Union && keys.is_empty() {
        at = At::Sent(Why::OtherColumns);
    }
    Part { at, keys, width }
}

// What the images of rows are.
fn projected(part: &Part, items: &[Expr], alloc: Global) -> Result<Part, NoMemory> {
    let mut keys = Vec::new(alloc);
    'items: for i in 0..items.len() {
        if let Expr::Column(place) = &items[i] {
            if part.has(*place) {
                keys.push(i)?;
            }
        }
    }
    let at = part.at;
    let width = items.len();
    Ok(Part { at, keys, width })
}

// What the rows are that meet the semis.
fn met(part: Part, semis: &[PlanSemi], over: Over<'_>) -> Result<Part, NoMemory> {
    let mut at = part.at;
    'semis: for semi in semis {
        at = together(at, semi_at(&part, semi, over));
    }
    let Part { keys, width, .. } = part;
    Ok(Part { at, keys, width })
}

// Where it is found whether the rows meet a semi.
fn semi_at(part: &Part, semi: &PlanSemi, over: Over<'_>) -> At {
    let Some(key) = key_at(&semi.table.name, &semi.table.schema, over) else {
        return At::Here;
    };
    if part.at == At::Nodes && !asks_for_key(part, key, semi.parts.as_slice()) {
        return At::Sent(Why::OtherExists);
    }
    At::Nodes
}

// Whether some part of the condition asks that what both rows are spread by is equal.
fn asks_for_key(part: &Part, key: usize, conds: &[Cond]) -> bool {
    'conds: for cond in conds {
        if is_of_key(part, key, cond) {
            return true;
        }
    }
    false
}

// Whether the condition is that what both rows are spread by is equal.
fn is_of_key(part: &Part, key: usize, cond: &Cond) -> bool {
    let Cond::Compare {
        op: Cmp::Eq,
        left: Expr::Column(left),
        right: Expr::Column(right),
    } = cond
    else {
        return false;
    };
    let there = part.width.saturating_add(key);
    (part.has(*left) && *right == there) || (part.has(*right) && *left == there)
}
