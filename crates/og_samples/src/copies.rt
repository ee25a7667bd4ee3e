//! Copies of a query and of its parts. It asks for the bugs with the patches that were in use while they were open.
use og_query::{Cond, Core, Expr, From1, Query};
use og_value::{Cmp, Column, Kind, Name, Pred, Schema};
use sqlite_items::Items;
use std::alloc::Global;
use std::process::Abort;

// The column of that name.
fn column<H: AllocGlobal + Abort>(rt: &H, name: &str, kind: Kind) -> Column {
    let name = Name::of(rt.alloc(), name.as_bytes()).expect(rt, name);
    Column { name, kind }
}

// The table of that name, with a number of the other name, a text and a period.
fn table<H: AllocGlobal + Abort>(rt: &H, name: &str, number: &str) -> From1 {
    let columns = [
        column(rt, number, Kind::Int),
        column(rt, "comp", Kind::Text),
        column(rt, "vt", Kind::Period),
    ];
    let columns = Vec::from_array(rt.alloc(), columns).expect(rt, "memory");
    From1 {
        name: Name::of(rt.alloc(), name.as_bytes()).expect(rt, name),
        schema: Schema::of(columns),
    }
}

// Both tables.
fn tables<H: AllocGlobal + Abort>(rt: &H) -> Items<From1> {
    let mut tables = Items::new(rt.alloc());
    assert!(rt; tables.push(table(rt, "bugs", "id")).is_ok());
    assert!(rt; tables.push(table(rt, "patch", "pid")).is_ok());
    tables
}

// That the periods overlap and the texts are equal.
fn condition<H: AllocGlobal + Abort>(rt: &H) -> Cond {
    let mut parts = Items::new(rt.alloc());
    let overlap = Cond::Relate {
        pred: Pred::Overlaps,
        left: Expr::Column(2),
        right: Expr::Column(5),
    };
    assert!(rt; parts.push(overlap).is_ok());
    let equal = Cond::Compare {
        op: Cmp::Eq,
        left: Expr::Column(1),
        right: Expr::Column(4),
    };
    assert!(rt; parts.push(equal).is_ok());
    Cond::And(parts)
}

// The numbers of both.
fn items<H: AllocGlobal + Abort>(rt: &H) -> Items<Expr> {
    let mut items = Items::new(rt.alloc());
    assert!(rt; items.push(Expr::Column(0)).is_ok());
    assert!(rt; items.push(Expr::Column(3)).is_ok());
    items
}

// The query.
fn query<H: AllocGlobal + Abort>(rt: &H) -> Query {
    let columns = [column(rt, "id", Kind::Int), column(rt, "pid", Kind::Int)];
    let columns = Vec::from_array(rt.alloc(), columns).expect(rt, "memory");
    Query {
        first: Core {
            tables: tables(rt),
            cond: condition(rt),
            semis: Items::new(rt.alloc()),
            items: items(rt),
            schema: Schema::of(columns),
        },
        rest: Items::new(rt.alloc()),
    }
}

fn is_column(expr: &Expr, place: usize) -> bool {
    match expr {
        Expr::Column(found) => *found == place,
        _ => false,
    }
}

fn is_overlap(cond: &Cond) -> bool {
    match cond {
        Cond::Relate { pred, left, right } => {
            *pred == Pred::Overlaps && is_column(left, 2) && is_column(right, 5)
        }
        _ => false,
    }
}

fn is_equal(cond: &Cond) -> bool {
    match cond {
        Cond::Compare { op, left, right } => {
            *op == Cmp::Eq && is_column(left, 1) && is_column(right, 4)
        }
        _ => false,
    }
}

// Whether it is the condition of the query.
fn is_condition(cond: &Cond) -> bool {
    let Cond::And(parts) = cond else {
        return false;
    };
    let [overlap, equal] = parts.as_slice() else {
        return false;
    };
    is_overlap(overlap) && is_equal(equal)
}

fn is_table(table: &From1, name: &str, number: &str) -> bool {
    table.name.as_str() == name
        && table.schema.len() == 3
        && table.schema.column(0).name.as_str() == number
}

// Whether it is the core of the query.
fn is_core(core: &Core) -> bool {
    let [bugs, patch] = core.tables.as_slice() else {
        return false;
    };
    let [id, pid] = core.items.as_slice() else {
        return false;
    };
    is_table(bugs, "bugs", "id")
        && is_table(patch, "patch", "pid")
        && is_condition(&core.cond)
        && core.semis.is_empty()
        && is_column(id, 0)
        && is_column(pid, 3)
        && core.schema.len() == 2
}

// Whether it is the query.
fn is_query(query: &Query) -> bool {
    is_core(&query.first) && query.rest.is_empty()
}

fn is_query_copied(alloc: Global, query: &Query) -> bool {
    match query.copy(alloc) {
        Ok(copy) => is_query(&copy),
        Err(_) => false,
    }
}

fn is_core_copied(alloc: Global, core: &Core) -> bool {
    match core.copy(alloc) {
        Ok(copy) => is_core(&copy),
        Err(_) => false,
    }
}

fn is_condition_copied(alloc: Global, cond: &Cond) -> bool {
    match cond.copy(alloc) {
        Ok(copy) => is_condition(&copy),
        Err(_) => false,
    }
}

fn is_item_copied(alloc: Global, item: &Expr) -> bool {
    match item.copy(alloc) {
        Ok(copy) => is_column(&copy, 0),
        Err(_) => false,
    }
}

fn is_first_copied(alloc: Global, items: &[Expr]) -> bool {
    match items.first() {
        Some(item) => is_item_copied(alloc, item),
        None => false,
    }
}

#[test]
fn each_copy_of_a_query_or_a_part_of_it_is_the_same(rt: HostRuntime) {
    let query = query(&rt);
    assert!(rt; is_query(&query) && is_query_copied(rt.alloc(), &query));
    let core = &query.first;
    assert!(rt; is_core_copied(rt.alloc(), core) && is_condition_copied(rt.alloc(), &core.cond));
    assert!(rt; is_first_copied(rt.alloc(), core.items.as_slice()));
}
