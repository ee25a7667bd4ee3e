//! Queries.
ghost use Rattle.std.specs.Prelude.{◌≡◌, OnOk};
ghost use Rattle.og_print.specs.Words.{with_words, each};
ghost use Rattle.og_print.specs.Queries as spec;

use crate::conditions::{Place, write_cond};
use crate::expressions::write_expr;
use crate::words::{named, plain, separator};
use og_base::NoMemory;
use og_parse::{CondText, CoreText, FromText, ItemText, ItemsText, QueryText, RestText, SemiText};
use og_syntax::Sort;
use og_value::{Name, SetOp};
use sqlite_items::Items;
use std::alloc::Global;

// The word of an operator between cores.
fn op_sort(op: SetOp) -> Sort
    ensures { result ≡ spec.op_sort op }
{
    match op {
        SetOp::Union => Sort::Union,
        SetOp::Except => Sort::Except,
        SetOp::Intersect => Sort::Intersect,
    }
}

// Appends AS and a name, or nothing.
fn write_alias(alias: &Option<Name>, out: &mut Vec<u8>) -> Result<(), NoMemory>
    ensures { OnOk result (out.new.items ≡ with_words out.old.items (spec.alias_words alias.now)) }
{
    match alias {
        Some(name) => {
            plain(Sort::As, out)?;
            named(name, out)?;
            Ok(())
        }
        None => Ok(()),
    }
}

// Appends a name and its alias.
fn write_aliased(name: &Name, alias: &Option<Name>, out: &mut Vec<u8>) -> Result<(), NoMemory>
    ensures { OnOk result (out.new.items ≡ with_words out.old.items (spec.name_words name.now alias.now)) }
{
    named(name, out)?;
    write_alias(alias, out)?;
    Ok(())
}

// Appends WHERE and a condition, or nothing.
pub fn write_cond_clause(
    alloc: Global,
    cond: &Option<CondText>,
    out: &mut Vec<u8>,
) -> Result<(), NoMemory>
    ensures { OnOk result (out.new.items ≡ with_words out.old.items (spec.cond_clause_words cond.now)) }
{
    match cond {
        Some(cond) => {
            plain(Sort::Where, out)?;
            write_cond(alloc, cond, Place::Alone, out)?;
            Ok(())
        }
        None => Ok(()),
    }
}

// Appends an expression, with the name that AS gives it.
fn write_item(alloc: Global, item: &ItemText, out: &mut Vec<u8>) -> Result<(), NoMemory>
    ensures { OnOk result (out.new.items ≡ with_words out.old.items (spec.item_words item.now)) }
{
    write_expr(alloc, &item.expr, out)?;
    write_alias(&item.name, out)?;
    Ok(())
}

// Appends a star, or items.
fn write_items(alloc: Global, items: &ItemsText, out: &mut Vec<u8>) -> Result<(), NoMemory>
    ensures { OnOk result (out.new.items ≡ with_words out.old.items (spec.items_words items.now)) }
{
    match items {
        ItemsText::Star => plain(Sort::Star, out),
        ItemsText::List(all) => write_item_list(alloc, all, out),
    }
}

// Appends items with commas between them.
fn write_item_list(
    alloc: Global,
    items: &Items<ItemText>,
    out: &mut Vec<u8>,
) -> Result<(), NoMemory>
    ensures { OnOk result (out.new.items ≡ with_words out.old.items (spec.item_list_words items.now)) }
{
    let mut is_first = true;
    'parts: for part in items.as_slice() {
        separator(is_first, Sort::Comma, out)?;
        write_item(alloc, part, out)?;
        is_first = false;
    }
    Ok(())
}

// Appends a table without its condition.
fn write_table(table: &FromText, out: &mut Vec<u8>) -> Result<(), NoMemory>
    ensures { OnOk result (out.new.items ≡ with_words out.old.items (spec.table_words table.now)) }
{
    write_aliased(&table.name, &table.alias, out)
}

// Appends a further table: after a comma, or after JOIN and with its condition.
fn write_further_table(alloc: Global, table: &FromText, out: &mut Vec<u8>) -> Result<(), NoMemory>
    ensures { OnOk result (out.new.items ≡ with_words out.old.items (spec.further_table_words table.now)) }
{
    match &table.on {
        Some(cond) => {
            plain(Sort::Join, out)?;
            write_table(table, out)?;
            plain(Sort::On, out)?;
            write_cond(alloc, cond, Place::Alone, out)?;
            Ok(())
        }
        None => {
            plain(Sort::Comma, out)?;
            write_table(table, out)?;
            Ok(())
        }
    }
}

// Appends the tables of FROM.
fn write_tables(alloc: Global, tables: &[FromText], out: &mut Vec<u8>) -> Result<(), NoMemory>
    ensures { OnOk result (out.new.items ≡ with_words out.old.items (spec.tables_words tables.now)) }
{
    match tables.split_first() {
        Some((first, rest)) => {
            write_table(first, out)?;
            write_further_tables(alloc, rest, out)?;
            Ok(())
        }
        None => Ok(()),
    }
}

// Appends further tables.
fn write_further_tables(
    alloc: Global,
    tables: &[FromText],
    out: &mut Vec<u8>,
) -> Result<(), NoMemory>
    ensures { OnOk result (out.new.items ≡ with_words out.old.items (each spec.further_table_words tables.now)) }
{
    'parts: for part in tables {
        write_further_table(alloc, part, out)?;
    }
    Ok(())
}

// Appends what stands in the parentheses of EXISTS.
fn write_sub(alloc: Global, semi: &SemiText, out: &mut Vec<u8>) -> Result<(), NoMemory>
    ensures { OnOk result (out.new.items ≡ with_words out.old.items (spec.sub_words semi.now)) }
{
    plain(Sort::Select, out)?;
    plain(Sort::Star, out)?;
    plain(Sort::From, out)?;
    write_aliased(&semi.name, &semi.alias, out)?;
    write_cond_clause(alloc, &semi.cond, out)?;
    Ok(())
}

// Appends EXISTS, or NOT EXISTS.
fn write_exists(positive: bool, out: &mut Vec<u8>) -> Result<(), NoMemory>
    ensures { OnOk result (out.new.items ≡ with_words out.old.items (spec.exists_words positive)) }
{
    if !positive {
        plain(Sort::Not, out)?;
        plain(Sort::Exists, out)?;
        return Ok(());
    }
    plain(Sort::Exists, out)
}

// Appends a condition of EXISTS or of NOT EXISTS.
fn write_semi(alloc: Global, semi: &SemiText, out: &mut Vec<u8>) -> Result<(), NoMemory>
    ensures { OnOk result (out.new.items ≡ with_words out.old.items (spec.semi_words semi.now)) }
{
    write_exists(semi.positive, out)?;
    plain(Sort::LeftParen, out)?;
    write_sub(alloc, semi, out)?;
    plain(Sort::RightParen, out)?;
    Ok(())
}

// Appends conditions of EXISTS with AND between them.
fn write_semis(alloc: Global, semis: &Items<SemiText>, out: &mut Vec<u8>) -> Result<(), NoMemory>
    ensures { OnOk result (out.new.items ≡ with_words out.old.items (spec.semis_words semis.now)) }
{
    let mut is_first = true;
    'parts: for part in semis.as_slice() {
        separator(is_first, Sort::And, out)?;
        write_semi(alloc, part, out)?;
        is_first = false;
    }
    Ok(())
}

// Appends a condition and AND after it, or nothing.
fn write_front(alloc: Global, cond: &Option<CondText>, out: &mut Vec<u8>) -> Result<(), NoMemory>
    ensures { OnOk result (out.new.items ≡ with_words out.old.items (spec.front_words cond.now)) }
{
    match cond {
        Some(cond) => {
            write_cond(alloc, cond, Place::BesideOr, out)?;
            plain(Sort::And, out)?;
            Ok(())
        }
        None => Ok(()),
    }
}

// Appends WHERE and what stands after it, or nothing.
fn write_where(
    alloc: Global,
    cond: &Option<CondText>,
    semis: &Items<SemiText>,
    out: &mut Vec<u8>,
) -> Result<(), NoMemory>
    ensures { OnOk result (out.new.items ≡ with_words out.old.items (spec.where_words cond.now semis.now)) }
{
    if semis.len() == 0 {
        return write_cond_clause(alloc, cond, out);
    }
    plain(Sort::Where, out)?;
    write_front(alloc, cond, out)?;
    write_semis(alloc, semis, out)?;
    Ok(())
}

// Appends a SELECT.
fn write_core(alloc: Global, core: &CoreText, out: &mut Vec<u8>) -> Result<(), NoMemory>
    ensures { OnOk result (out.new.items ≡ with_words out.old.items (spec.core_words core.now)) }
{
    plain(Sort::Select, out)?;
    write_items(alloc, &core.items, out)?;
    plain(Sort::From, out)?;
    write_tables(alloc, core.tables.as_slice(), out)?;
    write_where(alloc, &core.cond, &core.semis, out)?;
    Ok(())
}

// Appends an operator and the core after it.
fn write_rest(alloc: Global, rest: &RestText, out: &mut Vec<u8>) -> Result<(), NoMemory>
    ensures { OnOk result (out.new.items ≡ with_words out.old.items (spec.rest_words rest.now)) }
{
    plain(op_sort(rest.op), out)?;
    write_core(alloc, &rest.core, out)?;
    Ok(())
}

// Appends further cores, each after its operator.
fn write_rests(alloc: Global, rests: &Items<RestText>, out: &mut Vec<u8>) -> Result<(), NoMemory>
    ensures { OnOk result (out.new.items ≡ with_words out.old.items (each spec.rest_words rests.now)) }
{
    'parts: for part in rests.as_slice() {
        write_rest(alloc, part, out)?;
    }
    Ok(())
}

// Appends a query.
pub fn write_query(alloc: Global, query: &QueryText, out: &mut Vec<u8>) -> Result<(), NoMemory>
    ensures { OnOk result (out.new.items ≡ with_words out.old.items (spec.query_words query.now)) }
{
    write_core(alloc, &query.first, out)?;
    write_rests(alloc, &query.rest, out)?;
    Ok(())
}
