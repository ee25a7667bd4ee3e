//! Statements.
ghost use Rattle.std.specs.Prelude.{◌≡◌, ◌∷◌, [], OnOk};
ghost use Rattle.og_base.specs.Calendar.{day_text};
ghost use Rattle.og_print.specs.Words.{with_words, Plain, Named, Quoted};
ghost use Rattle.og_print.specs.Statements as spec;
ghost use Rattle.og_print.specs.Queries.{query_words};
ghost use Rattle.og_syntax.specs.declared.lexeme.Sort.{Sort};

use crate::expressions::{write_expr, write_lit};
use crate::queries::{write_cond_clause, write_query};
use crate::words::{named, plain, quoted, separator};
use og_base::{ExtDay, NoMemory, RefDay, write_day};
use og_parse::{CondText, QueryText, SetText, Stmt};
use og_syntax::Sort;
use og_value::{Column, Kind, Name, Row, Text};
use sqlite_items::Items;
use std::alloc::Global;

// The word of a kind.
fn kind_sort(kind: Kind) -> Sort
    ensures { result ≡ spec.kind_sort kind }
{
    match kind {
        Kind::Int => Sort::Int,
        Kind::Text => Sort::Text,
        Kind::Date => Sort::Date,
        Kind::Period => Sort::Period,
    }
}

// Appends a column and its kind.
fn write_coldef(column: &Column, out: &mut Vec<u8>) -> Result<(), NoMemory>
    ensures { OnOk result (out.new.items ≡ with_words out.old.items (spec.coldef_words column.now)) }
{
    named(&column.name, out)?;
    plain(kind_sort(column.kind), out)?;
    Ok(())
}

// Appends columns with commas between them.
fn write_coldefs(columns: &Items<Column>, out: &mut Vec<u8>) -> Result<(), NoMemory>
    ensures { OnOk result (out.new.items ≡ with_words out.old.items (spec.coldefs_words columns.now)) }
{
    let mut is_first = true;
    'parts: for part in columns.as_slice() {
        separator(is_first, Sort::Comma, out)?;
        write_coldef(part, out)?;
        is_first = false;
    }
    Ok(())
}

// Appends literals with commas between them.
fn write_lits(alloc: Global, row: &Row, out: &mut Vec<u8>) -> Result<(), NoMemory>
    ensures { OnOk result (out.new.items ≡ with_words out.old.items (spec.lits_words row.now)) }
{
    let mut is_first = true;
    'parts: for i in 0..row.len() {
        separator(is_first, Sort::Comma, out)?;
        write_lit(alloc, row.value(i), out)?;
        is_first = false;
    }
    Ok(())
}

// Appends a row in parentheses.
fn write_tuple(alloc: Global, row: &Row, out: &mut Vec<u8>) -> Result<(), NoMemory>
    ensures { OnOk result (out.new.items ≡ with_words out.old.items (spec.tuple_words row.now)) }
{
    plain(Sort::LeftParen, out)?;
    write_lits(alloc, row, out)?;
    plain(Sort::RightParen, out)?;
    Ok(())
}

// Appends rows with commas between them.
fn write_tuples(alloc: Global, rows: &Items<Row>, out: &mut Vec<u8>) -> Result<(), NoMemory>
    ensures { OnOk result (out.new.items ≡ with_words out.old.items (spec.tuples_words rows.now)) }
{
    let mut is_first = true;
    'parts: for part in rows.as_slice() {
        separator(is_first, Sort::Comma, out)?;
        write_tuple(alloc, part, out)?;
        is_first = false;
    }
    Ok(())
}

// Appends an assignment.
fn write_set(alloc: Global, set: &SetText, out: &mut Vec<u8>) -> Result<(), NoMemory>
    ensures { OnOk result (out.new.items ≡ with_words out.old.items (spec.set_words set.now)) }
{
    named(&set.column, out)?;
    plain(Sort::Equal, out)?;
    write_expr(alloc, &set.expr, out)?;
    Ok(())
}

// Appends assignments with commas between them.
fn write_sets(alloc: Global, sets: &Items<SetText>, out: &mut Vec<u8>) -> Result<(), NoMemory>
    ensures { OnOk result (out.new.items ≡ with_words out.old.items (spec.sets_words sets.now)) }
{
    let mut is_first = true;
    'parts: for part in sets.as_slice() {
        separator(is_first, Sort::Comma, out)?;
        write_set(alloc, part, out)?;
        is_first = false;
    }
    Ok(())
}

// Appends a day between quotes.
fn quoted_day(alloc: Global, day: RefDay, out: &mut Vec<u8>) -> Result<(), NoMemory>
    ensures { OnOk result (out.new.items ≡ with_words out.old.items (Quoted (day_text day) ∷ [])) }
{
    let mut text = Vec::new(alloc);
    write_day(ExtDay::of(day), &mut text)?;
    quoted(text.as_slice(), out)
}

// Appends AS OF and a day.
fn write_as_of(alloc: Global, day: RefDay, out: &mut Vec<u8>) -> Result<(), NoMemory>
    ensures { OnOk result (out.new.items ≡ with_words out.old.items (spec.as_of_words day)) }
{
    plain(Sort::As, out)?;
    plain(Sort::Of, out)?;
    plain(Sort::Date, out)?;
    quoted_day(alloc, day, out)?;
    Ok(())
}

// Appends CREATE TABLE.
fn write_create(name: &Name, columns: &Items<Column>, out: &mut Vec<u8>) -> Result<(), NoMemory>
    ensures { OnOk result (out.new.items ≡ with_words out.old.items (spec.create_words name.now columns.now)) }
{
    plain(Sort::Create, out)?;
    plain(Sort::Table, out)?;
    named(name, out)?;
    plain(Sort::LeftParen, out)?;
    write_coldefs(columns, out)?;
    plain(Sort::RightParen, out)?;
    Ok(())
}

// Appends INSERT.
fn write_insert(
    alloc: Global,
    name: &Name,
    rows: &Items<Row>,
    out: &mut Vec<u8>,
) -> Result<(), NoMemory>
    ensures { OnOk result (out.new.items ≡ with_words out.old.items (spec.insert_words name.now rows.now)) }
{
    plain(Sort::Insert, out)?;
    plain(Sort::Into, out)?;
    named(name, out)?;
    plain(Sort::Values, out)?;
    write_tuples(alloc, rows, out)?;
    Ok(())
}

// Appends DELETE.
fn write_delete(
    alloc: Global,
    name: &Name,
    cond: &Option<CondText>,
    out: &mut Vec<u8>,
) -> Result<(), NoMemory>
    ensures { OnOk result (out.new.items ≡ with_words out.old.items (spec.delete_words name.now cond.now)) }
{
    plain(Sort::Delete, out)?;
    plain(Sort::From, out)?;
    named(name, out)?;
    write_cond_clause(alloc, cond, out)?;
    Ok(())
}

// Appends UPDATE.
fn write_update(
    alloc: Global,
    name: &Name,
    sets: &Items<SetText>,
    cond: &Option<CondText>,
    out: &mut Vec<u8>,
) -> Result<(), NoMemory>
    ensures { OnOk result (out.new.items ≡ with_words out.old.items (spec.update_words name.now sets.now cond.now)) }
{
    plain(Sort::Update, out)?;
    named(name, out)?;
    plain(Sort::Set, out)?;
    write_sets(alloc, sets, out)?;
    write_cond_clause(alloc, cond, out)?;
    Ok(())
}

// Appends a word and a name.
fn write_name(sort: Sort, name: &Name, out: &mut Vec<u8>) -> Result<(), NoMemory>
    ensures { OnOk result (out.new.items ≡ with_words out.old.items (Plain sort ∷ Named name.now ∷ [])) }
{
    plain(sort, out)?;
    named(name, out)?;
    Ok(())
}

// Appends a word, a name, and a query that it stands for.
fn write_named_query(
    alloc: Global,
    sort: Sort,
    name: &Name,
    query: &QueryText,
    out: &mut Vec<u8>,
) -> Result<(), NoMemory>
    ensures { OnOk result (out.new.items ≡ with_words out.old.items (Plain sort ∷ Named name.now ∷ Plain Sort.As ∷ query_words query.now)) }
{
    write_name(sort, name, out)?;
    plain(Sort::As, out)?;
    write_query(alloc, query, out)?;
    Ok(())
}

// Appends a word, a name and a day.
fn write_named_day(
    alloc: Global,
    sort: Sort,
    name: &Name,
    day: RefDay,
    out: &mut Vec<u8>,
) -> Result<(), NoMemory>
    ensures { OnOk result (out.new.items ≡ with_words out.old.items (Plain sort ∷ Named name.now ∷ spec.as_of_words day)) }
{
    write_name(sort, name, out)?;
    write_as_of(alloc, day, out)?;
    Ok(())
}

// Appends PRINT of a query at a day.
fn write_print(
    alloc: Global,
    query: &QueryText,
    day: RefDay,
    out: &mut Vec<u8>,
) -> Result<(), NoMemory>
    ensures { OnOk result (out.new.items ≡ with_words out.old.items (spec.print_words query.now day)) }
{
    plain(Sort::Print, out)?;
    write_query(alloc, query, out)?;
    write_as_of(alloc, day, out)?;
    Ok(())
}

// Appends a word, a name, a second word and a file.
fn write_file(
    first: Sort,
    name: &Name,
    second: Sort,
    file: &Text,
    out: &mut Vec<u8>,
) -> Result<(), NoMemory>
    ensures { OnOk result (out.new.items ≡ with_words out.old.items (Plain first ∷ Named name.now ∷ Plain second ∷ Quoted file.now ∷ [])) }
{
    write_name(first, name, out)?;
    plain(second, out)?;
    quoted(file.bytes(), out)?;
    Ok(())
}

// Appends IMPORT.
fn write_import(name: &Name, file: &Text, out: &mut Vec<u8>) -> Result<(), NoMemory>
    ensures { OnOk result (out.new.items ≡ with_words out.old.items (spec.import_words name.now file.now)) }
{
    plain(Sort::Import, out)?;
    write_file(Sort::Into, name, Sort::From, file, out)?;
    Ok(())
}

// Appends EXPLAIN.
fn write_explain(alloc: Global, query: &QueryText, out: &mut Vec<u8>) -> Result<(), NoMemory>
    ensures { OnOk result (out.new.items ≡ with_words out.old.items (Plain Sort.Explain ∷ query_words query.now)) }
{
    plain(Sort::Explain, out)?;
    write_query(alloc, query, out)?;
    Ok(())
}

// Appends a statement without its semicolon.
fn write_body(alloc: Global, stmt: &Stmt, out: &mut Vec<u8>) -> Result<(), NoMemory>
    ensures { OnOk result (out.new.items ≡ with_words out.old.items (spec.body_words stmt.now)) }
{
    match stmt {
        Stmt::Create { name, columns } => write_create(name, columns, out),
        Stmt::Insert { name, rows } => write_insert(alloc, name, rows, out),
        Stmt::Delete { name, cond } => write_delete(alloc, name, cond, out),
        Stmt::Update { name, sets, cond } => write_update(alloc, name, sets, cond, out),
        Stmt::Drop { name } => write_name(Sort::Drop, name, out),
        Stmt::Tables => plain(Sort::Tables, out),
        Stmt::Keep { name, query } => write_named_query(alloc, Sort::Keep, name, query, out),
        Stmt::PrintName { name, day } => write_named_day(alloc, Sort::Print, name, *day, out),
        Stmt::PrintQuery { query, day } => write_print(alloc, query, *day, out),
        Stmt::Save { name, file } => write_file(Sort::Save, name, Sort::To, file, out),
        Stmt::OpenFile { name, file } => write_file(Sort::Open, name, Sort::From, file, out),
        Stmt::ImportFile { name, file } => write_import(name, file, out),
        Stmt::Explain { query } => write_explain(alloc, query, out),
        Stmt::Valid { name, day } => write_named_day(alloc, Sort::Valid, name, *day, out),
        Stmt::Live { name, query } => write_named_query(alloc, Sort::Live, name, query, out),
    }
}

// Appends a statement.
pub fn write_stmt(alloc: Global, stmt: &Stmt, out: &mut Vec<u8>) -> Result<(), NoMemory>
    ensures { OnOk result (out.new.items ≡ with_words out.old.items (spec.stmt_words stmt.now)) }
{
    write_body(alloc, stmt, out)?;
    plain(Sort::Semicolon, out)?;
    Ok(())
}
