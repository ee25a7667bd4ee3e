//! Literals and expressions.
ghost use Rattle.std.specs.Prelude.{◌≡◌, ◌++◌, ◌∷◌, [], OnOk};
ghost use Rattle.og_print.specs.Words.{with_words, listed, Plain, Named, Quoted};
ghost use Rattle.og_value.specs.Cells.{cell_text};
ghost use Rattle.og_print.specs.Expressions as spec;
ghost use Rattle.og_syntax.specs.declared.lexeme.Sort.{Sort};

use crate::words::{named, plain, quoted, quoted_cell, separator, whole};
use og_base::NoMemory;
use og_parse::ExprText;
use og_syntax::Sort;
use og_value::{Func, Name, Value};
use sqlite_items::Items;
use std::alloc::Global;

// Appends a literal.
pub fn write_lit(alloc: Global, value: &Value, out: &mut Vec<u8>) -> Result<(), NoMemory>
    ensures { OnOk result (out.new.items ≡ with_words out.old.items (spec.lit_words value.now)) }
{
    match value {
        Value::Int(n) => whole(*n, out),
        Value::Text(text) => quoted(text.bytes(), out),
        Value::Point(_) => write_marked(alloc, Sort::Ongoing, value, out),
        Value::Period(_) => write_marked(alloc, Sort::Period, value, out),
    }
}

// Appends a word and the cell of a value between quotes.
fn write_marked(alloc: Global, sort: Sort, value: &Value, out: &mut Vec<u8>) -> Result<(), NoMemory>
    ensures { OnOk result (out.new.items ≡ with_words out.old.items (Plain sort ∷ Quoted (cell_text value.now) ∷ [])) }
{
    plain(sort, out)?;
    quoted_cell(alloc, value, out)?;
    Ok(())
}

// The word of a function.
fn func_sort(func: Func) -> Sort
    ensures { result ≡ spec.func_sort func }
{
    match func {
        Func::Least => Sort::Least,
        Func::Greatest => Sort::Greatest,
        Func::Common => Sort::Common,
        Func::Start => Sort::Start,
        Func::End => Sort::End,
        Func::Period => Sort::Period,
    }
}

// Appends a column, with its table where that is named.
fn write_column(table: &Option<Name>, name: &Name, out: &mut Vec<u8>) -> Result<(), NoMemory>
    ensures { OnOk result (out.new.items ≡ with_words out.old.items (spec.column_words table.now name.now)) }
{
    match table {
        Some(table) => write_dotted(table, name, out),
        None => named(name, out),
    }
}

// Appends two names with a dot between them.
fn write_dotted(table: &Name, name: &Name, out: &mut Vec<u8>) -> Result<(), NoMemory>
    ensures { OnOk result (out.new.items ≡ with_words out.old.items (Named table.now ∷ Plain Sort.Dot ∷ Named name.now ∷ [])) }
{
    named(table, out)?;
    plain(Sort::Dot, out)?;
    named(name, out)?;
    Ok(())
}

// Appends an expression.
#[cycle(expressions)]
#[tactic(auto, using(crate::proofs::Texts::with_words_append, crate::proofs::TreeWords::expressions))]
pub fn write_expr(alloc: Global, expr: &ExprText, out: &mut Vec<u8>) -> Result<(), NoMemory>
    ensures { OnOk result (out.new.items ≡ with_words out.old.items (spec.expr_words expr.now)) }
{
    match expr {
        ExprText::Column { table, name } => write_column(table, name, out),
        ExprText::Lit(value) => write_lit(alloc, value, out),
        ExprText::Call { func, args } => {
            plain(func_sort(*func), out)?;
            plain(Sort::LeftParen, out)?;
            write_args(alloc, args, out)?;
            plain(Sort::RightParen, out)?;
            Ok(())
        }
    }
}

// Appends expressions with commas between them.
#[cycle(expressions)]
fn write_args(alloc: Global, args: &Items<ExprText>, out: &mut Vec<u8>) -> Result<(), NoMemory>
    ensures { OnOk result (out.new.items ≡ with_words out.old.items (listed spec.expr_words args.now)) }
{
    let mut is_first = true;
    'parts: for arg in args.as_slice() {
        separator(is_first, Sort::Comma, out)?;
        write_expr(alloc, arg, out)?;
        is_first = false;
    }
    Ok(())
}
