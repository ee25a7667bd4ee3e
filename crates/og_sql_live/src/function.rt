//! The function of a live table, and the triggers that call it.
ghost use Rattle.og_query.specs.Fits.{IsFitQuery, Schemas};

use crate::changes::{put_added, put_again, put_gone, put_touched};
use crate::rows::put_type;
use og_query::{From1, Query};
use og_sql_text::{Sql, put_beside, put_dollars, put_table};
use og_value::Name;

/// Appends the function that a trigger of each of the tables calls after a statement. Each EXECUTE is planned anew each time,
/// as tables grow.
pub fn put_function(name: &Name, query: &Query, tables: &[From1], out: &mut Sql)
    requires fits { (schemas : Schemas) × IsFitQuery schemas query.now }
{
    let mut body = Sql::new(out.alloc());
    body.put("DECLARE\n    touched ");
    put_type(name, &mut body);
    body.put(
        "[];\nBEGIN\n    -- One change after the other: each sees those before it.\n    LOCK TABLE ",
    );
    put_table(name, &mut body);
    body.put(" IN SHARE ROW EXCLUSIVE MODE;\n    -- What the query had by lost rows.\n");
    put_all_lost(name, query, tables, &mut body);
    body.put("    -- What it still has of that.\n");
    put_renewed(name, query, &mut body);
    body.put("    -- What it has by new rows.\n");
    put_all_added(name, query, tables, &mut body);
    body.put("    RETURN NULL;\nEND");
    out.put("CREATE FUNCTION ");
    put_beside(name, "live", out);
    out.put("() RETURNS trigger LANGUAGE plpgsql AS ");
    put_dollars("live", &body, out);
    out.put(";\n")
}

// Appends for each table what finds the rows that its lost rows touch.
fn put_all_lost(name: &Name, query: &Query, tables: &[From1], out: &mut Sql)
    requires fits { (schemas : Schemas) × IsFitQuery schemas query.now }
{
    'tables: for table in tables {
        let mut lost = Sql::new(out.alloc());
        put_touched(name, query, &table.name, &mut lost);
        put_where(&table.name, "INSERT", out);
        put_execute(&lost, " INTO touched", out);
    }
}

// Appends what renews touched rows.
fn put_renewed(name: &Name, query: &Query, out: &mut Sql)
    requires fits { (schemas : Schemas) × IsFitQuery schemas query.now }
{
    let mut gone = Sql::new(out.alloc());
    put_gone(name, query, &mut gone);
    let mut again = Sql::new(out.alloc());
    put_again(name, query, &mut again);
    out.put("    IF touched IS NOT NULL THEN\n        EXECUTE ");
    put_dollars("query", &gone, out);
    out.put(" USING touched;\n");
    put_execute(&again, " USING touched", out)
}

// Appends for each table what adds what the query has by its new rows.
fn put_all_added(name: &Name, query: &Query, tables: &[From1], out: &mut Sql)
    requires fits { (schemas : Schemas) × IsFitQuery schemas query.now }
{
    'tables: for table in tables {
        let mut added = Sql::new(out.alloc());
        put_added(name, query, &table.name, &mut added);
        put_where(&table.name, "DELETE", out);
        put_execute(&added, "", out);
    }
}

// Appends the first line of what is done after a change of the table by another word.
fn put_where(table: &Name, word: &str, out: &mut Sql) {
    out.put("    IF TG_RELID = '");
    put_table(table, out);
    out.put("'::regclass AND TG_OP <> '");
    out.put(word);
    out.put("' THEN\n")
}

// Appends the last lines of an IF, which carry the statement out.
fn put_execute(statement: &Sql, end: &str, out: &mut Sql) {
    out.put("        EXECUTE ");
    put_dollars("query", statement, out);
    out.put(end);
    out.put(";\n    END IF;\n")
}

/// Appends the triggers of a table.
pub fn put_triggers(name: &Name, table: &Name, out: &mut Sql) {
    put_trigger(
        name,
        table,
        "insert",
        " AFTER INSERT ON ",
        "NEW TABLE AS added$",
        out,
    );
    put_trigger(
        name,
        table,
        "delete",
        " AFTER DELETE ON ",
        "OLD TABLE AS lost$",
        out,
    );
    put_trigger(
        name,
        table,
        "update",
        " AFTER UPDATE ON ",
        "OLD TABLE AS lost$ NEW TABLE AS added$",
        out,
    )
}

// Appends a trigger.
fn put_trigger(name: &Name, table: &Name, word: &str, after: &str, rows: &str, out: &mut Sql) {
    out.put("CREATE TRIGGER ");
    put_beside(name, word, out);
    out.put(after);
    put_table(table, out);
    out.put(" REFERENCING ");
    out.put(rows);
    out.put(" FOR EACH STATEMENT EXECUTE FUNCTION ");
    put_beside(name, "live", out);
    out.put("();\n")
}
