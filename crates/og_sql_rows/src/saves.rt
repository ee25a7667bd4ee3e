//! SAVE, as what psql writes to a file.

use og_faults::kind_word;
use og_sql_query::put_fields;
use og_sql_text::{Columns, Sql, put_table};
use og_value::{Name, Schema, Text};

// Which rows are there on a day of ongq.
const THERE: &str = "(l.days && '{(,10000-01-01)}'::datemultirange)";

// Rows are read from the first to the last, so those of a table come in the order in which they went in.
const ONE_BY_ONE: &str =
    "SET max_parallel_workers_per_gather = 0; SET synchronize_seqscans = off;\n";

const AS_BEFORE: &str = "RESET max_parallel_workers_per_gather; RESET synchronize_seqscans;\n";

/// Appends what writes the rows of the name to the file, in the form of a saved file of version 2. Those of a live result
/// come in rising order, in which ongq mostly has them.
pub fn put_save(name: &Name, schema: &Schema, file: &Text, is_live: bool, out: &mut Sql) {
    let columns = Columns::of(schema, out);
    out.put(ONE_BY_ONE);
    out.put("\\o ");
    put_file(file.bytes(), out);
    out.put("\nSELECT 'ongq:2';\nSELECT '");
    put_kinds(schema, out);
    out.put("';\nSELECT ");
    put_fields(&columns, "l.", out);
    out.put(" || ',' || field(show(l.days)) FROM ");
    put_table(name, out);
    out.put(" AS l WHERE ");
    out.put(THERE);
    if is_live {
        out.put(" ORDER BY ");
        columns.put_all("l.", out);
    }
    out.put(";\nSELECT 'rows:' || count(*) FROM ");
    put_table(name, out);
    out.put(" AS l WHERE ");
    out.put(THERE);
    out.put(";\n\\o\n");
    out.put(AS_BEFORE)
}

// Appends the names and kinds of the columns.
fn put_kinds(schema: &Schema, out: &mut Sql) {
    'columns: for i in 0..schema.len() {
        let column = schema.column(i);
        out.put(if i > 0 { "," } else { "" });
        out.put_bytes(column.name.bytes());
        out.put(":");
        out.put(kind_word(column.kind));
    }
}

// Appends the name of a file as psql takes it between quotes. It is one below the folder, so that none is a command.
fn put_file(file: &[u8], out: &mut Sql) {
    out.put("'./");
    'bytes: for b in file {
        put_file_byte(*b, out);
    }
    out.put("'")
}

// Appends a byte of the name of a file.
fn put_file_byte(b: u8, out: &mut Sql) {
    match b {
        b'\'' => out.put("''"),
        b'\\' => out.put("\\\\"),
        b'\n' => out.put("\\n"),
        b'\r' => out.put("\\r"),
        _ => out.put_bytes(&[b]),
    }
}
