//! Names of SQL.

use crate::sql::Sql;
use og_value::Name;

// The words of PostgreSQL that are no names of tables and columns everywhere. A column of a saved file may have any.
const KEYWORDS: &[&str] = &[
    "all",
    "analyse",
    "analyze",
    "and",
    "any",
    "array",
    "as",
    "asc",
    "asymmetric",
    "authorization",
    "between",
    "bigint",
    "binary",
    "bit",
    "boolean",
    "both",
    "case",
    "cast",
    "char",
    "character",
    "check",
    "coalesce",
    "collate",
    "collation",
    "column",
    "concurrently",
    "constraint",
    "create",
    "cross",
    "current_catalog",
    "current_date",
    "current_role",
    "current_schema",
    "current_time",
    "current_timestamp",
    "current_user",
    "dec",
    "decimal",
    "default",
    "deferrable",
    "desc",
    "distinct",
    "do",
    "else",
    "end",
    "except",
    "exists",
    "extract",
    "false",
    "fetch",
    "float",
    "for",
    "foreign",
    "freeze",
    "from",
    "full",
    "grant",
    "greatest",
    "group",
    "grouping",
    "having",
    "ilike",
    "in",
    "initially",
    "inner",
    "inout",
    "int",
    "integer",
    "intersect",
    "interval",
    "into",
    "is",
    "isnull",
    "join",
    "lateral",
    "leading",
    "least",
    "left",
    "like",
    "limit",
    "localtime",
    "localtimestamp",
    "national",
    "natural",
    "nchar",
    "none",
    "normalize",
    "not",
    "notnull",
    "null",
    "nullif",
    "numeric",
    "offset",
    "on",
    "only",
    "or",
    "order",
    "out",
    "outer",
    "overlaps",
    "overlay",
    "placing",
    "position",
    "precision",
    "primary",
    "real",
    "references",
    "returning",
    "right",
    "row",
    "select",
    "session_user",
    "setof",
    "similar",
    "smallint",
    "some",
    "substring",
    "symmetric",
    "table",
    "tablesample",
    "then",
    "time",
    "timestamp",
    "to",
    "trailing",
    "treat",
    "trim",
    "true",
    "union",
    "unique",
    "user",
    "using",
    "values",
    "varchar",
    "variadic",
    "verbose",
    "when",
    "where",
    "window",
    "with",
    "xmlattributes",
    "xmlconcat",
    "xmlelement",
    "xmlexists",
    "xmlforest",
    "xmlnamespaces",
    "xmlparse",
    "xmlpi",
    "xmlroot",
    "xmlserialize",
    "xmltable",
];

// The columns that each table of PostgreSQL has, and the days.
const COLUMNS: &[&str] = &["days", "ctid", "xmin", "cmin", "xmax", "cmax", "tableoid"];

// The types that translations name.
const TYPES: &[&str] = &[
    "datemultirange",
    "daterange",
    "point_ends",
    "period_ends",
    "ongoing_point",
    "ongoing_period",
    "span",
];

// The most bytes of a column's name that stays as it is, and of what stands before `$` and a number.
const ROOM: usize = 48;

// The most bytes of a name in PostgreSQL.
const MOST: usize = 63;

// Whether the name is one of the words.
fn is_one_of(name: &[u8], words: &[&str]) -> bool {
    'words: for word in words {
        if word.as_bytes() == name {
            return true;
        }
    }
    false
}

/// Whether a column may keep its name.
pub fn may_be_column(name: &[u8]) -> bool {
    name.len() <= ROOM && !is_one_of(name, COLUMNS)
}

// Whether a table may keep its name.
fn may_be_table(name: &[u8]) -> bool {
    name.len() <= MOST && !is_one_of(name, TYPES) && !name.starts_with(b"pg_")
}

/// Appends a name, between double quotes where it needs them.
pub fn put_name(name: &[u8], out: &mut Sql) {
    if is_one_of(name, KEYWORDS) {
        return put_marked(name, 0, out);
    }
    out.put_bytes(name)
}

/// Appends the front of a name, `$` and a number, where the number is not 0: no name of ongq has a `$`.
pub fn put_marked(name: &[u8], mark: usize, out: &mut Sql) {
    out.put("\"");
    out.put_bytes(&name[..name.len().min(ROOM)]);
    if mark > 0 {
        out.put("$");
        out.number(mark);
    }
    out.put("\"")
}

/// Appends the name of a table. One that PostgreSQL cannot take is cut, and told from others by a sum of its bytes. Of
/// two with one sum PostgreSQL refuses the second.
pub fn put_table(name: &Name, out: &mut Sql) {
    let bytes = name.bytes();
    if may_be_table(bytes) {
        return put_name(bytes, out);
    }
    put_marked(bytes, sum_of(bytes), out)
}

// The most bytes of the name of a table in the name of what belongs to it.
const ROOM_BESIDE: usize = 40;

/// Appends the name of what belongs to a table, which has no more than 8 letters behind `$`.
pub fn put_beside(name: &Name, word: &str, out: &mut Sql) {
    let bytes = name.bytes();
    out.put_bytes(&bytes[..bytes.len().min(ROOM_BESIDE)]);
    if bytes.len() > ROOM_BESIDE {
        out.put("$");
        out.number(sum_of(bytes));
    }
    out.put("$");
    out.put(word)
}

// A sum of bytes.
fn sum_of(bytes: &[u8]) -> usize {
    let mut sum = bytes.len();
    'bytes: for b in bytes {
        sum = (sum % 4_294_967_291) * 263 + usize::from(*b) + 1;
    }
    sum
}
