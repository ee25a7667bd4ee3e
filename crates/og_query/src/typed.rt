//! Statements whose names and kinds were looked up.
use crate::condition::Cond;
use crate::expression::Expr;
use crate::query::Query;
use og_base::RefDay;
use og_value::{Name, Row, Schema, Text};
use sqlite_items::Items;

/// An assignment of UPDATE: the place of the column, from 0, and its new value.
#[derive(Drop)]
pub struct Assign {
    pub column: usize,
    pub expr: Expr,
}

/// A statement. A WHERE that is missing is the `And` of no parts.
#[derive(Drop)]
pub enum Typed {
    /// CREATE TABLE
    Create {
        name: Name,
        schema: Schema,
    },
    /// INSERT INTO
    Insert {
        name: Name,
        rows: Items<Row>,
    },
    /// DELETE FROM
    Delete {
        name: Name,
        cond: Cond,
    },
    /// UPDATE
    Update {
        name: Name,
        sets: Items<Assign>,
        cond: Cond,
    },
    /// DROP
    Drop {
        name: Name,
    },
    /// TABLES
    Tables,
    /// KEEP
    Keep {
        name: Name,
        query: Query,
    },
    /// PRINT of a name
    PrintName {
        name: Name,
        day: RefDay,
    },
    /// PRINT of a query
    PrintQuery {
        query: Query,
        day: RefDay,
    },
    /// SAVE
    Save {
        name: Name,
        file: Text,
    },
    /// OPEN
    OpenFile {
        name: Name,
        file: Text,
    },
    /// IMPORT INTO
    ImportFile {
        name: Name,
        file: Text,
    },
    /// EXPLAIN
    Explain {
        query: Query,
    },
    /// VALID
    Valid {
        name: Name,
        day: RefDay,
    },
    /// LIVE
    Live {
        name: Name,
        query: Query,
    },
}
