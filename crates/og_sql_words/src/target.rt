//! What the SQL is for.

use og_value::Name;

/// How a live result is kept.
#[derive(Clone, Copy, Debug, PartialEq, Eq)]
pub enum LiveForm {
    /// As a view, which is asked anew at each use.
    View,
    /// As a table that triggers keep in step with the tables of its query.
    Table,
}

/// What EXPLAIN gives.
#[derive(Clone, Copy, Debug, PartialEq, Eq)]
pub enum ExplainForm {
    /// The plan of ongq, as ongq prints it.
    Ongq,
    /// The plan of PostgreSQL.
    PostgreSql,
}

/// Over which servers the tables are spread.
#[derive(Drop)]
pub enum Spread {
    /// They stand on one server.
    One,
    /// Tables with this column are spread by it, as interop/postgres/shards sets servers up.
    Shards(Name),
    /// Tables with this column are spread by it, by Citus.
    Citus(Name),
}

/// What the SQL is for.
#[derive(Drop)]
pub struct Target {
    pub live: LiveForm,
    pub explain: ExplainForm,
    pub spread: Spread,
}

impl Target {
    /// One server, views, and the plans of ongq.
    pub fn plain() -> Target {
        Target {
            live: LiveForm::View,
            explain: ExplainForm::Ongq,
            spread: Spread::One,
        }
    }
}
