//! What is said of the words.

/// The words that there are, in one line.
pub const USAGE: &str =
    "usage: ongq-sql [--explain] [--live=view|table] [--shard-by COLUMN | --citus COLUMN] [--help] < script.ongq > script.sql\n";

/// What `--help` writes.
pub const HELP: &str =
    "ongq-sql writes the ongq script of standard input as SQL for PostgreSQL 15 with the extension `ongoing`.

usage: ongq-sql [--explain] [--live=view|table] [--shard-by COLUMN | --citus COLUMN] [--help] < script.ongq > script.sql

  --explain          EXPLAIN gives the plan of PostgreSQL, not that of ongq
  --live=view        a LIVE result is a view, which is asked anew at each use (so without the option)
  --live=table       a LIVE result is a table that triggers keep in step with the tables of its query
  --shard-by COLUMN  tables with this column are spread over the servers that interop/postgres/shards set up
  --citus COLUMN     tables with this column are spread by Citus
  --help             these lines

Run the SQL by `psql -X -q -f script.sql`. docs/SCALE.md says more.
";
