//! The nodes of a plan as the parts of a WITH.

use og_sql_text::{Columns, Sql, put_table};
use og_value::Name;
use std::alloc::Global;

/// What a part of a query reads: a table, or a part that was written before.
#[derive(Drop)]
pub enum Source {
    /// The table or the view of a name.
    Table(Name),
    /// The parts of a query that the nodes answer, as og_sql_spread asks them.
    Asked,
    /// The part with that word and number.
    Part { word: &'static str, number: usize },
    /// The rows that a trigger has under that word.
    Changed { word: &'static str },
    /// The table of the right side of the set operator with that number, counted from 1.
    Side { number: usize },
}

/// What a node of a plan gives: the name and the columns of its rows. Their days stand in the column `days`.
#[derive(Drop)]
pub struct Node {
    pub source: Source,
    pub columns: Columns,
}

impl Source {
    /// Appends the name.
    pub fn put(&self, out: &mut Sql) {
        match self {
            Source::Table(name) => put_table(name, out),
            Source::Asked => out.put("parts.asked$"),
            Source::Part { word, number } => put_part(word, *number, out),
            Source::Changed { word } => put_word(word, out),
            Source::Side { number } => put_part("side", *number, out),
        }
    }

    /// The table or the view of a name. Where memory runs out the text is cut, and another source is given.
    pub fn of_table(name: &Name, out: &mut Sql) -> Source {
        match out.made(name.copy()) {
            Some(name) => Source::Table(name),
            None => Source::Asked,
        }
    }

    /// The source once more. Where memory runs out the text is cut, and another one is given.
    pub fn copy(&self, out: &mut Sql) -> Source {
        match self {
            Source::Table(name) => Source::of_table(name, out),
            Source::Asked => Source::Asked,
            Source::Part { word, number } => Source::Part {
                word: *word,
                number: *number,
            },
            Source::Changed { word } => Source::Changed { word: *word },
            Source::Side { number } => Source::Side { number: *number },
        }
    }
}

impl Node {
    /// Appends the name of the rows.
    pub fn put(&self, out: &mut Sql) {
        self.source.put(out)
    }
}

// Appends a word that is no name: no name of ongq has a `$`.
fn put_word(word: &str, out: &mut Sql) {
    out.put(word);
    out.put("$")
}

// Appends the name of a part.
fn put_part(word: &str, number: usize, out: &mut Sql) {
    put_word(word, out);
    out.number(number)
}

/// The parts of a WITH, counted as they are written, and what stands for the tables of FROM.
#[derive(Drop)]
pub struct Count {
    parts: usize,
    // The set operators whose left sides were written.
    combined: usize,
    // The places of FROM that were written.
    scans: usize,
    // What each place reads instead of its table.
    places: Vec<Option<Source>>,
    // Whether the tables have an index on the numbers of their texts, by `hashtext`.
    is_indexed: bool,
}

// The parts after which PostgreSQL is told to plan each by itself.
const MANY: usize = 32;

impl Count {
    /// What tells PostgreSQL to plan the next part by itself, after many others. It would put each part that is read once
    /// into the one that reads it, and look for that through all of the query.
    pub fn by_itself(&self) -> &'static str {
        if self.parts < MANY {
            return "";
        }
        "MATERIALIZED "
    }

    /// No parts, and each place of FROM reads its table. Takes no memory.
    pub fn new(alloc: Global) -> Count {
        Count {
            parts: 0,
            combined: 0,
            scans: 0,
            places: Vec::new(alloc),
            is_indexed: false,
        }
    }

    /// From now on the places of FROM read these, the first one first, and its table where there is none. The tables have
    /// an index on the number of each text that is a key: one on texts of any length is refused.
    pub fn read_from(&mut self, places: Vec<Option<Source>>) {
        self.scans = 0;
        self.places = places;
        self.is_indexed = true;
    }

    /// Whether texts are found by their numbers.
    pub fn is_indexed(&self) -> bool {
        self.is_indexed
    }

    /// The number of the next set operator, counted from 1.
    pub fn next_combined(&mut self) -> usize {
        self.combined = self.combined.saturating_add(1);
        self.combined
    }

    /// What the next place of FROM reads, at which the table stands.
    pub fn next_place(&mut self, table: &Name, out: &mut Sql) -> Source {
        let place = self.scans;
        self.scans = place.saturating_add(1);
        match self.places.get(place) {
            Some(Some(source)) => source.copy(out),
            _ => Source::of_table(table, out),
        }
    }

    /// Begins a further part with that word, to be ended by `)`. Gives its name.
    pub fn begin(&mut self, word: &'static str, kept: &str, out: &mut Sql) -> Source {
        out.put(if self.parts == 0 { "WITH " } else { ",\n" });
        self.parts = self.parts.saturating_add(1);
        let number = self.parts;
        put_part(word, number, out);
        out.put(" AS ");
        out.put(kept);
        out.put("(\n    ");
        Source::Part { word, number }
    }
}
