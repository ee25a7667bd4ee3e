//! Reserved words.
ghost use Rattle.std.specs.Prelude.{◌≡◌, map};
ghost use Rattle.std.specs.Str.{str_eq_ignore_ascii_case};
ghost use Rattle.og_syntax.specs.Words as spec;

use crate::lexeme::Sort;
use crate::step::same_sort;

// The reserved words in upper case, and the sort of each. Those of literals come first, since a script of many rows has
// them once a row.
const RESERVED: [(&[u8], Sort); 52] = [
    (b"DATE", Sort::Date),
    (b"ONGOING", Sort::Ongoing),
    (b"PERIOD", Sort::Period),
    (b"AND", Sort::And),
    (b"AS", Sort::As),
    (b"BEFORE", Sort::Before),
    (b"COMMON", Sort::Common),
    (b"CONTAINS", Sort::Contains),
    (b"CREATE", Sort::Create),
    (b"DELETE", Sort::Delete),
    (b"DROP", Sort::Drop),
    (b"DURING", Sort::During),
    (b"EMPTY", Sort::Empty),
    (b"END", Sort::End),
    (b"EQUALS", Sort::Equals),
    (b"EXCEPT", Sort::Except),
    (b"EXISTS", Sort::Exists),
    (b"EXPLAIN", Sort::Explain),
    (b"FINISHES", Sort::Finishes),
    (b"FROM", Sort::From),
    (b"GREATEST", Sort::Greatest),
    (b"IMPORT", Sort::Import),
    (b"INSERT", Sort::Insert),
    (b"INT", Sort::Int),
    (b"INTERSECT", Sort::Intersect),
    (b"INTO", Sort::Into),
    (b"JOIN", Sort::Join),
    (b"KEEP", Sort::Keep),
    (b"LEAST", Sort::Least),
    (b"LIVE", Sort::Live),
    (b"MEETS", Sort::Meets),
    (b"NOT", Sort::Not),
    (b"OF", Sort::Of),
    (b"ON", Sort::On),
    (b"OPEN", Sort::Open),
    (b"OR", Sort::Or),
    (b"OVERLAPS", Sort::Overlaps),
    (b"PRINT", Sort::Print),
    (b"SAVE", Sort::Save),
    (b"SELECT", Sort::Select),
    (b"SET", Sort::Set),
    (b"START", Sort::Start),
    (b"STARTS", Sort::Starts),
    (b"TABLE", Sort::Table),
    (b"TABLES", Sort::Tables),
    (b"TEXT", Sort::Text),
    (b"TO", Sort::To),
    (b"UNION", Sort::Union),
    (b"UPDATE", Sort::Update),
    (b"VALID", Sort::Valid),
    (b"VALUES", Sort::Values),
    (b"WHERE", Sort::Where),
];

/// The sort of a word: that of its reserved word, without regard to ASCII case, else a name.
#[tactic(auto, unfolding(crate::specs::Words::sort_of_word))]
pub fn sort_of_word(word: &[u8]) -> Sort
    ensures { result ≡ spec.sort_of_word word.now }
{
    lookup(&RESERVED, word)
}

// The sort that the table gives the word, and a name where it gives none.
fn lookup(mut table: &[(&[u8], Sort)], word: &[u8]) -> Sort
    ensures { result ≡ spec.sort_in (map (λ e. (e.0.now, e.1)) table.entry.now) word.now }
{
    'table: while let [entry, rest @ ..] = table {
        if is_word(entry.0, word) {
            return entry.1;
        }
        table = rest;
    }
    Sort::Name
}

// Whether both are one word but for the case of letters.
fn is_word(a: &[u8], b: &[u8]) -> bool
    ensures { result ≡ str_eq_ignore_ascii_case a.now b.now }
{
    a.eq_ignore_ascii_case(b)
}

/// The reserved word of a sort, in upper case, and no bytes where the sort is that of none.
#[tactic(auto, unfolding(crate::specs::Words::word_of))]
pub fn word_of(sort: Sort) -> &'static [u8]
    ensures { result.now ≡ spec.word_of sort }
{
    word_in(&RESERVED, sort)
}

// The word to which the table gives the sort, and no bytes where there is none.
fn word_in<'a>(mut table: &[(&'a [u8], Sort)], sort: Sort) -> &'a [u8]
    ensures { result.now ≡ spec.word_in (map (λ e. (e.0.now, e.1)) table.entry.now) sort }
{
    'table: while let [entry, rest @ ..] = table {
        if same_sort(entry.1, sort) {
            return entry.0;
        }
        table = rest;
    }
    b""
}
