//! The grammar of statements as a table: with what each part of it goes on.
//!
//! It is that of docs/LANGUAGE.md, "The whole grammar". Nothing is proved of it: what the walk finds by it is held to the
//! reader of statements.

use og_syntax::Sort;

/// A part of the grammar. `More..` is what may follow in a list, one part or none.
#[derive(Clone, Copy, PartialEq, Eq)]
pub enum Part {
    Statement,
    Column,
    MoreColumns,
    Kind,
    Tuple,
    MoreTuples,
    Literal,
    MoreLiterals,
    Assignment,
    MoreAssignments,
    NameOrQuery,
    AsOf,
    Query,
    MoreCores,
    Core,
    LiveCore,
    MoreLiveCores,
    Items,
    Item,
    MoreItems,
    ItemName,
    Table,
    TableAlias,
    MoreTables,
    Where,
    PlainWhere,
    Conditions,
    AfterTest,
    AfterNot,
    Exists,
    MoreExists,
    SubQuery,
    Condition,
    MoreConjunctions,
    Conjunction,
    MoreNegations,
    Negation,
    PlainTest,
    Comparison,
    Expression,
    Dotted,
    AfterPeriod,
}

/// A lexeme that has to stand next, or a part.
#[derive(Clone, Copy)]
pub enum Step {
    Lexeme(Sort),
    Part(Part),
}

/// A way on with a part: at a lexeme of that sort, or, at `Nothing`, at any.
pub type Row = (Part, Sort, &'static [Step]);

use Part as P;
use Sort as S;
use Step::{Lexeme as T, Part as N};

// The rows of a part stand together, the one at `Nothing` last; where there is none, the first is the shortest. There are
// several tables, since one of all rows is more than one of the two compilers takes.

// Statements.
const STATEMENTS: &[Row] = &[
    (
        P::Statement,
        S::Create,
        &[
            T(S::Create),
            T(S::Table),
            T(S::Name),
            T(S::LeftParen),
            N(P::Column),
            N(P::MoreColumns),
            T(S::RightParen),
            T(S::Semicolon),
        ],
    ),
    (
        P::Statement,
        S::Insert,
        &[
            T(S::Insert),
            T(S::Into),
            T(S::Name),
            T(S::Values),
            N(P::Tuple),
            N(P::MoreTuples),
            T(S::Semicolon),
        ],
    ),
    (
        P::Statement,
        S::Delete,
        &[
            T(S::Delete),
            T(S::From),
            T(S::Name),
            N(P::PlainWhere),
            T(S::Semicolon),
        ],
    ),
    (
        P::Statement,
        S::Update,
        &[
            T(S::Update),
            T(S::Name),
            T(S::Set),
            N(P::Assignment),
            N(P::MoreAssignments),
            N(P::PlainWhere),
            T(S::Semicolon),
        ],
    ),
    (
        P::Statement,
        S::Drop,
        &[T(S::Drop), T(S::Name), T(S::Semicolon)],
    ),
    (P::Statement, S::Tables, &[T(S::Tables), T(S::Semicolon)]),
    (
        P::Statement,
        S::Keep,
        &[
            T(S::Keep),
            T(S::Name),
            T(S::As),
            N(P::Query),
            T(S::Semicolon),
        ],
    ),
    (
        P::Statement,
        S::Live,
        &[
            T(S::Live),
            T(S::Name),
            T(S::As),
            N(P::LiveCore),
            N(P::MoreLiveCores),
            T(S::Semicolon),
        ],
    ),
    (
        P::Statement,
        S::Print,
        &[T(S::Print), N(P::NameOrQuery), N(P::AsOf), T(S::Semicolon)],
    ),
    (
        P::Statement,
        S::Valid,
        &[T(S::Valid), T(S::Name), N(P::AsOf), T(S::Semicolon)],
    ),
    (
        P::Statement,
        S::Explain,
        &[T(S::Explain), N(P::Query), T(S::Semicolon)],
    ),
    (
        P::Statement,
        S::Save,
        &[
            T(S::Save),
            T(S::Name),
            T(S::To),
            T(S::Quoted),
            T(S::Semicolon),
        ],
    ),
    (
        P::Statement,
        S::Open,
        &[
            T(S::Open),
            T(S::Name),
            T(S::From),
            T(S::Quoted),
            T(S::Semicolon),
        ],
    ),
    (
        P::Statement,
        S::Import,
        &[
            T(S::Import),
            T(S::Into),
            T(S::Name),
            T(S::From),
            T(S::Quoted),
            T(S::Semicolon),
        ],
    ),
];

// Their parts.
const PARTS: &[Row] = &[
    (P::Column, S::Nothing, &[T(S::Name), N(P::Kind)]),
    (
        P::MoreColumns,
        S::Comma,
        &[T(S::Comma), N(P::Column), N(P::MoreColumns)],
    ),
    (P::MoreColumns, S::Nothing, &[]),
    (P::Kind, S::Int, &[T(S::Int)]),
    (P::Kind, S::Text, &[T(S::Text)]),
    (P::Kind, S::Date, &[T(S::Date)]),
    (P::Kind, S::Period, &[T(S::Period)]),
    (
        P::Tuple,
        S::Nothing,
        &[
            T(S::LeftParen),
            N(P::Literal),
            N(P::MoreLiterals),
            T(S::RightParen),
        ],
    ),
    (
        P::MoreTuples,
        S::Comma,
        &[T(S::Comma), N(P::Tuple), N(P::MoreTuples)],
    ),
    (P::MoreTuples, S::Nothing, &[]),
    (P::Literal, S::Number, &[T(S::Number)]),
    (P::Literal, S::Quoted, &[T(S::Quoted)]),
    (P::Literal, S::Date, &[T(S::Date), T(S::Quoted)]),
    (P::Literal, S::Ongoing, &[T(S::Ongoing), T(S::Quoted)]),
    (P::Literal, S::Period, &[T(S::Period), T(S::Quoted)]),
    (
        P::MoreLiterals,
        S::Comma,
        &[T(S::Comma), N(P::Literal), N(P::MoreLiterals)],
    ),
    (P::MoreLiterals, S::Nothing, &[]),
    (
        P::Assignment,
        S::Nothing,
        &[T(S::Name), T(S::Equal), N(P::Expression)],
    ),
    (
        P::MoreAssignments,
        S::Comma,
        &[T(S::Comma), N(P::Assignment), N(P::MoreAssignments)],
    ),
    (P::MoreAssignments, S::Nothing, &[]),
    (P::NameOrQuery, S::Name, &[T(S::Name)]),
    (P::NameOrQuery, S::Select, &[N(P::Query)]),
    (
        P::AsOf,
        S::Nothing,
        &[T(S::As), T(S::Of), T(S::Date), T(S::Quoted)],
    ),
];

// Queries.
const QUERIES: &[Row] = &[
    (P::Query, S::Nothing, &[N(P::Core), N(P::MoreCores)]),
    (
        P::MoreCores,
        S::Union,
        &[T(S::Union), N(P::Core), N(P::MoreCores)],
    ),
    (
        P::MoreCores,
        S::Except,
        &[T(S::Except), N(P::Core), N(P::MoreCores)],
    ),
    (
        P::MoreCores,
        S::Intersect,
        &[T(S::Intersect), N(P::Core), N(P::MoreCores)],
    ),
    (P::MoreCores, S::Nothing, &[]),
    (
        P::Core,
        S::Nothing,
        &[
            T(S::Select),
            N(P::Items),
            T(S::From),
            N(P::Table),
            N(P::MoreTables),
            N(P::Where),
        ],
    ),
    (
        P::LiveCore,
        S::Nothing,
        &[
            T(S::Select),
            N(P::Items),
            T(S::From),
            N(P::Table),
            N(P::MoreTables),
            N(P::PlainWhere),
        ],
    ),
    (
        P::MoreLiveCores,
        S::Union,
        &[T(S::Union), N(P::LiveCore), N(P::MoreLiveCores)],
    ),
    (P::MoreLiveCores, S::Nothing, &[]),
    (P::Items, S::Star, &[T(S::Star)]),
    (P::Items, S::Nothing, &[N(P::Item), N(P::MoreItems)]),
    (P::Item, S::Nothing, &[N(P::Expression), N(P::ItemName)]),
    (
        P::MoreItems,
        S::Comma,
        &[T(S::Comma), N(P::Item), N(P::MoreItems)],
    ),
    (P::MoreItems, S::Nothing, &[]),
    (P::ItemName, S::As, &[T(S::As), T(S::Name)]),
    (P::ItemName, S::Nothing, &[]),
    (P::Table, S::Nothing, &[T(S::Name), N(P::TableAlias)]),
    (P::TableAlias, S::Name, &[T(S::Name)]),
    (P::TableAlias, S::As, &[T(S::As), T(S::Name)]),
    (P::TableAlias, S::Nothing, &[]),
    (
        P::MoreTables,
        S::Comma,
        &[T(S::Comma), N(P::Table), N(P::MoreTables)],
    ),
    (
        P::MoreTables,
        S::Join,
        &[
            T(S::Join),
            N(P::Table),
            T(S::On),
            N(P::Condition),
            N(P::MoreTables),
        ],
    ),
    (P::MoreTables, S::Nothing, &[]),
];

// Conditions.
const CONDITIONS: &[Row] = &[
    (P::Where, S::Where, &[T(S::Where), N(P::Conditions)]),
    (P::Where, S::Nothing, &[]),
    (P::PlainWhere, S::Where, &[T(S::Where), N(P::Condition)]),
    (P::PlainWhere, S::Nothing, &[]),
    (P::Conditions, S::Not, &[T(S::Not), N(P::AfterNot)]),
    (P::Conditions, S::Exists, &[N(P::Exists), N(P::MoreExists)]),
    (
        P::Conditions,
        S::Nothing,
        &[N(P::PlainTest), N(P::AfterTest)],
    ),
    (P::AfterNot, S::Exists, &[N(P::Exists), N(P::MoreExists)]),
    (P::AfterNot, S::Nothing, &[N(P::Negation), N(P::AfterTest)]),
    (P::AfterTest, S::And, &[T(S::And), N(P::Conditions)]),
    (
        P::AfterTest,
        S::Or,
        &[T(S::Or), N(P::Conjunction), N(P::MoreConjunctions)],
    ),
    (P::AfterTest, S::Nothing, &[]),
    (
        P::Exists,
        S::Not,
        &[
            T(S::Not),
            T(S::Exists),
            T(S::LeftParen),
            N(P::SubQuery),
            T(S::RightParen),
        ],
    ),
    (
        P::MoreExists,
        S::And,
        &[T(S::And), N(P::Exists), N(P::MoreExists)],
    ),
    (
        P::Exists,
        S::Exists,
        &[
            T(S::Exists),
            T(S::LeftParen),
            N(P::SubQuery),
            T(S::RightParen),
        ],
    ),
    (P::MoreExists, S::Nothing, &[]),
    (
        P::SubQuery,
        S::Nothing,
        &[
            T(S::Select),
            T(S::Star),
            T(S::From),
            N(P::Table),
            N(P::PlainWhere),
        ],
    ),
    (
        P::Condition,
        S::Nothing,
        &[N(P::Conjunction), N(P::MoreConjunctions)],
    ),
    (
        P::MoreConjunctions,
        S::Or,
        &[T(S::Or), N(P::Conjunction), N(P::MoreConjunctions)],
    ),
    (P::MoreConjunctions, S::Nothing, &[]),
    (
        P::Conjunction,
        S::Nothing,
        &[N(P::Negation), N(P::MoreNegations)],
    ),
    (
        P::MoreNegations,
        S::And,
        &[T(S::And), N(P::Negation), N(P::MoreNegations)],
    ),
    (P::MoreNegations, S::Nothing, &[]),
    (P::Negation, S::Not, &[T(S::Not), N(P::Negation)]),
    (P::Negation, S::Nothing, &[N(P::PlainTest)]),
    (
        P::PlainTest,
        S::LeftParen,
        &[T(S::LeftParen), N(P::Condition), T(S::RightParen)],
    ),
    (
        P::PlainTest,
        S::Empty,
        &[
            T(S::Empty),
            T(S::LeftParen),
            N(P::Expression),
            T(S::RightParen),
        ],
    ),
    (
        P::PlainTest,
        S::Contains,
        &[
            T(S::Contains),
            T(S::LeftParen),
            N(P::Expression),
            T(S::Comma),
            N(P::Expression),
            T(S::RightParen),
        ],
    ),
    (
        P::PlainTest,
        S::Nothing,
        &[N(P::Expression), N(P::Comparison)],
    ),
    (P::Comparison, S::Equal, &[T(S::Equal), N(P::Expression)]),
    (
        P::Comparison,
        S::NotEqual,
        &[T(S::NotEqual), N(P::Expression)],
    ),
    (P::Comparison, S::Less, &[T(S::Less), N(P::Expression)]),
    (
        P::Comparison,
        S::LessEqual,
        &[T(S::LessEqual), N(P::Expression)],
    ),
    (
        P::Comparison,
        S::Greater,
        &[T(S::Greater), N(P::Expression)],
    ),
    (
        P::Comparison,
        S::GreaterEqual,
        &[T(S::GreaterEqual), N(P::Expression)],
    ),
    (P::Comparison, S::Before, &[T(S::Before), N(P::Expression)]),
    (P::Comparison, S::Meets, &[T(S::Meets), N(P::Expression)]),
    (
        P::Comparison,
        S::Overlaps,
        &[T(S::Overlaps), N(P::Expression)],
    ),
    (P::Comparison, S::Starts, &[T(S::Starts), N(P::Expression)]),
    (
        P::Comparison,
        S::Finishes,
        &[T(S::Finishes), N(P::Expression)],
    ),
    (P::Comparison, S::During, &[T(S::During), N(P::Expression)]),
    (P::Comparison, S::Equals, &[T(S::Equals), N(P::Expression)]),
];

// Expressions.
const EXPRESSIONS: &[Row] = &[
    (P::Expression, S::Name, &[T(S::Name), N(P::Dotted)]),
    (P::Expression, S::Number, &[T(S::Number)]),
    (P::Expression, S::Quoted, &[T(S::Quoted)]),
    (P::Expression, S::Date, &[T(S::Date), T(S::Quoted)]),
    (P::Expression, S::Ongoing, &[T(S::Ongoing), T(S::Quoted)]),
    (P::Expression, S::Period, &[T(S::Period), N(P::AfterPeriod)]),
    (
        P::Expression,
        S::Start,
        &[
            T(S::Start),
            T(S::LeftParen),
            N(P::Expression),
            T(S::RightParen),
        ],
    ),
    (
        P::Expression,
        S::End,
        &[
            T(S::End),
            T(S::LeftParen),
            N(P::Expression),
            T(S::RightParen),
        ],
    ),
    (
        P::Expression,
        S::Least,
        &[
            T(S::Least),
            T(S::LeftParen),
            N(P::Expression),
            T(S::Comma),
            N(P::Expression),
            T(S::RightParen),
        ],
    ),
    (
        P::Expression,
        S::Greatest,
        &[
            T(S::Greatest),
            T(S::LeftParen),
            N(P::Expression),
            T(S::Comma),
            N(P::Expression),
            T(S::RightParen),
        ],
    ),
    (
        P::Expression,
        S::Common,
        &[
            T(S::Common),
            T(S::LeftParen),
            N(P::Expression),
            T(S::Comma),
            N(P::Expression),
            T(S::RightParen),
        ],
    ),
    (P::Dotted, S::Dot, &[T(S::Dot), T(S::Name)]),
    (P::Dotted, S::Nothing, &[]),
    (P::AfterPeriod, S::Quoted, &[T(S::Quoted)]),
    (
        P::AfterPeriod,
        S::LeftParen,
        &[
            T(S::LeftParen),
            N(P::Expression),
            T(S::Comma),
            N(P::Expression),
            T(S::RightParen),
        ],
    ),
];

/// A table in which all rows of the part stand.
pub fn rows_with(part: Part) -> &'static [Row] {
    match part {
        Part::Statement => STATEMENTS,
        Part::Column
        | Part::MoreColumns
        | Part::Kind
        | Part::Tuple
        | Part::MoreTuples
        | Part::Literal
        | Part::MoreLiterals
        | Part::Assignment
        | Part::MoreAssignments
        | Part::NameOrQuery
        | Part::AsOf => PARTS,
        Part::Query
        | Part::MoreCores
        | Part::Core
        | Part::LiveCore
        | Part::MoreLiveCores
        | Part::Items
        | Part::Item
        | Part::MoreItems
        | Part::ItemName
        | Part::Table
        | Part::TableAlias
        | Part::MoreTables => QUERIES,
        Part::Where
        | Part::PlainWhere
        | Part::Conditions
        | Part::AfterNot
        | Part::AfterTest
        | Part::Exists
        | Part::MoreExists
        | Part::SubQuery
        | Part::Condition
        | Part::MoreConjunctions
        | Part::Conjunction
        | Part::MoreNegations
        | Part::Negation
        | Part::PlainTest
        | Part::Comparison => CONDITIONS,
        Part::Expression | Part::Dotted | Part::AfterPeriod => EXPRESSIONS,
    }
}

/// The way on with the part at a lexeme of that sort.
pub fn way_on(part: Part, sort: Sort) -> Option<&'static [Step]> {
    'rows: for row in rows_with(part) {
        if row.0 == part && (row.1 == sort || row.1 == Sort::Nothing) {
            return Some(row.2);
        }
    }
    None
}

/// The way to end the part with the fewest lexemes.
pub fn shortest(part: Part) -> &'static [Step] {
    if let Some(way) = way_on(part, Sort::Nothing) {
        return way;
    }
    'rows: for row in rows_with(part) {
        if row.0 == part {
            return row.2;
        }
    }
    &[]
}
