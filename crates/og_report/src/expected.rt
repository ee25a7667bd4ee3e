//! What stands where no statement goes on, and what could stand there, in words.

use og_base::NoMemory;
use og_syntax::{Sort, word_of};
use std::alloc::Global;
use std::str;

// The most things of which it is told that they could stand there.
const MAX_TOLD: usize = 6;

// Sorts that are told by one name where all of them could stand there.
#[derive(Clone, Copy, PartialEq, Eq)]
enum Class {
    Statement,
    Condition,
    Expression,
    Literal,
    Comparison,
}

// All classes. One that holds another stands before it.
const CLASSES: &[Class] = &[
    Class::Statement,
    Class::Condition,
    Class::Expression,
    Class::Literal,
    Class::Comparison,
];

impl Class {
    fn sorts(self) -> &'static [Sort] {
        match self {
            Class::Statement => STATEMENT,
            Class::Condition => CONDITION,
            Class::Expression => EXPRESSION,
            Class::Literal => LITERAL,
            Class::Comparison => COMPARISON,
        }
    }

    fn words(self) -> &'static str {
        match self {
            Class::Statement => "a statement",
            Class::Condition => "a condition",
            Class::Expression => "an expression",
            Class::Literal => "a literal",
            Class::Comparison => "a comparison",
        }
    }
}

// One of the things that could stand there.
#[derive(Clone, Copy, PartialEq, Eq)]
enum Term {
    Lexeme(Sort),
    Class(Class),
}

impl Term {
    fn words(self) -> &'static str {
        match self {
            Term::Lexeme(sort) => words_of(sort),
            Term::Class(class) => class.words(),
        }
    }
}

const STATEMENT: &[Sort] = &[
    Sort::Create,
    Sort::Insert,
    Sort::Delete,
    Sort::Update,
    Sort::Drop,
    Sort::Tables,
    Sort::Keep,
    Sort::Live,
    Sort::Print,
    Sort::Valid,
    Sort::Explain,
    Sort::Save,
    Sort::Open,
    Sort::Import,
];

const CONDITION: &[Sort] = &[
    Sort::Not,
    Sort::LeftParen,
    Sort::Empty,
    Sort::Contains,
    Sort::Name,
    Sort::Number,
    Sort::Quoted,
    Sort::Date,
    Sort::Ongoing,
    Sort::Period,
    Sort::Start,
    Sort::End,
    Sort::Least,
    Sort::Greatest,
    Sort::Common,
];

const EXPRESSION: &[Sort] = &[
    Sort::Name,
    Sort::Number,
    Sort::Quoted,
    Sort::Date,
    Sort::Ongoing,
    Sort::Period,
    Sort::Start,
    Sort::End,
    Sort::Least,
    Sort::Greatest,
    Sort::Common,
];

const LITERAL: &[Sort] = &[
    Sort::Number,
    Sort::Quoted,
    Sort::Date,
    Sort::Ongoing,
    Sort::Period,
];

const COMPARISON: &[Sort] = &[
    Sort::Equal,
    Sort::NotEqual,
    Sort::Less,
    Sort::LessEqual,
    Sort::Greater,
    Sort::GreaterEqual,
    Sort::Before,
    Sort::Meets,
    Sort::Overlaps,
    Sort::Starts,
    Sort::Finishes,
    Sort::During,
    Sort::Equals,
];

/// The words of a syntax fault: the sort of the lexeme that was found, or `Nothing` at the end, and the sorts that could
/// stand there.
pub fn syntax_words(alloc: Global, found: Sort, sorts: &[Sort]) -> Result<String, NoMemory> {
    let found = words_of(found);
    let terms = terms_of(alloc, sorts)?;
    if terms.is_empty() {
        return Ok(format!(in alloc; "unexpected {found}")?);
    }
    let mut words = format!(in alloc; "found {found}, expected ")?;
    if terms.len() > 1 {
        words.push_str("one of ")?;
    }
    put_terms(&mut words, terms.as_slice())?;
    Ok(words)
}

// Puts the terms with commas between them.
fn put_terms(words: &mut String, terms: &[Term]) -> Result<(), NoMemory> {
    'terms: for i in 0..terms.len() {
        if i > 0 {
            words.push_str(", ")?;
        }
        if i == MAX_TOLD {
            words.push_str("..")?;
            return Ok(());
        }
        words.push_str(terms[i].words())?;
    }
    Ok(())
}

// What could stand there, each once, `;` first.
fn terms_of(alloc: Global, sorts: &[Sort]) -> Result<Vec<Term>, NoMemory> {
    let mut terms = Vec::new(alloc);
    if sorts.contains(&Sort::Semicolon) {
        terms.push(Term::Lexeme(Sort::Semicolon))?;
    }
    'sorts: for sort in sorts {
        add_term(&mut terms, term_of(sorts, *sort))?;
    }
    Ok(terms)
}

// Adds the term, where it is not there.
fn add_term(terms: &mut Vec<Term>, term: Term) -> Result<(), NoMemory> {
    if terms.as_slice().contains(&term) {
        return Ok(());
    }
    Ok(terms.push(term)?)
}

// The first class of the sort of which all sorts are there, or the sort alone.
fn term_of(sorts: &[Sort], sort: Sort) -> Term {
    'classes: for class in CLASSES {
        let all = class.sorts();
        if all.contains(&sort) && all.iter().all(|each| sorts.contains(each)) {
            return Term::Class(*class);
        }
    }
    Term::Lexeme(sort)
}

// A lexeme of that sort in words.
fn words_of(sort: Sort) -> &'static str {
    match sort {
        Sort::Name => "a name",
        Sort::Number => "a number",
        Sort::Quoted => "a text",
        Sort::LeftParen => "(",
        Sort::RightParen => ")",
        Sort::Comma => "a comma",
        Sort::Semicolon => ";",
        Sort::Dot => "a dot",
        Sort::Star => "*",
        Sort::Equal => "=",
        Sort::NotEqual => "<>",
        Sort::LessEqual => "<=",
        Sort::GreaterEqual => ">=",
        Sort::Less => "<",
        Sort::Greater => ">",
        Sort::Nothing => "the end",
        _ => str::from_utf8(word_of(sort)).unwrap_or(""),
    }
}
