//! The lexemes of a script: its tokens, with each reserved word a sort of its own.

/// What a lexeme is: a reserved word, a name, a number, a text or a symbol.
#[derive(Clone, Copy, PartialEq, Eq)]
pub enum Sort {
    And,
    As,
    Before,
    Common,
    Contains,
    Create,
    Date,
    Delete,
    Drop,
    During,
    Empty,
    End,
    Equals,
    Except,
    Exists,
    Explain,
    Finishes,
    From,
    Greatest,
    Import,
    Insert,
    Int,
    Intersect,
    Into,
    Join,
    Keep,
    Least,
    Live,
    Meets,
    Not,
    Of,
    On,
    Ongoing,
    Open,
    Or,
    Overlaps,
    Period,
    Print,
    Save,
    Select,
    Set,
    Start,
    Starts,
    Table,
    Tables,
    Text,
    To,
    Union,
    Update,
    Valid,
    Values,
    Where,
    /// A word that is not reserved.
    Name,
    /// A number.
    Number,
    /// A text between quotes.
    Quoted,
    /// `(`
    LeftParen,
    /// `)`
    RightParen,
    /// `,`
    Comma,
    /// `;`
    Semicolon,
    /// `.`
    Dot,
    /// `*`
    Star,
    /// `=`
    Equal,
    /// `<>`
    NotEqual,
    /// `<=`
    LessEqual,
    /// `>=`
    GreaterEqual,
    /// `<`
    Less,
    /// `>`
    Greater,
    /// No lexeme: what comes after the last one.
    Nothing,
}

/// A token of a script, from the byte `start` to before the byte `end`. A number has its value.
#[derive(Clone, Copy)]
pub struct Lexeme {
    pub sort: Sort,
    pub number: i64,
    pub start: usize,
    pub end: usize,
}
