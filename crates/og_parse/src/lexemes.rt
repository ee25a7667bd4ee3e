//! The lexemes of a script.
ghost use Rattle.std.specs.Prelude.{◌≡◌, ◌≤◌, length, OnOk};
ghost use Rattle.og_parse.specs.Pieces.{piece_of};
ghost use Rattle.og_parse.specs.Tokens as spec;

use og_base::NoMemory;
use og_lex::{Symbol, Token, TokenKind};
use og_syntax::{Lexeme, Sort, bytes_of, same_sort, sort_of_word};

/// Makes the list that of the lexemes of the first piece of the tokens, which ends with its semicolon or with
/// the last token. Refused only where memory runs out.
pub fn next_piece(script: &[u8], tokens: &[Token], piece: &mut Vec<Lexeme>) -> Result<(), NoMemory>
    ensures piece { OnOk result (piece.new.items ≡ piece_of (spec.lexemes_of script.now tokens.now)) }
    ensures within { OnOk result (length piece.new.items ≤ length tokens.now) }
{
    piece.clear();
    'tokens: for token in tokens {
        let lexeme = lexeme_of(script, *token);
        piece.push(lexeme)?;
        if same_sort(lexeme.sort, Sort::Semicolon) {
            return Ok(());
        }
    }
    Ok(())
}

// The lexeme of the token.
#[tactic(auto, unfolding(crate::specs::Tokens::lexeme_of))]
fn lexeme_of(script: &[u8], token: Token) -> Lexeme
    ensures { result ≡ spec.lexeme_of script.now token }
{
    match token.kind {
        TokenKind::Word => {
            let word = bytes_of(script, at_token(token, Sort::Name, 0));
            at_token(token, sort_of_word(word), 0)
        }
        TokenKind::Number(number) => at_token(token, Sort::Number, number),
        TokenKind::Text => at_token(token, Sort::Quoted, 0),
        TokenKind::Sym(symbol) => at_token(token, sort_of_symbol(symbol), 0),
    }
}

// A lexeme at the place of the token.
fn at_token(token: Token, sort: Sort, number: i64) -> Lexeme
    ensures { result ≡ spec.at_token token sort number }
{
    Lexeme {
        sort,
        number,
        start: token.start,
        end: token.end,
    }
}

// The sort of the symbol.
fn sort_of_symbol(symbol: Symbol) -> Sort
    ensures { result ≡ spec.sort_of_symbol symbol }
{
    match symbol {
        Symbol::LeftParen => Sort::LeftParen,
        Symbol::RightParen => Sort::RightParen,
        Symbol::Comma => Sort::Comma,
        Symbol::Semicolon => Sort::Semicolon,
        Symbol::Dot => Sort::Dot,
        Symbol::Star => Sort::Star,
        Symbol::Equal => Sort::Equal,
        Symbol::NotEqual => Sort::NotEqual,
        Symbol::LessEqual => Sort::LessEqual,
        Symbol::GreaterEqual => Sort::GreaterEqual,
        Symbol::Less => Sort::Less,
        Symbol::Greater => Sort::Greater,
    }
}
