//! The lexeme at which a statement stops to be one.
ghost use Rattle.std.specs.Prelude.{◌≡◌, ◌≤◌, true, IfOk, IfSome, OnOk, length, take};
ghost use Rattle.std.specs.List.{All};
ghost use Rattle.og_locate.specs.Fronts.{GoesOn, IsFront};

use crate::walk::Ahead;
use og_base::NoMemory;
use og_parse::is_statement;
use og_syntax::{Lexeme, Sort, same_sort};
use std::alloc::Global;

// The most lexemes of a statement of which it is told what can follow: each sort that can is tried by reading it all.
const MAX_TRIED: usize = 100_000;

/// How far lexemes are a front of some statement.
#[derive(Drop)]
pub struct Spot {
    /// The number of the lexemes of the front.
    pub index: usize,
    /// The sorts of lexemes that go on with it, each once, those of the innermost part of the grammar first.
    pub words: Vec<Sort>,
}

/// How far the lexemes of a statement are a front of some statement, and what goes on with it. None where the walk over
/// the grammar and the reader of statements do not agree. Of more than 100,000 lexemes the front alone is told. Refused
/// only where memory runs out.
pub fn spot_of(alloc: Global, script: &[u8], piece: &[Lexeme]) -> Result<Option<Spot>, NoMemory>
    ensures within { IfOk result (λ spot. IfSome spot (λ s. s.index ≤ length piece.now)) }
    ensures front { IfOk result (λ spot. IfSome spot (λ s. IsFront script.now (take s.index piece.now))) }
    ensures words { IfOk result (λ spot. IfSome spot (λ s. All (GoesOn script.now (take s.index piece.now)) s.words.items)) }
{
    let (index, ahead) = walk(alloc, piece)?;
    let ending = ending_of(alloc, script, &ahead)?;
    let (front, _) = piece.split_at(index);
    if !is_front(alloc, script, front, ending.as_slice())? {
        return Ok(None);
    }
    let words = sure_words(alloc, script, front, &ahead)?;
    Ok(Some(Spot { index, words }))
}

// The sorts of the lexemes that can follow, each of which does go on with a statement.
fn sure_words(
    alloc: Global,
    script: &[u8],
    front: &[Lexeme],
    ahead: &Ahead,
) -> Result<Vec<Sort>, NoMemory>
    ensures { IfOk result (λ words. All (GoesOn script.now front.now) words.items) }
{
    let words = ahead.words(alloc)?;
    let mut sure = Vec::new(alloc);
    'words: for word in words.as_slice() {
        if front.len() > MAX_TRIED {
            break;
        }
        add_sure(alloc, script, front, ahead, *word, &mut sure)?;
    }
    Ok(sure)
}

// Adds the word, if it goes on with the front.
fn add_sure(
    alloc: Global,
    script: &[u8],
    front: &[Lexeme],
    ahead: &Ahead,
    word: Sort,
    sure: &mut Vec<Sort>,
) -> Result<(), NoMemory>
    ensures { OnOk result (All (GoesOn script.now front.now) sure.old.items → All (GoesOn script.now front.now) sure.new.items) }
{
    if !goes_on(alloc, script, front, ahead, word)? {
        return Ok(());
    }
    Ok(sure.push(word)?)
}

// Whether a lexeme of the sort goes on with the front of a statement.
fn goes_on(
    alloc: Global,
    script: &[u8],
    front: &[Lexeme],
    ahead: &Ahead,
    word: Sort,
) -> Result<bool, NoMemory>
    ensures { IfOk result (λ b. b ≡ true → GoesOn script.now front.now word) }
{
    let lexeme = stand_in(script, word);
    let mut further = ahead.copy(alloc)?;
    if !further.pass(&[lexeme])? {
        return Ok(false);
    }
    let ending = ending_of(alloc, script, &further)?;
    let mut longer = Vec::new(alloc);
    longer.extend_from_slice(front)?;
    longer.push(lexeme)?;
    is_front(alloc, script, longer.as_slice(), ending.as_slice())
}

// How many of the lexemes the walk goes past, and what could follow then.
fn walk(alloc: Global, piece: &[Lexeme]) -> Result<(usize, Ahead), NoMemory>
    ensures within { IfOk result (λ r. r.0 ≤ length piece.now) }
{
    let mut ahead = Ahead::of_statement(alloc)?;
    'lexemes: for index in 0..piece.len() {
        let (_, rest) = piece.split_at(index);
        if !ahead.pass(rest)? {
            return Ok((index, ahead));
        }
    }
    Ok((piece.len(), ahead))
}

// Whether the lexemes with these behind them are a statement of the script with a name and a text behind it.
fn is_front(
    alloc: Global,
    script: &[u8],
    front: &[Lexeme],
    ending: &[Lexeme],
) -> Result<bool, NoMemory>
    ensures { IfOk result (λ b. b ≡ true → IsFront script.now front.now) }
{
    let mut bytes = Vec::new(alloc);
    bytes.extend_from_slice(script)?;
    bytes.extend_from_slice(b"a''")?;
    let mut lexemes = Vec::new(alloc);
    lexemes.extend_from_slice(front)?;
    lexemes.extend_from_slice(ending)?;
    is_statement(alloc, bytes.as_slice(), lexemes.as_slice())
}

// The lexemes that make a statement of what was passed, in the bytes behind the script.
fn ending_of(alloc: Global, script: &[u8], ahead: &Ahead) -> Result<Vec<Lexeme>, NoMemory> {
    let mut lexemes = Vec::new(alloc);
    let sorts = ahead.ending(alloc)?;
    'sorts: for sort in sorts.as_slice() {
        lexemes.push(stand_in(script, *sort))?;
    }
    Ok(lexemes)
}

// A lexeme of that sort, in the name and the text behind the script.
fn stand_in(script: &[u8], sort: Sort) -> Lexeme
    ensures { result.sort ≡ sort }
{
    let at = script.len();
    if same_sort(sort, Sort::Quoted) {
        return Lexeme {
            sort,
            number: 0,
            start: at + 1,
            end: at + 3,
        };
    }
    Lexeme {
        sort,
        number: 0,
        start: at,
        end: at + 1,
    }
}
