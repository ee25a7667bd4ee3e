//! Which lexeme of its statement a fault is about, and its words.
ghost use Rattle.std.specs.Prelude.{◌≡◌, ◌-◌, ℕ, List, IfOk, length, option_copied};
ghost use Rattle.og_faults.specs.declared.fault.Fault.TheVariants as faults;
ghost use Rattle.og_locate.specs.Named.{lexeme_at};
ghost use Rattle.og_report.specs.Marks as marks;
ghost use Rattle.og_report.specs.Marks.{IsAbout, IsNamePlace, place_of};

use crate::checks::{check_words, wrong_name};
use crate::contents::file_words;
use crate::expected::syntax_words;
use crate::finding::Mark;
use crate::scene::Scene;
use crate::shown::brief;
use og_base::NoMemory;
use og_check::CheckRefusal;
use og_faults::Fault;
use og_locate::{deep_at, first_bad, first_named, spot_of};
use og_parse::MAX_DEPTH;
use og_syntax::{Lexeme, Sort, bytes_of};
use std::alloc::Global;

/// What a fault is about.
#[derive(Drop)]
pub struct About {
    /// The place of the lexeme among those of the statement, from 0; their number where it is behind the last one.
    pub index: usize,
    pub words: String,
}

/// Which lexeme of its statement the fault is about, and its words. Refused only where memory runs out.
pub fn about_of(
    alloc: Global,
    scene: &Scene<'_>,
    piece: &[Lexeme],
    fault: &Fault,
) -> Result<About, NoMemory>
    ensures { IfOk result (λ about. IsAbout scene.now.script.now piece.now fault.now about.index) }
{
    match fault {
        Fault::Syntax { .. } => syntax_about(alloc, scene.script, piece),
        Fault::TooDeep { .. } => deep_about(alloc, piece),
        Fault::Literal { .. } => literal_about(alloc, scene.script, piece),
        Fault::Check { refusal, .. } => check_about(alloc, scene.script, piece, refusal),
        _ => {
            let words = file_words(alloc, scene, piece, fault)?;
            Ok(About { index: 0, words })
        }
    }
}

// Where the lexemes stop to be a front of a statement, and what could stand there.
fn syntax_about(alloc: Global, script: &[u8], piece: &[Lexeme]) -> Result<About, NoMemory>
    ensures { IfOk result (λ about. (n : ℕ) → IsAbout script.now piece.now (faults.Syntax n) about.index) }
{
    let Some(spot) = spot_of(alloc, script, piece)? else {
        let words = String::from_str(alloc, "this is no statement")?;
        return Ok(About { index: 0, words });
    };
    let index = spot.index;
    let words = syntax_words(alloc, sort_of(piece, index), spot.words.as_slice())?;
    Ok(About { index, words })
}

// The sort of the lexeme at the place.
fn sort_of(piece: &[Lexeme], index: usize) -> Sort {
    match piece.get(index) {
        Some(lexeme) => lexeme.sort,
        None => Sort::Nothing,
    }
}

// The lexeme with which the statement is too deep.
fn deep_about(alloc: Global, piece: &[Lexeme]) -> Result<About, NoMemory>
    ensures { IfOk result (λ about. (n : ℕ) (script : List ℕ) → IsAbout script piece.now (faults.TooDeep n) about.index) }
{
    let index = deep_at(piece).unwrap_or(0);
    let what = match sort_of(piece, index) {
        Sort::LeftParen => "parentheses are open",
        Sort::Not => "words NOT",
        _ => "words UNION, EXCEPT and INTERSECT",
    };
    let words = format!(in alloc; "more than {MAX_DEPTH} {what}")?;
    Ok(About { index, words })
}

// The first literal that is no text of its kind.
fn literal_about(alloc: Global, script: &[u8], piece: &[Lexeme]) -> Result<About, NoMemory>
    ensures { IfOk result (λ about. (n : ℕ) → IsAbout script.now piece.now (faults.Literal n) about.index) }
{
    let index = first_bad(alloc, script, piece)?.unwrap_or(0);
    let words = literal_words(alloc, script, piece, index)?;
    Ok(About { index, words })
}

// The words of a literal that is no text of its kind.
fn literal_words(
    alloc: Global,
    script: &[u8],
    piece: &[Lexeme],
    index: usize,
) -> Result<String, NoMemory> {
    let Some(lexeme) = piece.get(index) else {
        return Ok(String::new(alloc));
    };
    let spelled = bytes_of(script, *lexeme);
    let inner = spelled.strip_prefix(b"'".as_slice()).unwrap_or(spelled);
    let text = brief(alloc, inner.strip_suffix(b"'".as_slice()).unwrap_or(inner))?;
    let earlier = sort_of(piece, index.wrapping_sub(2));
    let kind = match sort_of(piece, index.wrapping_sub(1)) {
        Sort::Date if earlier == Sort::Of => "day to ask as of",
        Sort::Date => "DATE",
        Sort::Ongoing => "ONGOING",
        _ => "PERIOD",
    };
    Ok(format!(in alloc; "'{}' is no {kind}", text.as_str())?)
}

// The name that the checks found wrong, or the statement.
fn check_about(
    alloc: Global,
    script: &[u8],
    piece: &[Lexeme],
    refusal: &CheckRefusal,
) -> Result<About, NoMemory>
    ensures { IfOk result (λ about. IsNamePlace script.now piece.now (marks.wrong_name refusal.now) about.index) }
{
    let words = check_words(alloc, refusal)?;
    let index = name_place(script, piece, wrong_name(refusal));
    Ok(About { index, words })
}

// The place of the first lexeme that is the name, if there is one.
fn name_place(script: &[u8], piece: &[Lexeme], name: Option<&[u8]>) -> usize
    ensures { IsNamePlace script.now piece.now (option_copied name.entry) result }
{
    match name {
        Some(name) => first_named(script, piece, name).unwrap_or(0),
        None => 0,
    }
}

/// The mark of the lexeme at the place, or of no byte behind the last one.
pub fn mark_at(piece: &[Lexeme], index: usize) -> Mark
    ensures { result.start ≡ place_of piece.now index }
{
    if index < piece.len() {
        let lexeme = piece[index];
        return Mark {
            start: lexeme.start,
            end: lexeme.end,
        };
    }
    let end = end_of(piece);
    Mark { start: end, end }
}

// Where the last lexeme ends.
fn end_of(piece: &[Lexeme]) -> usize
    ensures { result ≡ (lexeme_at piece.now (length piece.now - 1)).end }
{
    match piece.last() {
        Some(lexeme) => lexeme.end,
        None => 0,
    }
}
