//! What stands on the lines of a file of cases: a sign and a text, words, a status, the name of a file.
use crate::piece::{append, append_turns};
use crate::refusal::Refusal;
use og_value::{Text, TextRefusal};
use std::alloc::Global;

/// What the sign of a piece says of it.
#[derive(Clone, Copy)]
pub enum Sign {
    /// A line of the script.
    Line,
    /// A part of the script.
    Part,
    /// A line of the output.
    Output,
    /// A line of standard error.
    Error,
    /// A line of the script as it is printed.
    Printed,
    /// A line of a file.
    FileLine,
    /// A part of a file.
    FilePart,
}

/// A piece of a script, of an output, of standard error, of a printed script or of a file. It stands once where
/// no number of turns is said.
#[derive(Clone, Copy)]
pub struct Piece<'a> {
    pub sign: Sign,
    turns: Option<usize>,
    text: &'a str,
}

impl Piece<'_> {
    /// The piece of the line that begins with the head.
    pub fn of<'a>(head: &'a str, text: &'a str) -> Result<Piece<'a>, Refusal> {
        match head.parse::<usize>() {
            Ok(turns) => {
                let (sign, text) = text.split_once(' ').unwrap_or((text, ""));
                Ok(Piece {
                    sign: sign_of(sign)?,
                    turns: Some(turns),
                    text,
                })
            }
            Err(_) => Ok(Piece {
                sign: sign_of(head)?,
                turns: None,
                text,
            }),
        }
    }
}

fn sign_of(text: &str) -> Result<Sign, Refusal> {
    match text {
        "|" => Ok(Sign::Line),
        "+" => Ok(Sign::Part),
        ">" => Ok(Sign::Output),
        "!" => Ok(Sign::Error),
        "=" => Ok(Sign::Printed),
        "<" => Ok(Sign::FileLine),
        "-" => Ok(Sign::FilePart),
        _ => Err(Refusal::NotALine),
    }
}

/// Appends the bytes of a piece.
pub fn add_piece(alloc: Global, piece: &Piece<'_>, out: &mut Vec<u8>) -> Result<(), Refusal> {
    let end = match piece.sign {
        Sign::Part | Sign::FilePart => b"".as_slice(),
        _ => b"\n".as_slice(),
    };
    match piece.turns {
        Some(turns) => append_turns(alloc, piece.text, end, turns, out),
        None => {
            append(piece.text, out)?;
            out.extend_from_slice(end)?;
            Ok(())
        }
    }
}

/// The words of a command line, with one blank between two.
pub fn words_of(alloc: Global, text: &str) -> Result<Vec<String>, Refusal> {
    let mut words = Vec::new(alloc);
    if text.is_empty() {
        return Ok(words);
    }
    for word in text.split(' ') {
        let mut bytes = Vec::new(alloc);
        append(word, &mut bytes)?;
        let Ok(word) = String::from_utf8(bytes) else {
            return Err(Refusal::NotALine);
        };
        words.push(word)?;
    }
    Ok(words)
}

/// The exit status that the text is.
pub fn status_of(text: &str) -> Result<u8, Refusal> {
    match text.parse::<u8>() {
        Ok(status) => Ok(status),
        Err(_) => Err(Refusal::NotALine),
    }
}

/// The name of a file that the text is.
pub fn file_name_of(alloc: Global, text: &str) -> Result<Text, Refusal> {
    let mut bytes = Vec::new(alloc);
    append(text, &mut bytes)?;
    match Text::of(alloc, bytes.as_slice()) {
        Ok(name) => Ok(name),
        Err(TextRefusal::NoMemory) => Err(Refusal::NoMemory),
        Err(TextRefusal::NotText) => Err(Refusal::NotALine),
    }
}
