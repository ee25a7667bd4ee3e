//! The bytes that the texts of a file's lines stand for.
use crate::reckoning::Reckoning;
use crate::refusal::Refusal;
use og_base::{ExtDay, write_day};
use std::alloc::Global;

// The number of the day 2000-01-01, from which the days of a turn are counted.
const FIRST_DAY: i64 = 10_957;

// What was read of an escape so far.
#[derive(Clone, Copy)]
enum Escape {
    None,
    Begun,
    Hex,
    HalfHex(u8),
}

/// Appends the bytes that a text with escapes stands for.
pub fn append(text: &str, out: &mut Vec<u8>) -> Result<(), Refusal> {
    let mut escape = Escape::None;
    for byte in text.bytes() {
        escape = append_byte(byte, escape, out)?;
    }
    match escape {
        Escape::None => Ok(()),
        _ => Err(Refusal::NotALine),
    }
}

// Appends what the byte stands for after what was read of an escape, and gives what was read now.
fn append_byte(byte: u8, escape: Escape, out: &mut Vec<u8>) -> Result<Escape, Refusal> {
    match escape {
        Escape::None if byte == b'\\' => return Ok(Escape::Begun),
        Escape::None => out.push(byte)?,
        Escape::Begun => match byte {
            b's' => out.push(b' ')?,
            b't' => out.push(b'\t')?,
            b'r' => out.push(b'\r')?,
            b'n' => out.push(b'\n')?,
            b'\\' => out.push(b'\\')?,
            b'e' => {}
            b'x' => return Ok(Escape::Hex),
            _ => return Err(Refusal::NotALine),
        },
        Escape::Hex => return Ok(Escape::HalfHex(hex_digit(byte)?)),
        Escape::HalfHex(high) => out.push(high.wrapping_mul(16).wrapping_add(hex_digit(byte)?))?,
    }
    Ok(Escape::None)
}

fn hex_digit(byte: u8) -> Result<u8, Refusal> {
    match byte {
        b'0'..=b'9' => Ok(byte - b'0'),
        b'a'..=b'f' => Ok(byte - b'a' + 10),
        b'A'..=b'F' => Ok(byte - b'A' + 10),
        _ => Err(Refusal::NotALine),
    }
}

// A part of a text that stands several times.
#[derive(Drop)]
enum Part {
    Bytes(Vec<u8>),
    Number(Reckoning),
    Day(Reckoning),
}

/// Appends the text and its end so many times, in each turn with the numbers and the days of that turn.
pub fn append_turns(
    alloc: Global,
    text: &str,
    end: &[u8],
    turns: usize,
    out: &mut Vec<u8>,
) -> Result<(), Refusal> {
    let parts = parts_of(alloc, text)?;
    for turn in 0..turns {
        for part in &parts {
            append_part(alloc, part, turn, out)?;
        }
        out.extend_from_slice(end)?;
    }
    Ok(())
}

// The parts of a text: what stands before, between and after its braces.
fn parts_of(alloc: Global, text: &str) -> Result<Vec<Part>, Refusal> {
    let mut parts = Vec::new(alloc);
    for (place, piece) in text.split('{').enumerate() {
        if place == 0 {
            parts.push(plain(alloc, piece)?)?;
            continue;
        }
        let Some((inner, after)) = piece.split_once('}') else {
            return Err(Refusal::NotALine);
        };
        parts.push(reckoned(alloc, inner)?)?;
        parts.push(plain(alloc, after)?)?;
    }
    Ok(parts)
}

fn plain(alloc: Global, text: &str) -> Result<Part, Refusal> {
    let mut bytes = Vec::new(alloc);
    append(text, &mut bytes)?;
    Ok(Part::Bytes(bytes))
}

fn reckoned(alloc: Global, text: &str) -> Result<Part, Refusal> {
    match text.strip_prefix("day ") {
        Some(rest) => Ok(Part::Day(Reckoning::of(alloc, rest)?)),
        None => Ok(Part::Number(Reckoning::of(alloc, text)?)),
    }
}

fn append_part(alloc: Global, part: &Part, turn: usize, out: &mut Vec<u8>) -> Result<(), Refusal> {
    match part {
        Part::Bytes(bytes) => out.extend_from_slice(bytes.as_slice())?,
        Part::Number(reckoning) => {
            let number = reckoning.number(turn);
            out.extend_from_slice(format!(in alloc; "{number}")?.as_bytes())?;
        }
        Part::Day(reckoning) => write_day(day_of(reckoning.number(turn))?, out)?,
    }
    Ok(())
}

// The day so many days after the first of the year 2000.
fn day_of(number: i64) -> Result<ExtDay, Refusal> {
    let Ok(number) = i32::try_from(number.wrapping_add(FIRST_DAY)) else {
        return Err(Refusal::NotALine);
    };
    let Some(day) = ExtDay::from_number(number) else {
        return Err(Refusal::NotALine);
    };
    Ok(day)
}
