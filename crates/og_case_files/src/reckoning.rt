//! Numbers that are reckoned from the number of a turn.
use crate::refusal::Refusal;
use std::alloc::Global;

// One step of a reckoning.
#[derive(Clone, Copy)]
enum Op {
    Times,
    By,
    Modulo,
    Plus,
    Minus,
}

#[derive(Clone, Copy)]
struct Step {
    op: Op,
    number: i64,
}

/// What is reckoned from the number of a turn: steps, from the left.
#[derive(Drop)]
pub struct Reckoning {
    steps: Vec<Step>,
}

impl Reckoning {
    /// The reckoning with that text: `i`, and for each step its sign and its number.
    pub fn of(alloc: Global, text: &str) -> Result<Reckoning, Refusal> {
        let Some(rest) = text.strip_prefix('i') else {
            return Err(Refusal::NotALine);
        };
        let mut steps = Vec::new(alloc);
        for byte in rest.bytes() {
            match op_of(byte) {
                Some(op) => steps.push(Step { op, number: 0 })?,
                None => add_digit(byte, &mut steps)?,
            }
        }
        Ok(Reckoning { steps })
    }

    /// The number in this turn. It wraps, and what is divided by 0 is 0.
    pub fn number(&self, turn: usize) -> i64 {
        let mut number = i64::try_from(turn).unwrap_or(i64::MAX);
        for step in &self.steps {
            number = stepped(number, *step);
        }
        number
    }
}

// The step that begins with that byte.
fn op_of(byte: u8) -> Option<Op> {
    match byte {
        b'*' => Some(Op::Times),
        b'/' => Some(Op::By),
        b'%' => Some(Op::Modulo),
        b'+' => Some(Op::Plus),
        b'-' => Some(Op::Minus),
        _ => None,
    }
}

// Adds a digit to the number of the last step.
fn add_digit(byte: u8, steps: &mut Vec<Step>) -> Result<(), Refusal> {
    if !byte.is_ascii_digit() {
        return Err(Refusal::NotALine);
    }
    let Some(last) = steps.pop() else {
        return Err(Refusal::NotALine);
    };
    let number = last.number.wrapping_mul(10);
    let number = number.wrapping_add(i64::from(byte - b'0'));
    steps.push(Step {
        op: last.op,
        number,
    })?;
    Ok(())
}

fn stepped(number: i64, step: Step) -> i64 {
    match step.op {
        Op::Times => number.wrapping_mul(step.number),
        Op::By => number.checked_div(step.number).unwrap_or(0),
        Op::Modulo => number.checked_rem(step.number).unwrap_or(0),
        Op::Plus => number.wrapping_add(step.number),
        Op::Minus => number.wrapping_sub(step.number),
    }
}
