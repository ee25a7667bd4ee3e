//! The walk over the lexemes of a statement, with the steps that have to follow.

use crate::grammar::{Part, Step, rows_with, shortest, way_on};
use og_base::NoMemory;
use og_syntax::{Lexeme, Sort, after, sees, sort_at};
use std::alloc::Global;

// The most steps from one lexeme to the next, and the most lexemes of an ending: more than the depth of statements allows.
const MAX_STEPS: usize = 4_096;

/// The steps that have to follow, the next one last.
#[derive(Drop)]
pub struct Ahead {
    steps: Vec<Step>,
    // Those before a lexeme that may turn out not to stand there.
    before: Vec<Step>,
}

impl Ahead {
    /// What comes of a whole statement.
    pub fn of_statement(alloc: Global) -> Result<Ahead, NoMemory> {
        let mut steps = Vec::new(alloc);
        steps.push(Step::Part(Part::Statement))?;
        Ok(Ahead {
            steps,
            before: Vec::new(alloc),
        })
    }

    /// The same steps once more.
    pub fn copy(&self, alloc: Global) -> Result<Ahead, NoMemory> {
        let mut steps = Vec::new(alloc);
        steps.extend_from_slice(self.steps.as_slice())?;
        Ok(Ahead {
            steps,
            before: Vec::new(alloc),
        })
    }

    // Puts these steps before all others.
    fn put(&mut self, way: &[Step]) -> Result<(), NoMemory> {
        'steps: for step in way.iter().rev() {
            self.steps.push(*step)?;
        }
        Ok(())
    }

    /// Goes past the first lexeme, if it can stand there, and says whether it can. Else the steps stay.
    pub fn pass(&mut self, lexemes: &[Lexeme]) -> Result<bool, NoMemory> {
        self.before.clear();
        self.before.extend_from_slice(self.steps.as_slice())?;
        if self.pass_by(lexemes, AsBeforeOf::IsNoAlias)? {
            return Ok(true);
        }
        self.go_back()?;
        if self.pass_by(lexemes, AsBeforeOf::IsAnAlias)? {
            return Ok(true);
        }
        self.go_back()?;
        Ok(false)
    }

    // Takes the steps from before.
    fn go_back(&mut self) -> Result<(), NoMemory> {
        self.steps.clear();
        Ok(self.steps.extend_from_slice(self.before.as_slice())?)
    }

    // Goes past the first lexeme, if it can stand there.
    fn pass_by(&mut self, lexemes: &[Lexeme], reading: AsBeforeOf) -> Result<bool, NoMemory> {
        'steps: for _ in 0..MAX_STEPS {
            match self.steps.pop() {
                Some(Step::Lexeme(wanted)) => return Ok(wanted == sort_at(lexemes)),
                Some(Step::Part(part)) => {
                    let Some(way) = way_at(part, lexemes, reading) else {
                        return Ok(false);
                    };
                    self.put(way)?;
                }
                None => return Ok(false),
            }
        }
        Ok(false)
    }

    /// The sorts of the lexemes that can stand here, the innermost part first.
    pub fn words(&self, alloc: Global) -> Result<Vec<Sort>, NoMemory> {
        let mut ahead = self.copy(alloc)?;
        let mut words = Vec::new(alloc);
        'steps: for _ in 0..MAX_STEPS {
            match ahead.steps.pop() {
                Some(Step::Lexeme(sort)) => {
                    add_word(&mut words, sort)?;
                    return Ok(words);
                }
                Some(Step::Part(part)) => {
                    add_words(part, &mut words)?;
                    let Some(way) = way_on(part, Sort::Nothing) else {
                        return Ok(words);
                    };
                    ahead.put(way)?;
                }
                None => return Ok(words),
            }
        }
        Ok(words)
    }

    /// The sorts of lexemes that make a statement of what was passed.
    pub fn ending(&self, alloc: Global) -> Result<Vec<Sort>, NoMemory> {
        let mut ahead = self.copy(alloc)?;
        let mut words = Vec::new(alloc);
        'steps: for _ in 0..MAX_STEPS {
            match ahead.steps.pop() {
                Some(Step::Lexeme(sort)) => words.push(sort)?,
                Some(Step::Part(part)) => ahead.put(shortest(part))?,
                None => return Ok(words),
            }
        }
        Ok(words)
    }
}

// What AS is taken for before OF, behind the name of a table: the first word of AS OF, or of an alias.
#[derive(Clone, Copy, PartialEq, Eq)]
enum AsBeforeOf {
    IsNoAlias,
    IsAnAlias,
}

// The way on with the part at these lexemes.
fn way_at(part: Part, lexemes: &[Lexeme], reading: AsBeforeOf) -> Option<&'static [Step]> {
    let is_as_of = sees(lexemes, Sort::As) && sees(after(lexemes), Sort::Of);
    if is_as_of && part == Part::TableAlias && reading == AsBeforeOf::IsNoAlias {
        return way_on(part, Sort::Nothing);
    }
    way_on(part, sort_at(lexemes))
}

// Adds the sorts at which the part goes on.
fn add_words(part: Part, words: &mut Vec<Sort>) -> Result<(), NoMemory> {
    'rows: for row in rows_with(part) {
        if row.0 == part && row.1 != Sort::Nothing {
            add_word(words, row.1)?;
        }
    }
    Ok(())
}

// Adds the sort, where it is not there.
fn add_word(words: &mut Vec<Sort>, sort: Sort) -> Result<(), NoMemory> {
    if words.as_slice().contains(&sort) {
        return Ok(());
    }
    Ok(words.push(sort)?)
}
