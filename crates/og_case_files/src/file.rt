//! Files of cases, line by line.
use crate::case::{Case, Setup, setup_of};
use crate::case_file::{After, CaseFile, name_last};
use crate::line::{Piece, Sign, add_piece, file_name_of, status_of, words_of};
use crate::refusal::Refusal;
use std::alloc::Global;

/// What the files so far have.
#[derive(Drop)]
pub struct Book {
    pub setups: Vec<Setup>,
    pub cases: Vec<Case>,
    // Whether the last of what began is a setup.
    in_setup: bool,
    content: Content,
}

// What lines of a file's content add to: the last file of the last case or setup.
#[derive(Clone, Copy)]
enum Content {
    // To nothing: no content is said here.
    None,
    // To its bytes before the run.
    Before,
    // To its bytes after the run.
    After,
}

/// A line that was refused, counted from 1, and why.
#[derive(Drop)]
pub struct Refused {
    pub line: usize,
    pub why: Refusal,
}

impl Book {
    /// A book without setups and cases.
    pub fn new(alloc: Global) -> Book {
        Book {
            setups: Vec::new(alloc),
            cases: Vec::new(alloc),
            in_setup: false,
            content: Content::None,
        }
    }

    /// Adds the setups and cases of the file with that name and text.
    pub fn add_file(&mut self, alloc: Global, file: &str, text: &str) -> Result<(), Refused> {
        let mut number = 0_usize;
        for line in text.split('\n') {
            number = number.wrapping_add(1);
            match self.add_line(alloc, file, number, line) {
                Ok(()) => {}
                Err(why) => return Err(Refused { line: number, why }),
            }
        }
        Ok(())
    }

    fn add_line(
        &mut self,
        alloc: Global,
        file: &str,
        number: usize,
        line: &str,
    ) -> Result<(), Refusal> {
        if line.is_empty() || line.starts_with('#') {
            return Ok(());
        }
        let Some((head, text)) = line.split_once(' ') else {
            return self.add_text(alloc, line, "");
        };
        match head {
            "case:" => self.begin_case(alloc, file, number, text),
            "setup:" => self.begin_setup(alloc, text),
            _ => self.add_text(alloc, head, text),
        }
    }

    fn begin_case(
        &mut self,
        alloc: Global,
        file: &str,
        number: usize,
        name: &str,
    ) -> Result<(), Refusal> {
        self.in_setup = false;
        self.content = Content::None;
        self.cases.push(Case::new(alloc, file, number, name)?)?;
        Ok(())
    }

    fn begin_setup(&mut self, alloc: Global, name: &str) -> Result<(), Refusal> {
        self.in_setup = true;
        self.content = Content::None;
        self.setups.push(Setup {
            name: String::from_str(alloc, name)?,
            script: Vec::new(alloc),
            files: Vec::new(alloc),
        })?;
        Ok(())
    }

    // Adds a line to the case or the setup that began last.
    fn add_text(&mut self, alloc: Global, head: &str, text: &str) -> Result<(), Refusal> {
        if self.in_setup {
            return self.add_to_setup(alloc, head, text);
        }
        let Some(mut case) = self.cases.pop() else {
            return Err(Refusal::NotALine);
        };
        match head {
            "use:" => match setup_of(self.setups.as_slice(), text) {
                Some(setup) => case.begin_with(alloc, setup)?,
                None => return Err(Refusal::NoSetup),
            },
            "words:" => case.words = words_of(alloc, text)?,
            "status:" => case.status = status_of(text)?,
            "file:" | "left:" | "saved:" => {
                self.content = add_name(alloc, head, text, &mut case.files)?
            }
            _ => add_to_case(alloc, &Piece::of(head, text)?, self.content, &mut case)?,
        }
        self.cases.push(case)?;
        Ok(())
    }

    fn add_to_setup(&mut self, alloc: Global, head: &str, text: &str) -> Result<(), Refusal> {
        let Some(mut setup) = self.setups.pop() else {
            return Err(Refusal::NotALine);
        };
        if head == "file:" {
            self.content = add_name(alloc, head, text, &mut setup.files)?;
        } else {
            let piece = Piece::of(head, text)?;
            match piece.sign {
                Sign::Output | Sign::Error | Sign::Printed => {
                    return Err(Refusal::NotALine);
                }
                Sign::Line | Sign::Part => add_piece(alloc, &piece, &mut setup.script)?,
                _ => add_content(alloc, &piece, self.content, &mut setup.files)?,
            }
        }
        self.setups.push(setup)?;
        Ok(())
    }
}

// Adds a piece to what its sign says of the case.
fn add_to_case(
    alloc: Global,
    piece: &Piece<'_>,
    content: Content,
    case: &mut Case,
) -> Result<(), Refusal> {
    match piece.sign {
        Sign::Output => add_piece(alloc, piece, &mut case.output),
        Sign::Error => add_piece(alloc, piece, &mut case.error),
        Sign::Printed => add_piece(alloc, piece, &mut case.printed),
        Sign::Line | Sign::Part => add_piece(alloc, piece, &mut case.script),
        _ => add_content(alloc, piece, content, &mut case.files),
    }
}

// Says of the file with that name what the head of its line says, and gives what its content adds to.
fn add_name(
    alloc: Global,
    head: &str,
    text: &str,
    files: &mut Vec<CaseFile>,
) -> Result<Content, Refusal> {
    name_last(file_name_of(alloc, text)?, files)?;
    let Some(mut file) = files.pop() else {
        return Err(Refusal::NotALine);
    };
    let content = match head {
        "file:" => Content::Before,
        "left:" => Content::After,
        _ => Content::None,
    };
    match content {
        Content::Before => file.before = Some(Vec::new(alloc)),
        Content::After => file.after = After::Just(Vec::new(alloc)),
        Content::None => file.after = After::Any,
    }
    files.push(file)?;
    Ok(content)
}

// Adds a piece to the content of the last file.
fn add_content(
    alloc: Global,
    piece: &Piece<'_>,
    content: Content,
    files: &mut Vec<CaseFile>,
) -> Result<(), Refusal> {
    let Some(mut file) = files.pop() else {
        return Err(Refusal::NotALine);
    };
    match (content, &mut file.before, &mut file.after) {
        (Content::Before, Some(bytes), _) => add_piece(alloc, piece, bytes)?,
        (Content::After, _, After::Just(bytes)) => add_piece(alloc, piece, bytes)?,
        _ => return Err(Refusal::NotALine),
    }
    files.push(file)?;
    Ok(())
}
