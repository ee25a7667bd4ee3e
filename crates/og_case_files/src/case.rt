//! A case, and a setup with which cases may begin.
use crate::case_file::{CaseFile, add_copies};
use crate::refusal::Refusal;
use std::alloc::Global;

/// A script with what a run of it must write.
#[derive(Drop)]
pub struct Case {
    /// The file and the line on which the case begins.
    pub place: String,
    pub name: String,
    /// The words of the command line.
    pub words: Vec<String>,
    pub script: Vec<u8>,
    pub output: Vec<u8>,
    pub status: u8,
    /// What is written to standard error; no bytes where the case does not say.
    pub error: Vec<u8>,
    /// The script as it is printed; no bytes where the case does not say.
    pub printed: Vec<u8>,
    /// The files that are there before the run or are named afterwards. Each name stands once.
    pub files: Vec<CaseFile>,
}

impl Case {
    /// A case with the word `run`, without a script and files, that writes nothing and ends with status 0.
    pub fn new(alloc: Global, file: &str, line: usize, name: &str) -> Result<Case, Refusal> {
        let mut words = Vec::with_capacity(alloc, 1)?;
        words.push(String::from_str(alloc, "run")?)?;
        Ok(Case {
            place: format!(in alloc; "{file}:{line}")?,
            name: String::from_str(alloc, name)?,
            words,
            script: Vec::new(alloc),
            output: Vec::new(alloc),
            status: 0,
            error: Vec::new(alloc),
            printed: Vec::new(alloc),
            files: Vec::new(alloc),
        })
    }

    /// Begins the script with that of the setup, and gives the case its files.
    pub fn begin_with(&mut self, alloc: Global, setup: &Setup) -> Result<(), Refusal> {
        self.script.extend_from_slice(setup.script.as_slice())?;
        add_copies(alloc, setup.files.as_slice(), &mut self.files)
    }

    /// Whether the first word is that of a command with a script of its own, so that there is no source.
    pub fn has_own_script(&self) -> bool {
        let Some(first) = self.words.first() else {
            return false;
        };
        first.as_str() == "at" || first.as_str() == "load"
    }

    /// Whether the words leave the number of workers open: `run` alone, or `load` and one word.
    pub fn leaves_workers(&self) -> bool {
        let Some(first) = self.words.first() else {
            return false;
        };
        match first.as_str() {
            "run" => self.words.len() == 1,
            "load" => self.words.len() == 2,
            _ => false,
        }
    }

    /// Whether the words are `run --workers 2`.
    pub fn runs_by_two(&self) -> bool {
        let [run, option, number] = self.words.as_slice() else {
            return false;
        };
        run.as_str() == "run" && option.as_str() == "--workers" && number.as_str() == "2"
    }
}

/// A script and files with which cases may begin.
#[derive(Drop)]
pub struct Setup {
    pub name: String,
    pub script: Vec<u8>,
    pub files: Vec<CaseFile>,
}

/// The setup with that name, if there is one.
pub fn setup_of<'a>(setups: &'a [Setup], name: &str) -> Option<&'a Setup> {
    for setup in setups {
        if setup.name.as_str() == name {
            return Some(setup);
        }
    }
    None
}
