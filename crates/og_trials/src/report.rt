//! What came of all runs: their numbers, and a text for each that failed.
ghost use Rattle.std.specs.Prelude.{◌≤◌, IfOk};

use crate::trial::Outcome;
use og_case_files::{After, Case, CaseFile, Refusal};
use std::alloc::Global;

// The most bytes of an output that a text shows.
const SHOWN: usize = 2_000;

/// The numbers of cases, runs and failed runs, and a text for each of the last.
#[derive(Drop)]
pub struct Report {
    cases: usize,
    runs: usize,
    failed: usize,
    pub text: Vec<u8>,
}

impl Report {
    /// A report of no runs.
    pub fn new(alloc: Global) -> Report {
        Report {
            cases: 0,
            runs: 0,
            failed: 0,
            text: Vec::new(alloc),
        }
    }

    /// Counts one more case.
    pub fn begin_case(&mut self) {
        self.cases = self.cases.saturating_add(1);
    }

    /// Counts a run, and adds a text where it did not go well.
    pub fn add(
        &mut self,
        alloc: Global,
        case: &Case,
        way: &str,
        outcome: &Outcome,
        is_well: bool,
    ) -> Result<(), Refusal> {
        self.count(alloc, case, way, is_well)?;
        if is_well {
            return Ok(());
        }
        let wanted = format!(in alloc; "wanted status {} and", case.status)?;
        self.add_side(alloc, wanted.as_str(), case.output.as_slice())?;
        let found = format!(in alloc; "found status {} and", outcome.status)?;
        self.add_side(alloc, found.as_str(), outcome.written.as_slice())?;
        self.add_files(alloc, case, outcome)
    }

    // Adds the first file that is not as the case wants it after a whole run, and the first that it does not name.
    fn add_files(&mut self, alloc: Global, case: &Case, outcome: &Outcome) -> Result<(), Refusal> {
        if let Some(file) = outcome.unwanted_file(case) {
            let found = outcome.files.file(&file.name);
            self.add_wanted_file(alloc, file)?;
            self.add_file(alloc, "found", file.name.as_str(), found)?;
        }
        if let Some(name) = outcome.other_file(case) {
            self.add_file(alloc, "found", name.as_str(), outcome.files.file(name))?;
        }
        Ok(())
    }

    // Adds what the case wants of the file.
    fn add_wanted_file(&mut self, alloc: Global, file: &CaseFile) -> Result<(), Refusal> {
        let name = file.name.as_str();
        match &file.after {
            After::Same => self.add_file(alloc, "wanted", name, file.before_run()),
            After::Just(bytes) => self.add_file(alloc, "wanted", name, Some(bytes.as_slice())),
            After::Any => {
                let line = format!(in alloc; "  wanted some bytes of file {name}\n")?;
                self.text.extend_from_slice(line.as_bytes())?;
                Ok(())
            }
        }
    }

    // Adds the file with that name as it was wanted or found.
    fn add_file(
        &mut self,
        alloc: Global,
        what: &str,
        name: &str,
        bytes: Option<&[u8]>,
    ) -> Result<(), Refusal> {
        match bytes {
            Some(bytes) => {
                let what = format!(in alloc; "{what} file {name} with")?;
                self.add_side(alloc, what.as_str(), bytes)
            }
            None => {
                let line = format!(in alloc; "  {what} no bytes of file {name}\n")?;
                self.text.extend_from_slice(line.as_bytes())?;
                Ok(())
            }
        }
    }

    /// Counts a run that gave the second bytes, and adds a text where these are not the first.
    pub fn compare(
        &mut self,
        alloc: Global,
        case: &Case,
        way: &str,
        wanted: &[u8],
        found: &[u8],
    ) -> Result<(), Refusal> {
        self.count(alloc, case, way, found == wanted)?;
        if found == wanted {
            return Ok(());
        }
        self.add_side(alloc, "wanted", wanted)?;
        self.add_side(alloc, "found", found)
    }

    // Counts a run, and adds the head of its text where it did not go well.
    fn count(
        &mut self,
        alloc: Global,
        case: &Case,
        way: &str,
        is_well: bool,
    ) -> Result<(), Refusal> {
        self.runs = self.runs.saturating_add(1);
        if is_well {
            return Ok(());
        }
        self.failed = self.failed.saturating_add(1);
        let head = format!(in alloc;
            "{}: {}\n  run {way}\n",
            case.place.as_str(),
            case.name.as_str()
        )?;
        self.text.extend_from_slice(head.as_bytes())?;
        Ok(())
    }

    // Adds what was wanted or found.
    fn add_side(&mut self, alloc: Global, what: &str, bytes: &[u8]) -> Result<(), Refusal> {
        let head = format!(in alloc; "  {what} {} bytes:\n", bytes.len())?;
        self.text.extend_from_slice(head.as_bytes())?;
        let shown = &bytes[..bytes.len().min(SHOWN)];
        self.text.extend_from_slice(shown)?;
        if shown.last() != Some(&b'\n') {
            self.text.push(b'\n')?;
        }
        Ok(())
    }

    /// Adds the last line, and gives the exit status: 0 where no run failed.
    pub fn end(&mut self, alloc: Global) -> Result<u8, Refusal>
        ensures status { IfOk result (λ status. status ≤ 1) }
    {
        let line = format!(in alloc;
            "{} cases, {} runs, {} failed\n",
            self.cases, self.runs, self.failed
        )?;
        self.text.extend_from_slice(line.as_bytes())?;
        Ok(if self.failed == 0 { 0 } else { 1 })
    }
}
