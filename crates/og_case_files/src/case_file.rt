//! The files of a case: what they have before a run, and what they must have afterwards.
use crate::refusal::Refusal;
use og_value::Text;
use std::alloc::Global;

/// A file of a case.
#[derive(Drop)]
pub struct CaseFile {
    pub name: Text,
    /// Its bytes before the run. None where it is not there.
    pub before: Option<Vec<u8>>,
    pub after: After,
}

/// What a file must have after a run.
#[derive(Drop)]
pub enum After {
    /// What it had before.
    Same,
    /// Some bytes.
    Any,
    /// Just these bytes.
    Just(Vec<u8>),
}

impl CaseFile {
    /// Whether it may have these bytes after the run.
    pub fn may_have(&self, found: Option<&[u8]>) -> bool {
        match &self.after {
            After::Same => found == self.before_run(),
            After::Any => found.is_some(),
            After::Just(bytes) => found == Some(bytes.as_slice()),
        }
    }

    /// Its bytes before the run.
    pub fn before_run(&self) -> Option<&[u8]> {
        match &self.before {
            Some(bytes) => Some(bytes.as_slice()),
            None => None,
        }
    }
}

/// Whether one of the files has that name.
pub fn is_named(files: &[CaseFile], name: &Text) -> bool {
    place_of(files, name).is_some()
}

// The place of the file with that name.
fn place_of(files: &[CaseFile], name: &Text) -> Option<usize> {
    for (place, file) in files.iter().enumerate() {
        if file.name == *name {
            return Some(place);
        }
    }
    None
}

/// Makes the file with that name the last of the files. One that is new is not there before the run.
pub fn name_last(name: Text, files: &mut Vec<CaseFile>) -> Result<(), Refusal> {
    let place = place_of(files.as_slice(), &name).unwrap_or(files.len());
    if place < files.len() {
        let file = files.remove(place);
        files.push(file)?;
        return Ok(());
    }
    files.push(CaseFile {
        name,
        before: None,
        after: After::Same,
    })?;
    Ok(())
}

/// Adds files as the given ones are before the run.
pub fn add_copies(
    alloc: Global,
    given: &[CaseFile],
    files: &mut Vec<CaseFile>,
) -> Result<(), Refusal> {
    for file in given {
        if let Some(bytes) = file.before_run() {
            add_copy(alloc, &file.name, bytes, files)?;
        }
    }
    Ok(())
}

// Adds a file with these bytes before the run.
fn add_copy(
    alloc: Global,
    name: &Text,
    bytes: &[u8],
    files: &mut Vec<CaseFile>,
) -> Result<(), Refusal> {
    name_last(name.copy()?, files)?;
    let Some(mut file) = files.pop() else {
        return Err(Refusal::NotALine);
    };
    file.before = Some(bytes.to_vec(alloc)?);
    files.push(file)?;
    Ok(())
}
