//! The files that the statements of a script read.

use indexmap::IndexSet;
use og_base::NoMemory;
use og_syntax::Stmt;
use og_value::Text;
use std::alloc::Global;

/// The names of the files that some statement of a script reads.
#[derive(Drop)]
pub struct FilesRead {
    names: IndexSet<String>,
}

impl FilesRead {
    /// Those of the statements. Refused only for want of memory.
    pub fn of(alloc: Global, stmts: &[Stmt]) -> Result<FilesRead, NoMemory> {
        let mut names = IndexSet::new(alloc);
        'stmts: for stmt in stmts {
            if let Some(file) = file_of(stmt) {
                names.insert(String::from_str(alloc, file.as_str())?)?;
            }
        }
        Ok(FilesRead { names })
    }

    /// Whether some statement reads the file.
    pub fn has(&self, file: &Text) -> bool {
        self.names.contains(file.as_str())
    }
}

// The file that the statement reads.
fn file_of(stmt: &Stmt) -> Option<&Text> {
    match stmt {
        Stmt::OpenFile { file, .. } | Stmt::ImportFile { file, .. } => Some(file),
        _ => None,
    }
}
