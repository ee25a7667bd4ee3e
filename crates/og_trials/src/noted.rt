//! Files in memory that note what is written to them.
ghost use Rattle.std.specs.Prelude.{◌≡◌};

use og_base::NoMemory;
use og_case_files::CaseFile;
use og_io::{Files, FilesRefusal, Found, MemFiles};
use og_value::Text;
use std::alloc::Global;

/// Files in memory, and in order what was to be written to them.
#[derive(Drop)]
pub struct NotedFiles {
    files: MemFiles,
    writes: Vec<Write>,
    calls: u64,
}

/// A call that was to write a file.
#[derive(Drop)]
pub struct Write {
    /// The number of the call among those of the files, from 1.
    call: u64,
    pub name: Text,
    bytes: Vec<u8>,
}

impl NotedFiles {
    /// The files that are there before the run. The call with the number `fail_at`, counted from 1, fails.
    pub fn new(
        alloc: Global,
        given: &[CaseFile],
        fail_at: Option<u64>,
    ) -> Result<NotedFiles, NoMemory> {
        let mut files = MemFiles::new(alloc, fail_at);
        for file in given {
            if let Some(bytes) = file.before_run() {
                files.put_file(&file.name, bytes)?;
            }
        }
        Ok(NotedFiles {
            files,
            writes: Vec::new(alloc),
            calls: 0,
        })
    }

    /// How many calls were made.
    pub fn calls(&self) -> u64 {
        self.calls
    }

    /// The calls that were to write a file.
    pub fn writes(&self) -> &[Write] {
        self.writes.as_slice()
    }

    /// The bytes of the file.
    pub fn file(&self, name: &Text) -> Option<&[u8]> {
        self.files.file(name)
    }

    /// The bytes that the calls up to that number left of the file.
    pub fn file_after<'a>(&'a self, calls: u64, file: &'a CaseFile) -> Option<&'a [u8]> {
        let mut bytes = file.before_run();
        for write in &self.writes {
            if write.call <= calls && write.name == file.name {
                bytes = Some(write.bytes.as_slice());
            }
        }
        bytes
    }

    // Notes that this call is to write the file.
    fn note(&mut self, name: &Text, bytes: &[u8]) -> Result<(), NoMemory>
        ensures files { self.new.files ≡ self.old.files }
        ensures calls { self.new.calls ≡ self.old.calls }
    {
        let alloc = *self.writes.allocator();
        let write = Write {
            call: self.calls,
            name: name.copy()?,
            bytes: bytes.to_vec(alloc)?,
        };
        self.writes.push(write)?;
        Ok(())
    }
}

impl Files for NotedFiles {
    ghost use Rattle.std.specs.Prelude.{Some};
    ghost use Rattle.og_io.specs.Folders.{folder_of};

    ghost folder = { λ f. Some (folder_of f.files.files) };

    ghost buffer = { λ f. f.files.buffer };

    ghost faults = { λ f. f.files.faults };

    ghost absences = { λ f. f.files.absences };

    ghost calls = { λ f. f.calls };

    fn read(&mut self, name: &Text) -> Result<Found, FilesRefusal> {
        self.calls = self.calls.saturating_add(1);
        self.files.read(name)
    }

    fn bytes(&self) -> &[u8] {
        self.files.bytes()
    }

    fn write(&mut self, name: &Text, bytes: &[u8]) -> Result<(), FilesRefusal> {
        self.calls = self.calls.saturating_add(1);
        self.note(name, bytes)?;
        self.files.write(name, bytes)
    }
}
