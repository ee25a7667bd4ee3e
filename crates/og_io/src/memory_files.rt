//! Files in memory. One of their calls may be made to fail.
ghost use Rattle.std.specs.Prelude.{◌≡◌, ◌↔◌, [], Some, None, Ok, Err, OnOk, OnErr, IfOk, option_map};
ghost use Rattle.og_io.specs.Counts.{raised};
ghost use Rattle.og_io.specs.Folders.{folder_of, IsSame, IsSameBut, WhereTold, HasFile, IsAnswer, FailsAsCounted, AbsentAsCounted};

use crate::files::{Files, FilesRefusal, Found};
use crate::tally::Tally;
use og_base::NoMemory;
use og_value::Text;
use std::alloc::Global;
use std::collections::BTreeMap;
use std::marker::Model;

/// Files in memory. Seen as the bytes of each name, the bytes handed out, the number of the call that
/// fails, and the counts of calls, of faults and of absences. Reads and writes are counted together.
#[derive(Drop)]
pub struct MemFiles {
    files: BTreeMap<Text, Vec<u8>>,
    buffer: Vec<u8>,
    absences: u64,
    tally: Tally,
}

impl Model for MemFiles {
    ghost use Rattle.std.specs.Prelude.{map};
    ghost use Rattle.og_io.specs.Devices.{MemoryFiles};

    ghost Value = { MemoryFiles };

    ghost view = { λ f. record {
      files = map (λ e. (e.0, e.1.items)) f.files.entries;
      buffer = f.buffer.items;
      fail_at = f.tally.fail_at;
      calls = f.tally.calls;
      faults = f.tally.faults;
      absences = f.absences;
    } };
}

impl MemFiles {
    /// No files yet. The call with the number `fail_at`, counted from 1, fails.
    pub fn new(alloc: Global, fail_at: Option<u64>) -> MemFiles
        ensures files { result.files ≡ [] }
        ensures buffer { result.buffer ≡ [] }
        ensures fail_at { result.fail_at ≡ fail_at }
        ensures calls { result.calls ≡ 0 }
        ensures faults { result.faults ≡ 0 }
        ensures absences { result.absences ≡ 0 }
    {
        MemFiles {
            files: BTreeMap::new(alloc),
            buffer: Vec::new(alloc),
            absences: 0,
            tally: Tally::new(fail_at),
        }
    }

    /// Makes the file, or replaces it, without a call of the device. Nothing changes where memory runs out.
    pub fn put_file(&mut self, name: &Text, bytes: &[u8]) -> Result<(), NoMemory>
        ensures written { OnOk result (folder_of self.new.files name.now ≡ Some bytes.now) }
        ensures others { IsSameBut name.now (folder_of self.old.files) (folder_of self.new.files) }
        ensures refused { OnErr result (IsSame (folder_of self.old.files) (folder_of self.new.files)) }
        ensures buffer { self.new.buffer ≡ self.old.buffer }
        ensures fail_at { self.new.fail_at ≡ self.old.fail_at }
        ensures calls { self.new.calls ≡ self.old.calls }
        ensures faults { self.new.faults ≡ self.old.faults }
        ensures absences { self.new.absences ≡ self.old.absences }
    {
        let mut file = Vec::new(*self.buffer.allocator());
        file.extend_from_slice(bytes)?;
        self.files.insert(name.copy()?, file)?;
        Ok(())
    }

    /// The bytes of the file. None exactly where the name has none.
    pub fn file(&self, name: &Text) -> Option<&[u8]>
        ensures { option_map (λ b. b.now) result ≡ folder_of self.now.files name.now }
    {
        match self.files.get(name) {
            Some(file) => Some(file.as_slice()),
            None => None,
        }
    }

    /// How many calls of `read` and `write` were made so far, or the last value of the counter.
    pub fn calls(&self) -> u64
        ensures { result ≡ self.now.calls }
    {
        self.tally.calls()
    }
}

impl Files for MemFiles {
    ghost use Rattle.og_io.specs.declared.files.Found.{Found};
    ghost use Rattle.og_io.specs.declared.files.FilesRefusal.{FilesRefusal};
    ghost use Rattle.og_io.specs.FileCounts.{faults_after_call, absences_after_read};

    ghost folder = { λ f. Some (folder_of f.files) };

    ghost buffer = { λ f. f.buffer };

    ghost faults = { λ f. f.faults };

    ghost absences = { λ f. f.absences };

    ghost calls = { λ f. f.calls };

    fn read(&mut self, name: &Text) -> Result<Found, FilesRefusal>
        ensures names { WhereTold IsSame (Some (folder_of self.old.files)) (Some (folder_of self.new.files)) }
        ensures answer { IsAnswer result (Some (folder_of self.old.files)) name.now self.new.buffer }
        ensures failed { FailsAsCounted result self.old.faults self.new.faults }
        ensures absent { AbsentAsCounted result self.old.absences self.new.absences }
        ensures files { self.new.files ≡ self.old.files }
        ensures failing { (result ≡ Err FilesRefusal.Failed) ↔ (self.old.fail_at ≡ Some (raised self.old.calls)) }
        ensures calls { self.new.calls ≡ raised self.old.calls }
        ensures faults { self.new.faults ≡ faults_after_call result self.old.faults }
        ensures absences { self.new.absences ≡ absences_after_read result self.old.absences }
        ensures fail_at { self.new.fail_at ≡ self.old.fail_at }
    {
        self.buffer.clear();
        let Ok(()) = self.tally.count_call() else {
            return Err(FilesRefusal::Failed);
        };
        let Some(file) = self.files.get(name) else {
            self.absences = self.absences.saturating_add(1);
            return Ok(Found::Absent);
        };
        let Ok(()) = self.buffer.extend_from_slice(file.as_slice()) else {
            return Err(FilesRefusal::NoMemory);
        };
        Ok(Found::Present)
    }

    fn bytes(&self) -> &[u8]
        ensures { result.now ≡ self.now.buffer }
    {
        self.buffer.as_slice()
    }

    fn write(&mut self, name: &Text, bytes: &[u8]) -> Result<(), FilesRefusal>
        ensures names { WhereTold (IsSameBut name.now) (Some (folder_of self.old.files)) (Some (folder_of self.new.files)) }
        ensures written { OnOk result (HasFile (Some (folder_of self.new.files)) name.now (Some bytes.now)) }
        ensures want { result ≡ Err FilesRefusal.NoMemory → WhereTold IsSame (Some (folder_of self.old.files)) (Some (folder_of self.new.files)) }
        ensures buffer { self.new.buffer ≡ self.old.buffer }
        ensures failed { FailsAsCounted result self.old.faults self.new.faults }
        ensures absences { self.new.absences ≡ self.old.absences }
        ensures refused { OnErr result (IsSame (folder_of self.old.files) (folder_of self.new.files)) }
        ensures failing { (result ≡ Err FilesRefusal.Failed) ↔ (self.old.fail_at ≡ Some (raised self.old.calls)) }
        ensures calls { self.new.calls ≡ raised self.old.calls }
        ensures faults { self.new.faults ≡ faults_after_call result self.old.faults }
        ensures fail_at { self.new.fail_at ≡ self.old.fail_at }
    {
        let Ok(()) = self.tally.count_call() else {
            return Err(FilesRefusal::Failed);
        };
        self.put_file(name, bytes)?;
        Ok(())
    }
}
