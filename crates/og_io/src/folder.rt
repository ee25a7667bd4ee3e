//! The files of the current folder. What a name holds is not told.
ghost use Rattle.std.specs.Prelude.{◌≡◌, ◌≤◌, [], None, Some, Ok, Err, OnOk, false, length};
ghost use Rattle.og_io.specs.BelowFolder.{is_below_folder};
ghost use Rattle.og_io.specs.Counts.{raised};
ghost use Rattle.og_io.specs.Folders.{HasFile, IsAnswer, FailsAsCounted, AbsentAsCounted};
ghost use Rattle.og_io.specs.WholeFiles.{max_file, HandsOut, AreOfSomeFile, AreInSomeFile};

use crate::files::{Files, FilesRefusal, Found};
use crate::folder_names::is_below_folder;
use crate::reading::read_file;
use crate::replaced::replace_file;
use crate::std_system::StdSystem;
use og_value::Text;
use std::alloc::Global;
use std::fs;
use std::marker::Model;

/// The files of the current folder and of those below it. A name is one or more parts with `/` between
/// them, none of them empty, `.` or `..`, without a zero byte; any other name is a fault. Seen as the bytes
/// handed out, and the counts of faults, of absences and of calls.
#[derive(Drop)]
pub struct FolderFiles<'a, H> {
    rt: &'a H,
    buffer: Vec<u8>,
    faults: u64,
    absences: u64,
    calls: u64,
}

impl<'a, H> Model for FolderFiles<'a, H> {
    ghost use Rattle.og_io.specs.Devices.{FolderDevice};

    ghost Value = { FolderDevice };

    ghost view = { λ f. record {
      buffer = f.buffer.items;
      faults = f.faults;
      absences = f.absences;
      calls = f.calls;
    } };
}

impl<'a, H: fs::Files> FolderFiles<'a, H> {
    /// The files of the current folder. Nothing is handed out yet.
    pub fn new(rt: &'a H, alloc: Global) -> FolderFiles<'a, H>
        ensures buffer { result.buffer ≡ [] }
        ensures faults { result.faults ≡ 0 }
        ensures absences { result.absences ≡ 0 }
        ensures calls { result.calls ≡ 0 }
    {
        FolderFiles {
            rt,
            buffer: Vec::new(alloc),
            faults: 0,
            absences: 0,
            calls: 0,
        }
    }

    // Hands out what was read, and counts a fault or an absence.
    fn hand_out(
        &mut self,
        read: Result<Option<Vec<u8>>, FilesRefusal>,
    ) -> Result<Found, FilesRefusal>
        ensures handed { HandsOut read result self.new.buffer }
        ensures failed { FailsAsCounted result self.old.faults self.new.faults }
        ensures absent { AbsentAsCounted result self.old.absences self.new.absences }
        ensures calls { self.new.calls ≡ self.old.calls }
    {
        self.buffer.clear();
        match read {
            Ok(Some(bytes)) => {
                self.buffer = bytes;
                Ok(Found::Present)
            }
            Ok(None) => {
                self.absences = self.absences.saturating_add(1);
                Ok(Found::Absent)
            }
            Err(FilesRefusal::Failed) => {
                self.faults = self.faults.saturating_add(1);
                Err(FilesRefusal::Failed)
            }
            Err(FilesRefusal::NoMemory) => Err(FilesRefusal::NoMemory),
        }
    }
}

impl<'a, H: fs::Files> Files for FolderFiles<'a, H> {
    ghost use Rattle.og_io.specs.declared.files.FilesRefusal.{FilesRefusal};
    ghost use Rattle.og_io.specs.declared.files.Found.{Found};

    ghost folder = { λ f. None };

    ghost buffer = { λ f. f.buffer };

    ghost faults = { λ f. f.faults };

    ghost absences = { λ f. f.absences };

    ghost calls = { λ f. f.calls };

    // A file of more than `MAX_FILE` bytes is a fault, and so is what is no file.
    fn read(&mut self, name: &Text) -> Result<Found, FilesRefusal>
        ensures answer { IsAnswer result None name.now self.new.buffer }
        ensures failed { FailsAsCounted result self.old.faults self.new.faults }
        ensures absent { AbsentAsCounted result self.old.absences self.new.absences }
        ensures outside { is_below_folder name.now ≡ false → result ≡ Err FilesRefusal.Failed }
        ensures whole { result ≡ Ok Found.Present → AreOfSomeFile H.File.remaining self.new.buffer }
        ensures small { length self.new.buffer ≤ max_file }
        ensures calls { self.new.calls ≡ raised self.old.calls }
    {
        self.calls = self.calls.saturating_add(1);
        if !is_below_folder(name.bytes()) {
            return self.hand_out(Err(FilesRefusal::Failed));
        }
        let mut sys = StdSystem::new(self.rt, name.as_str());
        let read = read_file(&mut sys, *self.buffer.allocator(), name.as_str());
        self.hand_out(read)
    }

    fn bytes(&self) -> &[u8]
        ensures { result.now ≡ self.now.buffer }
    {
        self.buffer.as_slice()
    }

    // The bytes go to a new file beside it, which then takes its name, so that a run that is killed leaves
    // the old file or the new one.
    fn write(&mut self, name: &Text, bytes: &[u8]) -> Result<(), FilesRefusal>
        ensures written { OnOk result (HasFile None name.now (Some bytes.now)) }
        ensures buffer { self.new.buffer ≡ self.old.buffer }
        ensures failed { FailsAsCounted result self.old.faults self.new.faults }
        ensures later { self.old.absences ≤ self.new.absences }
        ensures absences { self.new.absences ≡ self.old.absences }
        ensures outside { is_below_folder name.now ≡ false → result ≡ Err FilesRefusal.Failed }
        ensures whole { OnOk result (AreInSomeFile H.File.contents bytes.now) }
        ensures calls { self.new.calls ≡ raised self.old.calls }
    {
        self.calls = self.calls.saturating_add(1);
        if !is_below_folder(name.bytes()) {
            self.faults = self.faults.saturating_add(1);
            return Err(FilesRefusal::Failed);
        }
        let mut sys = StdSystem::new(self.rt, name.as_str());
        match replace_file(&mut sys, *self.buffer.allocator(), name.as_str(), bytes) {
            Err(FilesRefusal::Failed) => {
                self.faults = self.faults.saturating_add(1);
                Err(FilesRefusal::Failed)
            }
            done => done,
        }
    }
}
