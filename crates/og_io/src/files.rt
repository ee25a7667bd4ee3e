//! Files by their names.
ghost use Rattle.std.specs.Prelude.{◌≡◌, ◌≤◌, ℕ, List, Option, Some, Err, OnOk};
ghost use Rattle.og_io.specs.Counts.{raised};
ghost use Rattle.og_io.specs.Folders.{Folder, IsSame, IsSameBut, WhereTold, HasFile, IsAnswer, FailsAsCounted, AbsentAsCounted};

use og_base::NoMemory;
use og_value::Text;
use thiserror::Error;

/// Whether a name has a file.
#[derive(Clone, Copy, Debug, PartialEq, Eq)]
pub enum Found {
    /// The name has a file.
    Present,
    /// No such file.
    Absent,
}

/// Why a file was not read or written.
#[derive(Clone, Copy, Debug, PartialEq, Eq, Error)]
pub enum FilesRefusal {
    /// The device failed.
    #[error("the device failed")]
    Failed,
    /// Memory ran out.
    #[error("want of memory")]
    NoMemory,
}

impl From<NoMemory> for FilesRefusal {
    ghost use Rattle.og_io.specs.declared.files.FilesRefusal.{FilesRefusal};

    ghost from_gives = { λ _ e. e ≡ FilesRefusal.NoMemory };

    fn from(_: NoMemory) -> FilesRefusal {
        FilesRefusal::NoMemory
    }
}

/// Files by their names, read whole into one buffer.
pub trait Files {
    /// The bytes of each name that has a file, where they are told.
    ghost folder: { Self → Option Folder };

    /// The bytes that are handed out.
    ghost buffer: { Self → List ℕ };

    /// How often a call failed: the count never falls.
    ghost faults: { Self → ℕ };

    /// How often a name had no file: the count never falls.
    ghost absences: { Self → ℕ };

    /// How often `read` and `write` were called, or the last value of a u64.
    ghost calls: { Self → ℕ };

    /// Hands out the bytes of the file. `Absent` where the name has none, and `Failed` where the device
    /// failed; then, and where memory ran out, the buffer is empty. All names stay as they were.
    fn read(&mut self, name: &Text) -> Result<Found, FilesRefusal>
        ensures names { WhereTold IsSame (folder self.old) (folder self.new) }
        ensures answer { IsAnswer result (folder self.old) name.now (buffer self.new) }
        ensures failed { FailsAsCounted result (faults self.old) (faults self.new) }
        ensures absent { AbsentAsCounted result (absences self.old) (absences self.new) }
        ensures calls { calls self.new ≡ raised (calls self.old) };

    /// The bytes that are handed out: those of the last read that found its file, and none before it
    /// and after a read of another answer.
    fn bytes(&self) -> &[u8]
        ensures { result.now ≡ buffer self.now };

    /// Makes the file, or replaces it. After `Failed`, where the device failed, nothing is known of the
    /// name; after `NoMemory` it is as it was. All other names and the buffer stay.
    fn write(&mut self, name: &Text, bytes: &[u8]) -> Result<(), FilesRefusal>
        ensures names { WhereTold (IsSameBut name.now) (folder self.old) (folder self.new) }
        ensures written { OnOk result (HasFile (folder self.new) name.now (Some bytes.now)) }
        ensures want { result ≡ Err FilesRefusal.NoMemory → WhereTold IsSame (folder self.old) (folder self.new) }
        ensures buffer { buffer self.new ≡ buffer self.old }
        ensures failed { FailsAsCounted result (faults self.old) (faults self.new) }
        ensures absences { absences self.old ≤ absences self.new }
        ensures calls { calls self.new ≡ raised (calls self.old) };
}
