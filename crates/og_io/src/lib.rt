//! The outside: where bytes come from, where they go, and files by their names.
//!
//! The traits `Source`, `Sink` and `Files` say which of the bytes that a device tells are taken,
//! appended, handed out or replaced, that a call fails only where the count of faults rose, and that
//! any other answer leaves this count (specs/Told.antt of og_base, specs/Folders.antt). A source is not
//! asked again after its end or a fault (specs/Sources.antt). `MemSource`, `MemSink` and `MemFiles` tell
//! all of it; one call of each may be made to fail. `StdSource` and `StdSink` are over std's readers and
//! writers and tell what these tell, which is nothing of a real standard input and output. `FolderFiles`
//! are the files of the current folder, where what a name holds is not told; it refuses every name that
//! leaves the folder (specs/BelowFolder.antt), and reads and writes files whole (specs/WholeFiles.antt).
//! What devices are seen as stands in specs/Devices.antt.
//!
//! What the system is asked for a file stands in a private trait, `System`. A file is read and replaced
//! over it, with proofs of what becomes of all files (specs/Replacing.antt) and of which paths are asked
//! (specs/Neighbours.antt). std's system tells nothing of files. The one in memory tells all, and is there
//! for the tests, in which each call of a SAVE fails in turn.
//!
//! The adapters of readers, writers and folders are tested in og_samples, and the cases are run over
//! devices in memory that fail at each of their calls in turn.
#![tactic(auto)]

mod failures;
mod files;
mod folder;
mod folder_names;
mod memory;
mod memory_files;
#[cfg(test)]
mod memory_system;
mod reading;
mod replaced;
mod sink;
mod source;
mod standard;
mod std_system;
mod system;
mod tally;
#[cfg(test)]
mod tests;

pub use files::{Files, FilesRefusal, Found};
pub use folder::FolderFiles;
pub use memory::{MemSink, MemSource};
pub use memory_files::MemFiles;
pub use reading::MAX_FILE;
pub use sink::{PutRefusal, Sink};
pub use source::{Failed, Source};
pub use standard::{StdSink, StdSource};
