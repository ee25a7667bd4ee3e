// A file of the system, replaced whole.
ghost use Rattle.std.specs.Prelude.{◌≡◌, ◌≤◌, ◌⊎◌, IsTrue, true, [], Some, None, Err, IfOk, OnOk, OnErr, string_bytes};
ghost use Rattle.og_base.specs.Told.{Rose, HasCause};
ghost use Rattle.og_io.specs.Folders.{IsSame, IsSameBut};
ghost use Rattle.og_io.specs.Neighbours.{IsFolderOf, IsNumbered, IsNear};
ghost use Rattle.og_io.specs.Replacing.{IsReplaced, IsSameButKept, AreTaken, max_names};
ghost use Rattle.og_io.specs.WholeFiles.{AreInSomeFile};

use crate::files::FilesRefusal;
use crate::source::Failed;
use crate::system::{Kind, System};
use og_base::NoMemory;
use std::alloc::Global;

// How many paths are tried for a new file until one is free.
const MAX_NAMES: u32 = 10_000;

// Makes the file of the name, or replaces it, by a new file beside it that takes its name. `Failed` where it
// may not be written, no path is free for the new file, or the system fails; then no new file is left, where
// the system lets it be removed.
pub(crate) fn replace_file<S: System>(
    sys: &mut S,
    alloc: Global,
    name: &str,
    bytes: &[u8],
) -> Result<(), FilesRefusal>
    requires name { name.now ≡ (S.scope sys.old).name }
    ensures ok { OnOk result (IsTrue S.tells → IsReplaced name.now bytes.now (S.files sys.old) (S.files sys.new)) }
    ensures refused { OnErr result (IsTrue S.tells → IsSameButKept (S.files sys.old) (S.files sys.new) (S.kept sys.old) (S.kept sys.new)) }
    ensures want { result ≡ Err FilesRefusal.NoMemory → IsTrue S.tells → IsSame (S.files sys.old) (S.files sys.new) }
    ensures failed { result ≡ Err FilesRefusal.Failed → IsTrue S.tells → Rose (S.faults sys.old) (S.faults sys.new) ⊎ AreTaken name.now max_names (S.files sys.old) }
    ensures later { S.faults sys.old ≤ S.faults sys.new }
    ensures whole { OnOk result (AreInSomeFile S.contents bytes.now) }
{
    let Ok(()) = may_take(sys, name) else {
        return Err(FilesRefusal::Failed);
    };
    'names: for number in 0..MAX_NAMES {
        let other = beside(alloc, name, number)?;
        if other.as_str() == name {
            continue;
        }
        match sys.create_new(other.as_str()) {
            Ok(Some(file)) => return placed(sys, file, other.as_str(), name, bytes),
            Ok(None) => {}
            Err(Failed) => return Err(FilesRefusal::Failed),
        }
    }
    Err(FilesRefusal::Failed)
}

// Whether the name is free, or has a plain file that may be written.
fn may_take<S: System>(sys: &mut S, name: &str) -> Result<(), Failed>
    requires near { IsNear (S.scope sys.old).name name.now }
    ensures scope { S.scope sys.new ≡ S.scope sys.old }
    ensures files { IsTrue S.tells → IsSame (S.files sys.old) (S.files sys.new) }
    ensures may_take { OnOk result ((S.scope sys.old).may_take name.now ≡ true) }
    ensures cause { HasCause (S.faults sys.old) (S.faults sys.new) result }
    ensures kept { S.kept sys.new ≡ S.kept sys.old }
{
    match sys.kind(name) {
        Kind::Nothing => Ok(()),
        Kind::File => sys.may_write(name),
        Kind::Other => Err(Failed),
    }
}

// The front of the name up to its last slash, with it.
fn folder_of(name: &str) -> &str
    ensures { IsFolderOf name.now result.now }
{
    match name.rfind('/') {
        Some(at) => &name[..at + 1],
        None => "",
    }
}

// The path of that number for a new file in the folder of the name.
fn beside(alloc: Global, name: &str, number: u32) -> Result<String, NoMemory>
    ensures { IfOk result (λ path. IsNumbered name.now number (string_bytes path)) }
{
    let folder = folder_of(name);
    Ok(format!(in alloc; "{folder}.ongq-{number}")?)
}

// Fills the new file and lets it take the name, or removes it.
fn placed<S: System>(
    sys: &mut S,
    file: S::File,
    other: &str,
    name: &str,
    bytes: &[u8],
) -> Result<(), FilesRefusal>
    requires name { name.now ≡ (S.scope sys.old).name }
    requires near { IsNear (S.scope sys.old).name other.now }
    requires may_take { (S.scope sys.old).may_take name.now ≡ true }
    requires apart { ¬ (other.now ≡ name.now) }
    requires path { IsTrue S.tells → S.path_of file ≡ other.now }
    requires empty { IsTrue S.tells → S.files sys.old other.now ≡ Some [] }
    ensures there { OnOk result (IsTrue S.tells → S.files sys.new name.now ≡ Some bytes.now) }
    ensures gone { OnOk result (IsTrue S.tells → S.files sys.new other.now ≡ None) }
    ensures others { (path : _) → ¬ (path ≡ other.now) → ¬ (path ≡ name.now) → IsTrue S.tells → S.files sys.new path ≡ S.files sys.old path }
    ensures refused { OnErr result (IsTrue S.tells → (S.files sys.new name.now ≡ S.files sys.old name.now) × ((S.files sys.new other.now ≡ None) ⊎ Rose (S.kept sys.old) (S.kept sys.new))) }
    ensures cause { HasCause (S.faults sys.old) (S.faults sys.new) result }
    ensures refusal { OnErr result (result ≡ Err FilesRefusal.Failed) }
    ensures whole { OnOk result (AreInSomeFile S.contents bytes.now) }
{
    if filled(sys, file, bytes).is_ok() && sys.rename(other, name).is_ok() {
        return Ok(());
    }
    let _ = sys.remove(other);
    Err(FilesRefusal::Failed)
}

// Fills the file and writes it through to the device.
fn filled<S: System>(sys: &mut S, file: S::File, bytes: &[u8]) -> Result<(), Failed>
    ensures scope { S.scope sys.new ≡ S.scope sys.old }
    ensures written { OnOk result (IsTrue S.tells → S.files sys.old (S.path_of file) ≡ Some [] → S.files sys.new (S.path_of file) ≡ Some bytes.now) }
    ensures synced { OnOk result (IsTrue S.tells → S.synced sys.new (S.path_of file) ≡ S.files sys.new (S.path_of file)) }
    ensures others { IsTrue S.tells → IsSameBut (S.path_of file) (S.files sys.old) (S.files sys.new) }
    ensures cause { HasCause (S.faults sys.old) (S.faults sys.new) result }
    ensures kept { S.kept sys.new ≡ S.kept sys.old }
    ensures whole { OnOk result (AreInSomeFile S.contents bytes.now) }
{
    let mut file = file;
    sys.write(&mut file, bytes)?;
    sys.sync(file)
}
