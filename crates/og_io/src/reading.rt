// A file of the system, read whole.
ghost use Rattle.std.specs.Prelude.{◌≡◌, ◌≤◌, ◌<◌, ◌+◌, ◌⊎◌, IsTrue, Some, None, Ok, Err, IfOk, IfSome, true, length};
ghost use Rattle.og_base.specs.Told.{Rose};
ghost use Rattle.og_io.specs.Folders.{IsSame};
ghost use Rattle.og_io.specs.Sources.{max_part, TakesAtMost};
ghost use Rattle.og_io.specs.WholeFiles.{max_file, AreTold, AreOfSomeFile};

use crate::files::FilesRefusal;
use crate::source::Failed;
use crate::system::{Kind, System};
use std::alloc::Global;

/// The most bytes of a file that is read.
pub const MAX_FILE: usize = 1_073_741_824;

// The most bytes that one call asks for.
const PART: usize = 65_536;

// All bytes of the file of the name, or none where it has no file. `Failed` where the system fails, the name
// stands for what is no plain file, or the file has more than `MAX_FILE` bytes.
pub(crate) fn read_file<S: System>(
    sys: &mut S,
    alloc: Global,
    name: &str,
) -> Result<Option<Vec<u8>>, FilesRefusal>
    requires name { name.now ≡ (S.scope sys.old).name }
    ensures there { IfOk result (λ it. IfSome it (λ v. IsTrue S.tells → S.files sys.old name.now ≡ Some v.items)) }
    ensures absent { result ≡ Ok None → IsTrue S.tells → S.files sys.old name.now ≡ None }
    ensures files { IsTrue S.tells → IsSame (S.files sys.old) (S.files sys.new) }
    ensures failed { result ≡ Err FilesRefusal.Failed → IsTrue S.tells → Rose (S.faults sys.old) (S.faults sys.new) ⊎ IfSome (S.files sys.old name.now) (λ all. max_file < length all) }
    ensures whole { IfOk result (λ it. IfSome it (λ v. AreOfSomeFile S.Opened.remaining v.items)) }
    ensures small { IfOk result (λ it. IfSome it (λ v. length v.items ≤ max_file)) }
    ensures later { S.faults sys.old ≤ S.faults sys.new }
{
    match sys.kind(name) {
        Kind::Nothing => Ok(None),
        Kind::File => read_plain(sys, alloc, name),
        Kind::Other => Err(FilesRefusal::Failed),
    }
}

// All bytes of the plain file.
fn read_plain<S: System>(
    sys: &mut S,
    alloc: Global,
    name: &str,
) -> Result<Option<Vec<u8>>, FilesRefusal>
    requires name { name.now ≡ (S.scope sys.old).name }
    requires plain { (S.scope sys.old).is_plain name.now ≡ true }
    ensures there { IfOk result (λ it. IfSome it (λ v. IsTrue S.tells → S.files sys.old name.now ≡ Some v.items)) }
    ensures absent { result ≡ Ok None → IsTrue S.tells → S.files sys.old name.now ≡ None }
    ensures files { IsTrue S.tells → IsSame (S.files sys.old) (S.files sys.new) }
    ensures failed { result ≡ Err FilesRefusal.Failed → IsTrue S.tells → Rose (S.faults sys.old) (S.faults sys.new) ⊎ IfSome (S.files sys.old name.now) (λ all. max_file < length all) }
    ensures whole { IfOk result (λ it. IfSome it (λ v. AreOfSomeFile S.Opened.remaining v.items)) }
    ensures small { IfOk result (λ it. IfSome it (λ v. length v.items ≤ max_file)) }
    ensures later { S.faults sys.old ≤ S.faults sys.new }
{
    let mut file = match sys.open(name) {
        Ok(Some(file)) => file,
        Ok(None) => return Ok(None),
        Err(Failed) => return Err(FilesRefusal::Failed),
    };
    match read_whole(sys, &mut file, alloc) {
        Ok(bytes) => Ok(Some(bytes)),
        Err(refusal) => Err(refusal),
    }
}

// The bytes of the file, read to its end. `Failed` where the system fails, or it has more than `MAX_FILE`.
fn read_whole<S: System>(
    sys: &mut S,
    file: &mut S::Opened,
    alloc: Global,
) -> Result<Vec<u8>, FilesRefusal>
    ensures whole { IfOk result (λ v. AreTold (S.Opened.remaining file.old) v.items) }
    ensures small { IfOk result (λ v. length v.items ≤ max_file) }
    ensures taken { TakesAtMost (max_file + max_part) (S.Opened.remaining file.old) (S.Opened.remaining file.new) }
    ensures failed { result ≡ Err FilesRefusal.Failed → Rose (S.faults sys.old) (S.faults sys.new) ⊎ IfSome (S.Opened.remaining file.old) (λ all. max_file < length all) }
    ensures files { IsTrue S.tells → IsSame (S.files sys.old) (S.files sys.new) }
    ensures later { S.faults sys.old ≤ S.faults sys.new }
{
    let mut bytes = Vec::new(alloc);
    let mut part = [0u8; PART];
    'parts: for _ in 0..MAX_FILE + 1 {
        let Ok(count) = sys.read(file, &mut part) else {
            return Err(FilesRefusal::Failed);
        };
        if count == 0 {
            return Ok(bytes);
        }
        if bytes.len() > MAX_FILE - count {
            return Err(FilesRefusal::Failed);
        }
        let Ok(()) = bytes.extend_from_slice(&part[..count]) else {
            return Err(FilesRefusal::NoMemory);
        };
    }
    // Each turn brought a byte, and no more than the limit came.
    unreachable!()
}
