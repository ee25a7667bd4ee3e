// What the system is asked of files.
ghost use Rattle.std.specs.Prelude.{◌≡◌, ◌≤◌, ◌<◌, ◌++◌, [], ℕ, List, Bool, Option, IsTrue, Some, None, Ok, Err, IfOk, OnOk, OnErr, IfSome, IsSomeAnd, true, length, option_map};
ghost use Rattle.std.specs.Io.{ReadsAtMost};
ghost use Rattle.std.specs.Io.KnownBytes.{Appends, ReadConsumes};
ghost use Rattle.og_base.specs.Told.{Rose, HasCause};
ghost use Rattle.og_io.specs.Folders.{Folder, IsSame, IsSameBut};
ghost use Rattle.og_io.specs.Neighbours.{IsNear};
ghost use Rattle.og_io.specs.Replacing.{Scope, IsMoved};

use crate::source::Failed;
use std::io::Read;

// What a path stands for.
#[derive(Clone, Copy, Debug, PartialEq, Eq)]
pub(crate) enum Kind {
    // Nothing: the path is free.
    Nothing,
    // A plain file.
    File,
    // What is no plain file, or the system does not say.
    Other,
}

// What the system is asked for one name: this name and paths for new files beside it, and no other.
pub(crate) trait System {
    // A new file that is written.
    type File: Drop;

    // A file that is read.
    type Opened: Read + Drop;

    // Whether the files are told.
    ghost tells: { Bool };

    // What it is asked about: the same at all calls.
    ghost scope: { Self → Scope };

    // The bytes of each path that has a file.
    ghost files: { Self → Folder };

    // The bytes of each path that are surely on the device.
    ghost synced: { Self → Folder };

    // How often a call failed: the count never falls.
    ghost faults: { Self → ℕ };

    // How often a removal failed: the count never falls.
    ghost kept: { Self → ℕ };

    // The path of a file that is written.
    ghost path_of: { Self.File → List ℕ };

    // The bytes that a file has taken, where it tells them.
    ghost contents: { Self.File → Option (List ℕ) };

    // What the path stands for. `Other` where the system fails.
    fn kind(&mut self, path: &str) -> Kind
        requires near { IsNear (scope self.old).name path.now }
        ensures scope { scope self.new ≡ scope self.old }
        ensures files { IsTrue tells → IsSame (files self.old) (files self.new) }
        ensures nothing { result ≡ Kind.Nothing → IsTrue tells → files self.old path.now ≡ None }
        ensures file { result ≡ Kind.File → IsTrue tells → ¬ (files self.old path.now ≡ None) }
        ensures free { result ≡ Kind.Nothing → (scope self.old).may_take path.now ≡ true }
        ensures plain { result ≡ Kind.File → (scope self.old).is_plain path.now ≡ true }
        ensures later { faults self.old ≤ faults self.new }
        ensures failed { result ≡ Kind.Other → Rose (faults self.old) (faults self.new) }
        ensures kept { kept self.new ≡ kept self.old };

    // Opens the file and closes it again, if it may be written.
    fn may_write(&mut self, path: &str) -> Result<(), Failed>
        requires near { IsNear (scope self.old).name path.now }
        requires plain { (scope self.old).is_plain path.now ≡ true }
        ensures scope { scope self.new ≡ scope self.old }
        ensures files { IsTrue tells → IsSame (files self.old) (files self.new) }
        ensures writable { OnOk result ((scope self.old).may_take path.now ≡ true) }
        ensures cause { HasCause (faults self.old) (faults self.new) result }
        ensures kept { kept self.new ≡ kept self.old };

    // Opens the file for reading; none where the path has no file. A path that is no plain file is not
    // opened: on a pipe this would wait.
    fn open(&mut self, path: &str) -> Result<Option<Self::Opened>, Failed>
        requires near { IsNear (scope self.old).name path.now }
        requires plain { (scope self.old).is_plain path.now ≡ true }
        ensures scope { scope self.new ≡ scope self.old }
        ensures files { IsTrue tells → IsSame (files self.old) (files self.new) }
        ensures absent { result ≡ Ok None → IsTrue tells → files self.old path.now ≡ None }
        ensures opened { IfOk result (λ it. IfSome it (λ file. IsTrue tells → IsSomeAnd (files self.old path.now) (λ bytes. Self.Opened.remaining file ≡ Some bytes))) }
        ensures cause { HasCause (faults self.old) (faults self.new) result }
        ensures kept { kept self.new ≡ kept self.old };

    // Puts the next bytes of the file at the front of `buf`, and gives their number.
    fn read(&mut self, file: &mut Self::Opened, buf: &mut [u8]) -> Result<usize, Failed>
        requires room { 0 < length buf.old }
        ensures scope { scope self.new ≡ scope self.old }
        ensures files { IsTrue tells → IsSame (files self.old) (files self.new) }
        ensures bound { ReadsAtMost result buf.new }
        ensures bytes { ReadConsumes (Self.Opened.remaining file.old) (Self.Opened.remaining file.new) result buf.new }
        ensures cause { HasCause (faults self.old) (faults self.new) result }
        ensures kept { kept self.new ≡ kept self.old };

    // Makes a file without bytes; none where the path is taken.
    fn create_new(&mut self, path: &str) -> Result<Option<Self::File>, Failed>
        requires near { IsNear (scope self.old).name path.now }
        ensures scope { scope self.new ≡ scope self.old }
        ensures taken { result ≡ Ok None → IsTrue tells → ¬ (files self.old path.now ≡ None) }
        ensures made { IfOk result (λ it. IfSome it (λ file. IsTrue tells → (path_of file ≡ path.now) × (files self.old path.now ≡ None) × (files self.new path.now ≡ Some []))) }
        ensures others { IsTrue tells → IsSameBut path.now (files self.old) (files self.new) }
        ensures none_made { result ≡ Ok None → IsTrue tells → IsSame (files self.old) (files self.new) }
        ensures refused { OnErr result (IsTrue tells → IsSame (files self.old) (files self.new)) }
        ensures cause { HasCause (faults self.old) (faults self.new) result }
        ensures kept { kept self.new ≡ kept self.old };

    // Appends the bytes to the file.
    fn write(&mut self, file: &mut Self::File, bytes: &[u8]) -> Result<(), Failed>
        ensures scope { scope self.new ≡ scope self.old }
        ensures path { IsTrue tells → path_of file.new ≡ path_of file.old }
        ensures appended { OnOk result (Appends (contents file.old) (contents file.new) bytes.now) }
        ensures written { OnOk result (IsTrue tells → files self.new (path_of file.old) ≡ option_map (λ all. all ++ bytes.now) (files self.old (path_of file.old))) }
        ensures others { IsTrue tells → IsSameBut (path_of file.old) (files self.old) (files self.new) }
        ensures cause { HasCause (faults self.old) (faults self.new) result }
        ensures kept { kept self.new ≡ kept self.old };

    // Writes the file through to the device, and closes it.
    fn sync(&mut self, file: Self::File) -> Result<(), Failed>
        ensures scope { scope self.new ≡ scope self.old }
        ensures files { IsTrue tells → IsSame (files self.old) (files self.new) }
        ensures synced { OnOk result (IsTrue tells → synced self.new (path_of file) ≡ files self.old (path_of file)) }
        ensures cause { HasCause (faults self.old) (faults self.new) result }
        ensures kept { kept self.new ≡ kept self.old };

    // Lets the file take another path, which is free or has a plain file that may be written. Its bytes are
    // on the device by then.
    fn rename(&mut self, from: &str, to: &str) -> Result<(), Failed>
        requires near_from { IsNear (scope self.old).name from.now }
        requires near_to { IsNear (scope self.old).name to.now }
        requires apart { ¬ (from.now ≡ to.now) }
        requires may_take { (scope self.old).may_take to.now ≡ true }
        requires synced { IsTrue tells → synced self.old from.now ≡ files self.old from.now }
        ensures scope { scope self.new ≡ scope self.old }
        ensures moved { OnOk result (IsTrue tells → IsMoved from.now to.now (files self.old) (files self.new)) }
        ensures refused { OnErr result (IsTrue tells → IsSame (files self.old) (files self.new)) }
        ensures cause { HasCause (faults self.old) (faults self.new) result }
        ensures kept { kept self.new ≡ kept self.old };

    // Removes the file.
    fn remove(&mut self, path: &str) -> Result<(), Failed>
        requires near { IsNear (scope self.old).name path.now }
        ensures scope { scope self.new ≡ scope self.old }
        ensures removed { OnOk result (IsTrue tells → files self.new path.now ≡ None) }
        ensures others { IsTrue tells → IsSameBut path.now (files self.old) (files self.new) }
        ensures faults { faults self.new ≡ faults self.old }
        ensures cause { HasCause (kept self.old) (kept self.new) result };
}
