// The system through std. What a path has is not told.
ghost use Rattle.std.specs.Prelude.{◌≡◌, ◌≢◌, ◌≤◌, ◌↔◌, [], Some, None, Ok, Err, IfOk, IsOkAnd, IsErr, IsErrAnd, true, false};
ghost use Rattle.std.specs.Fs.{file_type, IsFile};
ghost use Rattle.std.specs.IoError.{error_kind};
ghost use Rattle.og_base.specs.Told.{HasCause};
ghost use Rattle.og_io.specs.BelowFolder.{is_below_folder};

use crate::failures::counted;
use crate::source::Failed;
use crate::system::{Kind, System};
use std::fs::{File, Files, Metadata, OpenFile, OpenOptions};
use std::io::{ErrorKind, Read, Write};
use std::{fs, io};

// The system through std, for one name, which lies in the folder or below it. It is made for no other name, so
// std is asked for none.
#[derive(Drop)]
pub(crate) struct StdSystem<'a, H> {
    rt: &'a H,
    name: &'a str,
    faults: u64,
    kept: u64,
}

impl<'a, H: Files> StdSystem<'a, H> {
    pub(crate) fn new(rt: &'a H, name: &'a str) -> StdSystem<'a, H>
        requires below { is_below_folder name.now ≡ true }
        ensures name { result.name.now ≡ name.now }
        ensures faults { result.faults ≡ 0 }
        ensures kept { result.kept ≡ 0 }
    {
        StdSystem {
            rt,
            name,
            faults: 0,
            kept: 0,
        }
    }
}

impl<'a, H: Files> System for StdSystem<'a, H> {
    type File = H::File;

    type Opened = H::File;

    ghost tells = { false };

    ghost scope = { λ s. record {
      name = s.name.now;
      is_plain = λ path. true;
      may_take = λ path. true;
    } };

    ghost files = { λ s path. None };

    ghost synced = { λ s path. None };

    ghost faults = { λ s. s.faults };

    ghost kept = { λ s. s.kept };

    ghost path_of = { λ file. [] };

    ghost contents = { λ file. H.File.contents file };

    fn kind(&mut self, path: &str) -> Kind {
        let kind = kind_of(fs::metadata(self.rt, path));
        if kind == Kind::Other {
            self.faults = self.faults.saturating_add(1);
        }
        kind
    }

    fn may_write(&mut self, path: &str) -> Result<(), Failed> {
        let opened = OpenOptions::new().write(true).open(self.rt, path);
        counted(&mut self.faults, opened)?;
        Ok(())
    }

    fn open(&mut self, path: &str) -> Result<Option<H::File>, Failed> {
        let opened = none_at(ErrorKind::NotFound, File::open(self.rt, path));
        counted(&mut self.faults, opened)
    }

    fn read(&mut self, file: &mut H::File, buf: &mut [u8]) -> Result<usize, Failed> {
        counted(&mut self.faults, file.read(buf))
    }

    fn create_new(&mut self, path: &str) -> Result<Option<H::File>, Failed> {
        let made = none_at(ErrorKind::AlreadyExists, File::create_new(self.rt, path));
        counted(&mut self.faults, made)
    }

    fn write(&mut self, file: &mut H::File, bytes: &[u8]) -> Result<(), Failed> {
        counted(&mut self.faults, file.write_all(bytes))
    }

    fn sync(&mut self, file: H::File) -> Result<(), Failed> {
        counted(&mut self.faults, file.sync_all())
    }

    fn rename(&mut self, from: &str, to: &str) -> Result<(), Failed> {
        counted(&mut self.faults, fs::rename(self.rt, from, to))
    }

    fn remove(&mut self, path: &str) -> Result<(), Failed> {
        counted(&mut self.kept, fs::remove_file(self.rt, path))
    }
}

// What the path stands for of which the system said this.
fn kind_of(found: io::Result<Metadata>) -> Kind
    ensures nothing { (result ≡ Kind.Nothing) ↔ IsErrAnd found (λ e. error_kind e ≡ ErrorKind.NotFound) }
    ensures file { (result ≡ Kind.File) ↔ IsOkAnd found (λ m. IsFile (file_type m)) }
{
    match found {
        Ok(found) => {
            if found.is_file() {
                Kind::File
            } else {
                Kind::Other
            }
        }
        Err(error) if error.kind() == ErrorKind::NotFound => Kind::Nothing,
        Err(_) => Kind::Other,
    }
}

// The file that was opened or made, or none where the system refused it for that cause.
fn none_at<F: Drop>(cause: ErrorKind, opened: io::Result<F>) -> io::Result<Option<F>>
    ensures file { IfOk opened (λ file. result ≡ Ok (Some file)) }
    ensures none { (result ≡ Ok None) ↔ IsErrAnd opened (λ e. error_kind e ≡ cause) }
    ensures failed { IsErr result ↔ IsErrAnd opened (λ e. error_kind e ≢ cause) }
{
    match opened {
        Ok(file) => Ok(Some(file)),
        Err(error) if error.kind() == cause => Ok(None),
        Err(error) => Err(error),
    }
}
