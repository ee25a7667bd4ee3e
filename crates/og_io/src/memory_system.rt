// The system in memory, which tells all. One of its calls may be made to fail, and so may each removal.
ghost use Rattle.std.specs.Prelude.{◌≡◌, ◌++◌, [], ℕ, List, Some, None, true, OnOk, OnErr, option_map, string_bytes};
ghost use Rattle.og_io.specs.Folders.{IsSame, IsSameBut};
ghost use Rattle.og_io.specs.Held.{held};

use crate::failures::counted;
use crate::source::Failed;
use crate::system::{Kind, System};
use crate::tally::Tally;
use og_base::NoMemory;
use std::alloc::Global;
use std::collections::BTreeMap;
use std::io::{Cursor, Read};

// Files in memory by their paths, for one name.
#[derive(Drop)]
pub(crate) struct MemSystem {
    name: String,
    files: BTreeMap<String, Vec<u8>>,
    alloc: Global,
    tally: Tally,
    keeps: bool,
    kept: u64,
}

impl MemSystem {
    // No files yet. The call with the number `fail_at`, counted from 1 without the removals, fails, and so
    // does each removal where it `keeps`.
    pub(crate) fn new(alloc: Global, name: String, fail_at: Option<u64>, keeps: bool) -> MemSystem
        ensures name { result.name ≡ name }
    {
        MemSystem {
            name,
            files: BTreeMap::new(alloc),
            alloc,
            tally: Tally::new(fail_at),
            keeps,
            kept: 0,
        }
    }

    // Makes the file, or replaces it, without a call.
    pub(crate) fn put_file(&mut self, path: &str, bytes: &[u8]) -> Result<(), NoMemory>
        ensures name { self.new.name ≡ self.old.name }
    {
        put(&mut self.files, path, bytes, self.alloc)
    }

    // The bytes of the file. None exactly where the path has none.
    pub(crate) fn file(&self, path: &str) -> Option<&[u8]>
        ensures { option_map (λ b. b.now) result ≡ held self.now.files path.now }
    {
        file_of(&self.files, path)
    }

    // How many files there are.
    pub(crate) fn len(&self) -> usize {
        self.files.len()
    }
}

impl System for MemSystem {
    type File = String;

    type Opened = Cursor<Vec<u8>>;

    ghost tells = { true };

    ghost scope = { λ s. record {
      name = string_bytes s.name;
      is_plain = λ path. true;
      may_take = λ path. true;
    } };

    ghost files = { λ s. held s.files };

    ghost synced = { λ s. held s.files };

    ghost faults = { λ s. s.tally.faults };

    ghost kept = { λ s. s.kept };

    ghost path_of = { λ file. string_bytes file };

    ghost contents = { λ file. None };

    fn kind(&mut self, path: &str) -> Kind {
        if self.tally.count_call().is_err() {
            return Kind::Other;
        }
        match file_of(&self.files, path) {
            Some(_) => Kind::File,
            None => Kind::Nothing,
        }
    }

    fn may_write(&mut self, _path: &str) -> Result<(), Failed> {
        self.tally.count_call()
    }

    fn open(&mut self, path: &str) -> Result<Option<Cursor<Vec<u8>>>, Failed> {
        self.tally.count_call()?;
        let Some(file) = file_of(&self.files, path) else {
            return Ok(None);
        };
        let bytes = counted(&mut self.tally.faults, file.to_vec(self.alloc))?;
        Ok(Some(Cursor::new(bytes)))
    }

    fn read(&mut self, file: &mut Cursor<Vec<u8>>, buf: &mut [u8]) -> Result<usize, Failed> {
        self.tally.count_call()?;
        counted(&mut self.tally.faults, file.read(buf))
    }

    fn create_new(&mut self, path: &str) -> Result<Option<String>, Failed> {
        self.tally.count_call()?;
        if file_of(&self.files, path).is_some() {
            return Ok(None);
        }
        let file = counted(&mut self.tally.faults, String::from_str(self.alloc, path))?;
        let made = put(&mut self.files, path, &[], self.alloc);
        counted(&mut self.tally.faults, made)?;
        Ok(Some(file))
    }

    fn write(&mut self, file: &mut String, bytes: &[u8]) -> Result<(), Failed> {
        self.tally.count_call()?;
        let written = append(&mut self.files, file.as_str(), bytes, self.alloc);
        counted(&mut self.tally.faults, written)
    }

    fn sync(&mut self, _file: String) -> Result<(), Failed> {
        self.tally.count_call()
    }

    fn rename(&mut self, from: &str, to: &str) -> Result<(), Failed> {
        self.tally.count_call()?;
        let copied = copy_file(&mut self.files, from, to, self.alloc);
        counted(&mut self.tally.faults, copied)?;
        take(&mut self.files, from);
        Ok(())
    }

    fn remove(&mut self, path: &str) -> Result<(), Failed> {
        if self.keeps {
            self.kept = self.kept.saturating_add(1);
            return Err(Failed);
        }
        take(&mut self.files, path);
        Ok(())
    }
}

// The bytes of the file.
fn file_of<'a>(files: &'a BTreeMap<String, Vec<u8>>, path: &str) -> Option<&'a [u8]>
    ensures { option_map (λ b. b.now) result ≡ held files.now path.now }
{
    match files.get(path) {
        Some(file) => Some(file.as_slice()),
        None => None,
    }
}

// Makes the file, or replaces it.
fn put(
    files: &mut BTreeMap<String, Vec<u8>>,
    path: &str,
    bytes: &[u8],
    alloc: Global,
) -> Result<(), NoMemory>
    ensures there { OnOk result (held files.new path.now ≡ Some bytes.now) }
    ensures others { IsSameBut path.now (held files.old) (held files.new) }
    ensures refused { OnErr result (IsSame (held files.old) (held files.new)) }
{
    let file = bytes.to_vec(alloc)?;
    files.insert(String::from_str(alloc, path)?, file)?;
    Ok(())
}

// Takes the file away.
fn take(files: &mut BTreeMap<String, Vec<u8>>, path: &str)
    ensures gone { held files.new path.now ≡ None }
    ensures others { IsSameBut path.now (held files.old) (held files.new) }
{
    files.remove(path);
}

// Adds the bytes to the file, if there is one.
fn append(
    files: &mut BTreeMap<String, Vec<u8>>,
    path: &str,
    bytes: &[u8],
    alloc: Global,
) -> Result<(), NoMemory>
    ensures there { OnOk result (held files.new path.now ≡ option_map (λ all. all ++ bytes.now) (held files.old path.now)) }
    ensures others { IsSameBut path.now (held files.old) (held files.new) }
{
    let mut all = Vec::new(alloc);
    match file_of(files, path) {
        Some(file) => all.extend_from_slice(file)?,
        None => return Ok(()),
    }
    all.extend_from_slice(bytes)?;
    put(files, path, all.as_slice(), alloc)
}

// Gives another path the bytes of the file. Refused where there is none, and where memory runs out.
fn copy_file(
    files: &mut BTreeMap<String, Vec<u8>>,
    from: &str,
    to: &str,
    alloc: Global,
) -> Result<(), NoMemory>
    ensures there { OnOk result (held files.new to.now ≡ held files.old from.now) }
    ensures others { IsSameBut to.now (held files.old) (held files.new) }
    ensures refused { OnErr result (IsSame (held files.old) (held files.new)) }
{
    let mut all = Vec::new(alloc);
    match file_of(files, from) {
        Some(file) => all.extend_from_slice(file)?,
        None => return Err(NoMemory),
    }
    put(files, to, all.as_slice(), alloc)
}
