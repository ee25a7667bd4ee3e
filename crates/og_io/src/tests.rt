// A file replaced and read over a system in memory, each of whose calls fails in turn.
ghost use Rattle.std.specs.Prelude.{◌≡◌, IfOk, string_bytes};

use crate::files::FilesRefusal;
use crate::memory_system::MemSystem;
use crate::reading::read_file;
use crate::replaced::replace_file;
use og_base::NoMemory;
use std::alloc::Global;

// The answer of a SAVE, and the system after it.
#[derive(Drop)]
struct Outcome {
    done: Result<(), FilesRefusal>,
    sys: MemSystem,
}

impl Outcome {
    // Whether it failed, or was done where `is_done`, and the system has just these files: `a/r` with the bytes
    // of the one text, and `a/.ongq-0` with those of the other, each where there is one.
    fn left(&self, is_done: bool, name: Option<&str>, other: Option<&str>) -> bool {
        let answer = if is_done {
            Ok(())
        } else {
            Err(FilesRefusal::Failed)
        };
        self.done == answer
            && has(&self.sys, "a/r", name)
            && has(&self.sys, "a/.ongq-0", other)
            && self.sys.len() == usize::from(name.is_some()) + usize::from(other.is_some())
    }
}

// Whether the path has a file with the bytes of the text, or none where there is none.
fn has(sys: &MemSystem, path: &str, text: Option<&str>) -> bool {
    match (sys.file(path), text) {
        (Some(bytes), Some(text)) => bytes == text.as_bytes(),
        (None, None) => true,
        _ => false,
    }
}

// A system of that name, which may have a file. The call with that number fails, and so does each removal where
// it `keeps`.
fn system(
    alloc: Global,
    name: &str,
    old: Option<&str>,
    fail_at: u64,
    keeps: bool,
) -> Result<MemSystem, NoMemory>
    ensures name { IfOk result (λ sys. string_bytes sys.name ≡ name.now) }
{
    let mut sys = MemSystem::new(alloc, String::from_str(alloc, name)?, Some(fail_at), keeps);
    if let Some(text) = old {
        sys.put_file(name, text.as_bytes())?;
    }
    Ok(sys)
}

// Saves `new` to `a/r`.
fn saved(alloc: Global, old: Option<&str>, fail_at: u64, keeps: bool) -> Result<Outcome, NoMemory> {
    let mut sys = system(alloc, "a/r", old, fail_at, keeps)?;
    let done = replace_file(&mut sys, alloc, "a/r", b"new");
    Ok(Outcome { done, sys })
}

#[test]
fn a_save_over_a_file_that_fails_leaves_it(rt: HostRuntime) -> Result<(), NoMemory> {
    for call in 1..7u64 {
        let after = saved(rt.alloc(), Some("old"), call, false)?;
        assert!(rt; after.left(false, Some("old"), None), "{call}");
    }
    let after = saved(rt.alloc(), Some("old"), 7, false)?;
    assert!(rt; after.left(true, Some("new"), None));
    Ok(())
}

#[test]
fn a_first_save_that_fails_leaves_no_file(rt: HostRuntime) -> Result<(), NoMemory> {
    for call in 1..6u64 {
        let after = saved(rt.alloc(), None, call, false)?;
        assert!(rt; after.left(false, None, None), "{call}");
    }
    let after = saved(rt.alloc(), None, 6, false)?;
    assert!(rt; after.left(true, Some("new"), None));
    Ok(())
}

#[test]
fn a_new_file_stays_where_it_cannot_be_removed(rt: HostRuntime) -> Result<(), NoMemory> {
    for call in 1..7u64 {
        let after = saved(rt.alloc(), Some("old"), call, true)?;
        let other = match call {
            0..=3 => None,
            4 => Some(""),
            _ => Some("new"),
        };
        assert!(rt; after.left(false, Some("old"), other), "{call}");
    }
    Ok(())
}

#[test]
fn a_new_file_takes_no_path_that_is_taken(rt: HostRuntime) -> Result<(), NoMemory> {
    let mut sys = system(rt.alloc(), "r", Some("old"), 0, false)?;
    sys.put_file(".ongq-0", b"left")?;
    assert!(rt; replace_file(&mut sys, rt.alloc(), "r", b"new") == Ok(()));
    assert!(rt;
        has(&sys, "r", Some("new")) && has(&sys, ".ongq-0", Some("left")) && sys.len() == 2
    );
    Ok(())
}

#[test]
fn a_name_like_that_of_a_new_file_is_saved(rt: HostRuntime) -> Result<(), NoMemory> {
    for call in 1..8u64 {
        let mut sys = system(rt.alloc(), ".ongq-0", Some("old"), call, false)?;
        let done = replace_file(&mut sys, rt.alloc(), ".ongq-0", b"new");
        let text = if call < 7 { "old" } else { "new" };
        assert!(rt;
            done.is_ok() == (call == 7) && has(&sys, ".ongq-0", Some(text)) && sys.len() == 1,
            "{call}"
        );
    }
    Ok(())
}

// Whether a read of the file, of which the call with that number fails, gives its bytes where `is_read`, and
// fails otherwise.
fn reads(alloc: Global, fail_at: u64, is_read: bool) -> Result<bool, NoMemory> {
    let mut sys = system(alloc, "r", Some("old"), fail_at, false)?;
    Ok(match read_file(&mut sys, alloc, "r") {
        Ok(Some(bytes)) => is_read && bytes.as_slice() == b"old".as_slice(),
        Ok(None) => false,
        Err(refusal) => !is_read && refusal == FilesRefusal::Failed,
    })
}

#[test]
fn a_read_that_fails_is_a_fault(rt: HostRuntime) -> Result<(), NoMemory> {
    for call in 1..6u64 {
        assert!(rt; reads(rt.alloc(), call, call == 5)?, "{call}");
    }
    Ok(())
}

#[test]
fn a_name_without_a_file_is_read_as_absent(rt: HostRuntime) -> Result<(), NoMemory> {
    for call in 1..3u64 {
        let mut sys = system(rt.alloc(), "r", None, call, false)?;
        let read = read_file(&mut sys, rt.alloc(), "r");
        assert!(rt;
            read.is_err() == (call == 1) && !matches!(read, Ok(Some(_))),
            "{call}"
        );
    }
    Ok(())
}
