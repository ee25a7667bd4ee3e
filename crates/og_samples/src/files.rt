//! Files of a real folder and in memory, and devices that fail.
use crate::listing::is_text;
use og_io::{
    Failed, Files, FilesRefusal, FolderFiles, Found, MemFiles, PutRefusal, Sink, Source, StdSink,
    StdSource,
};
use og_value::Text;
use std::alloc::Global;
use std::fs::Permissions;
use std::io::{ErrorKind, Read, Write};
use std::os::unix::fs::PermissionsExt;
use std::{fs, io};

// Whether the file is read, and has the bytes of the text.
fn reads<F: Files>(alloc: Global, files: &mut F, name: &str, text: &str) -> bool {
    let Ok(name) = Text::of(alloc, name.as_bytes()) else {
        return false;
    };
    files.read(&name) == Ok(Found::Present) && is_text(files.bytes(), text)
}

// Whether there is no such file, and nothing is handed out.
fn lacks<F: Files>(alloc: Global, files: &mut F, name: &str) -> bool {
    let Ok(name) = Text::of(alloc, name.as_bytes()) else {
        return false;
    };
    files.read(&name) == Ok(Found::Absent) && files.bytes().is_empty()
}

// Whether reading the file fails, and nothing is handed out.
fn fails<F: Files>(alloc: Global, files: &mut F, name: &str) -> bool {
    let Ok(name) = Text::of(alloc, name.as_bytes()) else {
        return false;
    };
    files.read(&name) == Err(FilesRefusal::Failed) && files.bytes().is_empty()
}

// What comes of writing the file; nothing where there is no memory for its name.
fn written<F: Files>(
    alloc: Global,
    files: &mut F,
    name: &str,
    text: &str,
) -> Option<Result<(), FilesRefusal>> {
    let name = Text::of(alloc, name.as_bytes()).ok()?;
    Some(files.write(&name, text.as_bytes()))
}

// Whether the file is written, and then read so.
fn writes<F: Files>(alloc: Global, files: &mut F, name: &str, text: &str) -> bool {
    written(alloc, files, name, text) == Some(Ok(())) && reads(alloc, files, name, text)
}

// Whether reading and writing the file fail.
fn refuses<F: Files>(alloc: Global, files: &mut F, name: &str) -> bool {
    fails(alloc, files, name) && written(alloc, files, name, "x") == Some(Err(FilesRefusal::Failed))
}

// Whether the system has made the folder anew.
fn has_folder<H: fs::Files + AllocGlobal>(rt: &H, path: &str) -> bool {
    let _ = fs::remove_dir_all(rt, path);
    fs::create_dir(rt, path).is_ok()
}

// Whether the system has taken the folder away with what is in it.
fn is_removed<H: fs::Files + AllocGlobal>(rt: &H, path: &str) -> bool {
    fs::remove_dir_all(rt, path).is_ok()
}

// Whether the system has made the file, with the bytes of the text.
fn is_made<H: fs::Files + AllocGlobal>(rt: &H, path: &str, text: &str) -> bool {
    fs::write(rt, path, text).is_ok()
}

// Whether the system has the file, with the bytes of the text.
fn is_there<H: fs::Files + AllocGlobal>(rt: &H, path: &str, text: &str) -> bool {
    match fs::read_to_string(rt, path) {
        Ok(found) => found.as_str() == text,
        Err(_) => false,
    }
}

// Whether the system has nothing of that name.
fn is_absent<H: fs::Files>(rt: &H, path: &str) -> bool {
    fs::exists(rt, path).ok() == Some(false)
}

// Whether the folder has the file, with the bytes of the text, and lacks the other one.
fn has_file<H: fs::Files + AllocGlobal>(rt: &H, name: &str, text: &str, other: &str) -> bool {
    let mut files = FolderFiles::new(rt, rt.alloc());
    reads(rt.alloc(), &mut files, name, text) && lacks(rt.alloc(), &mut files, other)
}

// Whether the file is written three times, and read each time.
fn is_written_over<H: fs::Files + AllocGlobal>(rt: &H, name: &str) -> bool {
    let mut files = FolderFiles::new(rt, rt.alloc());
    writes(rt.alloc(), &mut files, name, "")
        && writes(rt.alloc(), &mut files, name, "longer")
        && writes(rt.alloc(), &mut files, name, "o")
}

// Whether reading the file of the folder fails.
fn is_unread<H: fs::Files + AllocGlobal>(rt: &H, name: &str) -> bool {
    fails(rt.alloc(), &mut FolderFiles::new(rt, rt.alloc()), name)
}

// Whether reading and writing the file of the folder fail.
fn is_refused<H: fs::Files + AllocGlobal>(rt: &H, name: &str) -> bool {
    refuses(rt.alloc(), &mut FolderFiles::new(rt, rt.alloc()), name)
}

// Whether the file is absent from the folder, and writing it fails.
fn is_lost<H: fs::Files + AllocGlobal>(rt: &H, name: &str) -> bool {
    let mut files = FolderFiles::new(rt, rt.alloc());
    lacks(rt.alloc(), &mut files, name)
        && written(rt.alloc(), &mut files, name, "x") == Some(Err(FilesRefusal::Failed))
}

// Whether nobody has a right to the file from now on.
fn is_closed<H: fs::Files + AllocGlobal>(rt: &H, name: &str) -> bool {
    fs::set_permissions(rt, name, Permissions::from_mode(0)).is_ok()
}

#[test]
fn a_folder_has_files_by_their_names(rt: HostRuntime) {
    let (old, new) = ("og_samples_files/old", "og_samples_files/new");
    assert!(rt; has_folder(&rt, "og_samples_files") && is_made(&rt, old, "old"));
    assert!(rt; has_file(&rt, old, "old", new) && is_removed(&rt, "og_samples_files"));
}

#[test]
fn a_file_is_written_over_one_of_its_name(rt: HostRuntime) {
    let new = "og_samples_written/new";
    assert!(rt; has_folder(&rt, "og_samples_written") && is_written_over(&rt, new));
    assert!(rt; is_there(&rt, new, "o") && is_absent(&rt, "og_samples_written/.ongq-0"));
    assert!(rt; is_removed(&rt, "og_samples_written"));
}

// The system may let this run read a file to which nobody has a right.
#[test]
fn a_file_that_may_not_be_read_is_a_fault(rt: HostRuntime) {
    let old = "og_samples_closed/old";
    assert!(rt; has_folder(&rt, "og_samples_closed") && is_made(&rt, old, "old"));
    assert!(rt; is_closed(&rt, old) && (is_there(&rt, old, "old") || is_unread(&rt, old)));
    assert!(rt; is_removed(&rt, "og_samples_closed"));
}

#[test]
fn a_folder_is_no_file(rt: HostRuntime) {
    let folder = "og_samples_folder";
    assert!(rt; has_folder(&rt, folder) && is_refused(&rt, folder) && is_removed(&rt, folder));
}

#[test]
fn a_missing_folder_lacks_files_and_takes_none(rt: HostRuntime) {
    assert!(rt; is_lost(&rt, "og_samples_none/new"));
}

// None of these names is tried that would harm the system where it were written.
#[test]
fn a_name_that_leaves_the_folder_is_a_fault(rt: HostRuntime) {
    assert!(rt; is_unread(&rt, "/etc/passwd"));
    for name in &[
        "",
        ".",
        "..",
        "/",
        "/og_samples_outside",
        "../og_samples_outside",
        "../../og_samples_outside",
        "./og_samples_outside",
        "og_samples_outside/",
        "og_samples_outside/.",
        "og_samples_outside/../og_samples_outside",
        "og_samples_outside//og_samples_outside",
        "//og_samples_outside",
        "og_samples_outside\0",
        "\0",
    ] {
        assert!(rt; is_refused(&rt, name), "{name:?}");
    }
    for name in &[
        "og_samples_outside",
        "../og_samples_outside",
        "/og_samples_outside",
    ] {
        assert!(rt; is_absent(&rt, name), "{name}");
    }
}

// Whether the file in memory has the bytes of the text, or is absent where there is none.
fn is_file(alloc: Global, files: &MemFiles, name: &str, text: Option<&str>) -> bool {
    let Ok(name) = Text::of(alloc, name.as_bytes()) else {
        return false;
    };
    match (files.file(&name), text) {
        (Some(bytes), Some(text)) => is_text(bytes, text),
        (None, None) => true,
        _ => false,
    }
}

// Whether the file is put into memory.
fn is_put(alloc: Global, files: &mut MemFiles, name: &str, text: &str) -> bool {
    let Ok(name) = Text::of(alloc, name.as_bytes()) else {
        return false;
    };
    files.put_file(&name, text.as_bytes()).is_ok()
}

// Whether a file of the memory is read and another one is absent, each by one call.
fn are_read(alloc: Global, files: &mut MemFiles) -> bool {
    is_put(alloc, files, "a", "old")
        && files.calls() == 0
        && files.bytes().is_empty()
        && reads(alloc, files, "a", "old")
        && files.calls() == 1
        && lacks(alloc, files, "g.csv")
        && files.calls() == 2
}

#[test]
fn files_in_memory_are_read(rt: HostRuntime) {
    let mut files = MemFiles::new(rt.alloc(), None);
    assert!(rt; are_read(rt.alloc(), &mut files) && is_file(rt.alloc(), &files, "g.csv", None));
}

// Whether a new file is written, beside one that was read and stays as it is.
fn is_written_beside(alloc: Global, files: &mut MemFiles) -> bool {
    is_put(alloc, files, "a", "old")
        && reads(alloc, files, "a", "old")
        && written(alloc, files, "../b", "new") == Some(Ok(()))
        && is_text(files.bytes(), "old")
        && is_file(alloc, files, "a", Some("old"))
        && is_file(alloc, files, "../b", Some("new"))
}

// Whether the file is made empty by the fourth call, and is then put into memory again.
fn is_put_again(alloc: Global, files: &mut MemFiles) -> bool {
    writes(alloc, files, "a", "")
        && files.calls() == 4
        && is_put(alloc, files, "a", "again")
        && is_file(alloc, files, "a", Some("again"))
}

#[test]
fn files_in_memory_are_written(rt: HostRuntime) {
    let mut files = MemFiles::new(rt.alloc(), None);
    assert!(rt; is_written_beside(rt.alloc(), &mut files) && is_put_again(rt.alloc(), &mut files));
}

// Whether of a read and a write of each of two files just the one with this number fails.
fn one_fails(alloc: Global, files: &mut MemFiles, number: u64) -> bool {
    let faults = (
        !reads(alloc, files, "a", "old"),
        written(alloc, files, "a", "new") != Some(Ok(())),
        !lacks(alloc, files, "b"),
        written(alloc, files, "b", "new") != Some(Ok(())),
    );
    faults == (number == 1, number == 2, number == 3, number == 4) && files.calls() == 4
}

// Whether just the call with this number fails, and changes no file.
fn fails_at(alloc: Global, number: u64) -> bool {
    let mut files = MemFiles::new(alloc, Some(number));
    let a = if number == 2 { "old" } else { "new" };
    let b = if number == 4 { None } else { Some("new") };
    is_put(alloc, &mut files, "a", "old")
        && one_fails(alloc, &mut files, number)
        && is_file(alloc, &files, "a", Some(a))
        && is_file(alloc, &files, "b", b)
}

#[test]
fn one_call_of_files_in_memory_fails(rt: HostRuntime) {
    for number in 0..6u64 {
        assert!(rt; fails_at(rt.alloc(), number), "{number}");
    }
}

// Whether the file is read by the first and the third call, and not by the second.
fn is_read_again(alloc: Global, files: &mut MemFiles) -> bool {
    is_put(alloc, files, "a", "old")
        && reads(alloc, files, "a", "old")
        && fails(alloc, files, "a")
        && reads(alloc, files, "a", "old")
}

#[test]
fn a_file_in_memory_is_read_after_a_call_that_failed(rt: HostRuntime) {
    let mut files = MemFiles::new(rt.alloc(), Some(2));
    assert!(rt; is_read_again(rt.alloc(), &mut files));
}

// A reader that gives a byte, and a writer that takes all. The second call of each fails.
#[derive(Drop)]
struct Faulty {
    calls: u32,
}

impl Faulty {
    // Counts a call.
    fn called(&mut self) -> io::Result<()> {
        self.calls = self.calls.saturating_add(1);
        if self.calls == 2 {
            return Err(io::Error::from(ErrorKind::BrokenPipe));
        }
        Ok(())
    }
}

impl Read for Faulty {
    fn read(&mut self, buf: &mut [u8]) -> io::Result<usize> {
        self.called()?;
        Ok(buf.len().min(1))
    }
}

impl Write for Faulty {
    fn write(&mut self, buf: &[u8]) -> io::Result<usize> {
        self.called()?;
        Ok(buf.len())
    }

    fn flush(&mut self) -> io::Result<()> {
        Ok(())
    }
}

// Whether two calls of the source give a byte and a failure.
fn fails_once(reader: &mut Faulty) -> bool {
    let mut source = StdSource::new(reader);
    let mut buf = [0u8; 4];
    source.next(&mut buf) == Ok(1) && source.next(&mut buf) == Err(Failed)
}

#[test]
fn a_source_asks_its_reader_once_a_call(rt: HostRuntime) {
    let mut reader = Faulty { calls: 0 };
    assert!(rt; fails_once(&mut reader) && reader.calls == 2);
}

// Whether the second of three pieces fails.
fn fails_in_the_middle(writer: &mut Faulty) -> bool {
    let mut sink = StdSink::new(writer);
    sink.put(b"ab") == Ok(())
        && sink.put(b"cd") == Err(PutRefusal::Failed)
        && sink.put(b"ef") == Ok(())
}

#[test]
fn a_sink_asks_its_writer_once_a_piece(rt: HostRuntime) {
    let mut writer = Faulty { calls: 0 };
    assert!(rt; fails_in_the_middle(&mut writer) && writer.calls == 3);
}
