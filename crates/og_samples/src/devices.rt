//! Sources and sinks over readers and writers of std.
ghost use Rattle.std.specs.Prelude.{◌≡◌, ◌<◌, true, false, length};

use crate::listing::is_text;
use og_io::{PutRefusal, Sink, Source, StdSink, StdSource};
use std::io;
use std::io::Write;

// A writer that takes nothing.
#[derive(Drop)]
struct Full;

impl Write for Full {
    fn write(&mut self, _buf: &[u8]) -> io::Result<usize> {
        Ok(0)
    }

    fn flush(&mut self) -> io::Result<()> {
        Ok(())
    }
}

// Whether the source gives these bytes next, to two bytes of room.
fn gives(source: &mut StdSource<&[u8]>, bytes: &[u8]) -> bool
    requires { source.old.ended ≡ false }
    ensures { result ≡ true → 0 < length bytes.now → source.new.ended ≡ false }
{
    let mut buf = [0u8; 2];
    source.next(&mut buf) == Ok(bytes.len()) && buf.starts_with(bytes)
}

#[test]
fn a_reader_gives_its_bytes_and_then_its_end(rt: HostRuntime) {
    let mut source = StdSource::new(b"abc".as_slice());
    assert!(rt; gives(&mut source, b"ab") && gives(&mut source, b"c") && gives(&mut source, b""));
}

// Whether the writer takes three pieces, one of them empty.
fn takes_pieces(written: &mut Vec<u8>) -> bool {
    let mut sink = StdSink::new(written);
    for piece in &["ab", "", "c"] {
        if sink.put(piece.as_bytes()).is_err() {
            return false;
        }
    }
    true
}

#[test]
fn a_writer_gets_each_piece_after_the_last(rt: HostRuntime) {
    let mut written = Vec::new(rt.alloc());
    assert!(rt; takes_pieces(&mut written) && is_text(written.as_slice(), "abc"));
}

#[test]
fn a_writer_that_takes_nothing_has_failed(rt: HostRuntime) {
    let mut sink = StdSink::new(Full);
    assert!(rt; sink.put(b"a") == Err(PutRefusal::Failed) && sink.put(b"") == Ok(()));
}
