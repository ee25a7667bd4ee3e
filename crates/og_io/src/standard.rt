//! Readers and writers of std as a source and a sink. They tell what their reader or writer tells.
ghost use Rattle.std.specs.Prelude.{◌≡◌, ◌≤◌, Err, OnOk, OnErr, IsOkUnless, false};
ghost use Rattle.std.specs.Io.{ReadsAtMost};
ghost use Rattle.std.specs.Io.KnownBytes.{Appends, ReadConsumes};
ghost use Rattle.og_base.specs.Told.{Rose, HasCause, AppendsFront};
ghost use Rattle.og_io.specs.Counts.{faults_after};
ghost use Rattle.og_io.specs.Sources.{is_end};

use crate::failures::counted;
use crate::sink::{PutRefusal, Sink};
use crate::source::{Failed, Source};
use std::io::{Read, Write};
use std::marker::Model;

/// A source over a reader. A read that fails is a fault. Seen as the reader, the count of its faults, and
/// whether it has ended.
#[derive(Debug, Drop)]
pub struct StdSource<R> {
    reader: R,
    faults: u64,
    ended: bool,
}

impl<R> Model for StdSource<R> {
    ghost use Rattle.og_io.specs.Devices.{CountedReader, reader_code};

    ghost Value = { CountedReader R };

    ghost coded = { reader_code R.code };

    ghost view = { λ s. record { device = s.reader; faults = s.faults; ended = s.ended } };
}

impl<R: Read> StdSource<R> {
    /// A source of what the reader gives.
    pub fn new(reader: R) -> StdSource<R>
        ensures device { result.device ≡ reader }
        ensures faults { result.faults ≡ 0 }
        ensures ended { result.ended ≡ false }
    {
        StdSource {
            reader,
            faults: 0,
            ended: false,
        }
    }
}

impl<R: Read> Source for StdSource<R> {
    ghost left = { λ s. R.remaining s.device };

    ghost faults = { λ s. s.faults };

    ghost ended = { λ s. s.ended };

    fn next(&mut self, buf: &mut [u8]) -> Result<usize, Failed>
        ensures bound { ReadsAtMost result buf.new }
        ensures bytes { ReadConsumes (R.remaining self.old.device) (R.remaining self.new.device) result buf.new }
        ensures cause { HasCause self.old.faults self.new.faults result }
        ensures kept { OnOk result (self.new.faults ≡ self.old.faults) }
        ensures faults { self.new.faults ≡ faults_after result self.old.faults }
        ensures ended { self.new.ended ≡ is_end result }
    {
        let read = counted(&mut self.faults, self.reader.read(buf));
        self.ended = read.unwrap_or(0) == 0;
        read
    }
}

/// A sink over a writer. A write that fails is a fault, and so is one that takes nothing of a piece that is
/// not empty. Seen as the writer and the count of its faults.
#[derive(Debug, Drop)]
pub struct StdSink<W> {
    writer: W,
    faults: u64,
}

impl<W> Model for StdSink<W> {
    ghost use Rattle.og_io.specs.Devices.{Counted, counted_code};

    ghost Value = { Counted W };

    ghost coded = { counted_code W.code };

    ghost view = { λ s. record { device = s.writer; faults = s.faults } };
}

impl<W: Write> StdSink<W> {
    /// A sink that writes to the writer.
    pub fn new(writer: W) -> StdSink<W>
        ensures device { result.device ≡ writer }
        ensures faults { result.faults ≡ 0 }
    {
        StdSink { writer, faults: 0 }
    }
}

impl<W: Write> Sink for StdSink<W> {
    ghost use Rattle.og_io.specs.declared.sink.PutRefusal.{PutRefusal};
    ghost use Rattle.og_io.specs.Puts.{faults_after_put};

    ghost written = { λ s. W.contents s.device };

    ghost faults = { λ s. s.faults };

    fn put(&mut self, piece: &[u8]) -> Result<(), PutRefusal>
        ensures ok { OnOk result (Appends (W.contents self.old.device) (W.contents self.new.device) piece.now) }
        ensures refused { OnErr result (AppendsFront (W.contents self.old.device) (W.contents self.new.device) piece.now) }
        ensures later { self.old.faults ≤ self.new.faults }
        ensures failed { result ≡ Err PutRefusal.Failed → Rose self.old.faults self.new.faults }
        ensures kept { ¬ (result ≡ Err PutRefusal.Failed) → self.new.faults ≡ self.old.faults }
        ensures refusal { IsOkUnless result PutRefusal.Failed }
        ensures faults { self.new.faults ≡ faults_after_put result self.old.faults }
    {
        let Ok(()) = write_whole(&mut self.writer, piece) else {
            self.faults = self.faults.saturating_add(1);
            return Err(PutRefusal::Failed);
        };
        Ok(())
    }
}

// Writes the piece, or a front of it where a write fails or takes nothing.
fn write_whole<W: Write>(writer: &mut W, piece: &[u8]) -> Result<(), Failed>
    ensures ok { OnOk result (Appends (W.contents writer.old) (W.contents writer.new) piece.now) }
    ensures refused { OnErr result (AppendsFront (W.contents writer.old) (W.contents writer.new) piece.now) }
{
    let mut taken = 0;
    while taken < piece.len() {
        match writer.write(&piece[taken..]) {
            Ok(0) => return Err(Failed),
            Ok(count) => taken += count,
            Err(_) => return Err(Failed),
        }
    }
    Ok(())
}
