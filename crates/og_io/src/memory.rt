//! A source and a sink in memory. One of their calls may be made to fail.
ghost use Rattle.std.specs.Prelude.{◌≡◌, ◌<◌, ◌≤◌, ◌↔◌, [], Some, Err, IsErr, IfOk, OnOk, OnErr, false, length, min};
ghost use Rattle.std.specs.Io.{ReadsAtMost};
ghost use Rattle.std.specs.Io.KnownBytes.{Appends, ReadConsumes};
ghost use Rattle.og_base.specs.Told.{Rose, HasCause, AppendsFront};
ghost use Rattle.og_io.specs.Counts.{raised, faults_after};
ghost use Rattle.og_io.specs.Sources.{is_end};

use crate::sink::{PutRefusal, Sink};
use crate::source::{Failed, Source};
use crate::tally::Tally;
use std::alloc::Global;
use std::marker::Model;

/// Bytes in memory, given a few at a time. Seen as the bytes left, the most that a call gives, the number
/// of the call that fails, the counts of calls and of faults, and whether it has ended.
#[derive(Debug, Drop)]
pub struct MemSource {
    bytes: Vec<u8>,
    at: usize,
    step: usize,
    tally: Tally,
    ended: bool,
}

impl Model for MemSource {
    ghost use Rattle.std.specs.Prelude.{◌≤◌, ◌<◌, drop, length};
    ghost use Rattle.og_io.specs.Devices.{MemorySource};

    ghost Value = { MemorySource };

    ghost view = { λ s. record {
      left = drop s.at s.bytes.items;
      step = s.step;
      fail_at = s.tally.fail_at;
      calls = s.tally.calls;
      faults = s.tally.faults;
      ended = s.ended;
    } };

    ghost invariant = { λ s. (s.at ≤ length s.bytes.items) × (0 < s.step) };
}

impl MemSource {
    /// A source of these bytes, at most `step` of them a call. The call with the number `fail_at`, counted
    /// from 1, fails.
    pub fn new(bytes: Vec<u8>, step: usize, fail_at: Option<u64>) -> MemSource
        requires { 0 < step }
        ensures left { result.left ≡ bytes.items }
        ensures step { result.step ≡ step }
        ensures fail_at { result.fail_at ≡ fail_at }
        ensures calls { result.calls ≡ 0 }
        ensures faults { result.faults ≡ 0 }
        ensures ended { result.ended ≡ false }
    {
        MemSource {
            bytes,
            at: 0,
            step,
            tally: Tally::new(fail_at),
            ended: false,
        }
    }

    /// How many calls of `next` were made so far, or the last value of the counter.
    pub fn calls(&self) -> u64
        ensures { result ≡ self.now.calls }
    {
        self.tally.calls()
    }
}

impl Source for MemSource {
    ghost left = { λ s. Some s.left };

    ghost faults = { λ s. s.faults };

    ghost ended = { λ s. s.ended };

    fn next(&mut self, buf: &mut [u8]) -> Result<usize, Failed>
        ensures bound { ReadsAtMost result buf.new }
        ensures bytes { ReadConsumes (Some self.old.left) (Some self.new.left) result buf.new }
        ensures cause { HasCause self.old.faults self.new.faults result }
        ensures kept { OnOk result (self.new.faults ≡ self.old.faults) }
        ensures ended { self.new.ended ≡ is_end result }
        ensures count { IfOk result (λ n. n ≡ min (min (length self.old.left) (length buf.old)) self.old.step) }
        ensures failing { IsErr result ↔ (self.old.fail_at ≡ Some (raised self.old.calls)) }
        ensures refused { OnErr result (buf.new ≡ buf.old) }
        ensures calls { self.new.calls ≡ raised self.old.calls }
        ensures faults { self.new.faults ≡ faults_after result self.old.faults }
        ensures step { self.new.step ≡ self.old.step }
        ensures fail_at { self.new.fail_at ≡ self.old.fail_at }
    {
        let Ok(()) = self.tally.count_call() else {
            self.ended = true;
            return Err(Failed);
        };
        let rest = &self.bytes[self.at..];
        let count = rest.len().min(buf.len()).min(self.step);
        buf[..count].copy_from_slice(&rest[..count]);
        self.at += count;
        self.ended = count == 0;
        Ok(count)
    }
}

/// Bytes that were put in memory. Seen as them, the number of the call that fails, and the counts of calls
/// and of faults.
#[derive(Debug, Drop)]
pub struct MemSink {
    bytes: Vec<u8>,
    tally: Tally,
}

impl Model for MemSink {
    ghost use Rattle.og_io.specs.Devices.{MemorySink};

    ghost Value = { MemorySink };

    ghost view = { λ s. record {
      written = s.bytes.items;
      fail_at = s.tally.fail_at;
      calls = s.tally.calls;
      faults = s.tally.faults;
    } };
}

impl MemSink {
    /// A sink that has nothing yet. The call with the number `fail_at`, counted from 1, fails.
    pub fn new(alloc: Global, fail_at: Option<u64>) -> MemSink
        ensures written { result.written ≡ [] }
        ensures fail_at { result.fail_at ≡ fail_at }
        ensures calls { result.calls ≡ 0 }
        ensures faults { result.faults ≡ 0 }
    {
        MemSink {
            bytes: Vec::new(alloc),
            tally: Tally::new(fail_at),
        }
    }

    /// The bytes that were put so far.
    pub fn written(&self) -> &[u8]
        ensures { result.now ≡ self.now.written }
    {
        self.bytes.as_slice()
    }

    /// How many calls of `put` were made so far, or the last value of the counter.
    pub fn calls(&self) -> u64
        ensures { result ≡ self.now.calls }
    {
        self.tally.calls()
    }
}

impl Sink for MemSink {
    ghost use Rattle.og_io.specs.declared.sink.PutRefusal.{PutRefusal};
    ghost use Rattle.og_io.specs.Puts.{faults_after_put};

    ghost written = { λ s. Some s.written };

    ghost faults = { λ s. s.faults };

    fn put(&mut self, piece: &[u8]) -> Result<(), PutRefusal>
        ensures ok { OnOk result (Appends (Some self.old.written) (Some self.new.written) piece.now) }
        ensures refused { OnErr result (AppendsFront (Some self.old.written) (Some self.new.written) piece.now) }
        ensures later { self.old.faults ≤ self.new.faults }
        ensures failed { result ≡ Err PutRefusal.Failed → Rose self.old.faults self.new.faults }
        ensures kept { ¬ (result ≡ Err PutRefusal.Failed) → self.new.faults ≡ self.old.faults }
        ensures unchanged { OnErr result (self.new.written ≡ self.old.written) }
        ensures failing { (result ≡ Err PutRefusal.Failed) ↔ (self.old.fail_at ≡ Some (raised self.old.calls)) }
        ensures calls { self.new.calls ≡ raised self.old.calls }
        ensures faults { self.new.faults ≡ faults_after_put result self.old.faults }
        ensures fail_at { self.new.fail_at ≡ self.old.fail_at }
    {
        let Ok(()) = self.tally.count_call() else {
            return Err(PutRefusal::Failed);
        };
        let Ok(()) = self.bytes.extend_from_slice(piece) else {
            return Err(PutRefusal::NoMemory);
        };
        Ok(())
    }
}
