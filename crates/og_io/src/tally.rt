// The calls of an object in memory, one of which may be made to fail.
ghost use Rattle.std.specs.Prelude.{◌≡◌, ◌≤◌, ◌↔◌, Some, IsErr};
ghost use Rattle.og_io.specs.Counts.{raised, faults_after};

use crate::source::Failed;

#[derive(Debug, Drop)]
pub(crate) struct Tally {
    fail_at: Option<u64>,
    calls: u64,
    pub(crate) faults: u64,
}

impl Tally {
    // No calls yet.
    pub(crate) fn new(fail_at: Option<u64>) -> Tally
        ensures fail_at { result.fail_at ≡ fail_at }
        ensures calls { result.calls ≡ 0 }
        ensures faults { result.faults ≡ 0 }
    {
        Tally {
            fail_at,
            calls: 0,
            faults: 0,
        }
    }

    // How many calls were made, or the counter's last value.
    pub(crate) fn calls(&self) -> u64
        ensures { result ≡ self.now.calls }
    {
        self.calls
    }

    // Counts a call, and its fault where it is the one to fail.
    pub(crate) fn count_call(&mut self) -> Result<(), Failed>
        ensures failing { IsErr result ↔ (self.old.fail_at ≡ Some (raised self.old.calls)) }
        ensures calls { self.new.calls ≡ raised self.old.calls }
        ensures faults { self.new.faults ≡ faults_after result self.old.faults }
        ensures later { self.old.faults ≤ self.new.faults }
        ensures unchanged { self.new.fail_at ≡ self.old.fail_at }
    {
        self.calls = self.calls.saturating_add(1);
        if self.fail_at == Some(self.calls) {
            self.faults = self.faults.saturating_add(1);
            return Err(Failed);
        }
        Ok(())
    }
}
