//! Where bytes go.
ghost use Rattle.std.specs.Prelude.{◌≡◌, ◌≤◌, ℕ, List, Option, Err, OnOk, OnErr};
ghost use Rattle.std.specs.Io.KnownBytes.{Appends};
ghost use Rattle.og_base.specs.Told.{Rose, AppendsFront};

use og_base::NoMemory;
use thiserror::Error;

/// Why a sink refused a piece.
#[derive(Clone, Copy, Debug, PartialEq, Eq, Error)]
pub enum PutRefusal {
    /// The device failed.
    #[error("the device failed")]
    Failed,
    /// Memory ran out.
    #[error("want of memory")]
    NoMemory,
}

impl From<NoMemory> for PutRefusal {
    ghost use Rattle.og_io.specs.declared.sink.PutRefusal.{PutRefusal};

    ghost from_gives = { λ _ e. e ≡ PutRefusal.NoMemory };

    fn from(_: NoMemory) -> PutRefusal {
        PutRefusal::NoMemory
    }
}

/// Where bytes go.
pub trait Sink {
    /// The bytes that were written, where the sink tells them.
    ghost written: { Self → Option (List ℕ) };

    /// How often the sink failed: the count never falls.
    ghost faults: { Self → ℕ };

    /// Appends all bytes of the piece, or a front of it where it is refused: `Failed` where the device
    /// failed, and then the count of faults rose, and `NoMemory` where memory ran out. With any answer but
    /// `Failed` the count stays.
    fn put(&mut self, piece: &[u8]) -> Result<(), PutRefusal>
        ensures ok { OnOk result (Appends (written self.old) (written self.new) piece.now) }
        ensures refused { OnErr result (AppendsFront (written self.old) (written self.new) piece.now) }
        ensures later { faults self.old ≤ faults self.new }
        ensures failed { result ≡ Err PutRefusal.Failed → Rose (faults self.old) (faults self.new) }
        ensures kept { ¬ (result ≡ Err PutRefusal.Failed) → faults self.new ≡ faults self.old };
}
