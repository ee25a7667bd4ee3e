//! Where bytes come from.
ghost use Rattle.std.specs.Prelude.{◌≡◌, ◌<◌, ℕ, Bool, List, Option, OnOk, false, length};
ghost use Rattle.std.specs.Io.{ReadsAtMost};
ghost use Rattle.std.specs.Io.KnownBytes.{ReadConsumes};
ghost use Rattle.og_base.specs.Told.{HasCause};
ghost use Rattle.og_io.specs.Sources.{is_end};

use thiserror::Error;

/// The device failed.
#[derive(Clone, Copy, Debug, PartialEq, Eq, Error)]
#[error("the device failed")]
pub struct Failed;

/// Where bytes come from.
pub trait Source {
    /// The bytes that are left, where the source tells them.
    ghost left: { Self → Option (List ℕ) };

    /// How often the source failed: the count never falls.
    ghost faults: { Self → ℕ };

    /// Whether the last call gave 0 or `Failed`. The source is not asked again then.
    ghost ended: { Self → Bool };

    /// Puts the next bytes at the front of `buf`, and gives their number. It is 0 exactly where no byte
    /// is left. `Failed` where the device failed: the count of faults rose, and no byte was taken. With any
    /// other answer the count stays.
    fn next(&mut self, buf: &mut [u8]) -> Result<usize, Failed>
        requires room { 0 < length buf.old }
        requires not_ended { ended self.old ≡ false }
        ensures bound { ReadsAtMost result buf.new }
        ensures bytes { ReadConsumes (left self.old) (left self.new) result buf.new }
        ensures cause { HasCause (faults self.old) (faults self.new) result }
        ensures kept { OnOk result (faults self.new ≡ faults self.old) }
        ensures ended { ended self.new ≡ is_end result };
}
