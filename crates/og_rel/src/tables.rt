//! Relations by their names.
ghost use Rattle.std.specs.Prelude.{◌≡◌, ℕ, List, Option, option_map};
ghost use Rattle.og_base.specs.Ranges.{Range};

use crate::relation::Rel;
use og_base::OngoingRow;

/// Relations by their names.
pub trait Tables<R: OngoingRow> {
    /// The relation of a name, where the name is known.
    ghost named: { Self → List ℕ → Option (List (R × List Range)) };

    /// The relation of that name; None exactly where the name is unknown. Takes no memory.
    fn rel(&self, name: &[u8]) -> Option<&Rel<R>>
        ensures { option_map (λ r. r.now) result ≡ named self.now name.now };
}
