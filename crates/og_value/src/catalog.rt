//! What a crate above must know of the names there are.
ghost use Rattle.std.specs.Prelude.{◌≡◌, Option, List, ℕ};
ghost use Rattle.std.specs.Option.{option_copied, option_map};
ghost use Rattle.og_value.specs.declared.kind.What.{What};
ghost use Rattle.og_value.specs.declared.schema.Column.{Column};

use crate::kind::What;
use crate::name::Name;
use crate::schema::Schema;

/// The names there are, each with what it stands for and its schema.
pub trait Catalog {
    ghost known: { Self → List ℕ → Option (What × List Column) };

    /// What the name stands for, or none exactly where it is unknown.
    fn what(&self, name: &Name) -> Option<What>
        ensures { result ≡ option_map (λ k. k.0) (known self.now name.now) };

    /// The schema of the name, or none exactly where it is unknown.
    fn schema(&self, name: &Name) -> Option<&Schema>
        ensures { option_copied result ≡ option_map (λ k. k.1) (known self.now name.now) };
}
