//! What is made of one item.
ghost use Rattle.std.specs.Prelude.{◌≡◌, ◌++◌, List, OnOk};

use og_base::NoMemory;
use std::alloc::Global;

/// What is made of one item.
pub trait Piece<T> {
    /// What lists of it are made.
    type Out;

    /// The lists that may be made of the item.
    ghost gives: { Self → T → List Self.Out → Type 0 };

    /// Appends a list that may be made of the item. After a refusal, which is want of memory, what
    /// stands in `out` belongs to the caller's phase and means nothing.
    fn make(&self, alloc: Global, item: &T, out: &mut Vec<Self::Out>) -> Result<(), NoMemory>
        ensures { OnOk result ((made : List Self.Out) × gives self.now item.now made × (out.new.items ≡ out.old.items ++ made)) };
}
