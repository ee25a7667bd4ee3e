//! Tests of rows as they stand, on no day.
ghost use Rattle.std.specs.Prelude.{◌≡◌, Bool};

/// A test of rows.
pub trait RowTest<R> {
    /// Whether a row passes.
    ghost passes: { Self → R → Bool };

    /// Whether the row passes. Takes no memory.
    fn test(&self, row: &R) -> bool
        ensures { result ≡ passes self.now row.now };
}
