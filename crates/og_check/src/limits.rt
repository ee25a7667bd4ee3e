//! How many may stand in a statement. How many columns a table may have, og_value says.

/// The most items of FROM.
pub const MAX_TABLES: usize = 16;
