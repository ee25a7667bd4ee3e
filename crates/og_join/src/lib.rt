//! Joins: the rows of two relations that can meet on some day, found by their keys or by the spans
//! of their days.
//!
//! On every day and for each number of workers `key_join` has the glued rows whose keys are equal and for
//! which a condition holds, and `overlap_join` those for which it holds, where it holds of no two rows
//! whose spans do not overlap (`joined` and `AreTold` in specs/Joined.antt). `key_join_with`,
//! `overlap_join_with` and `key_span_join`, which asks for both, have what a `PairMap` of og_ops makes of
//! such pairs of rows, and glue none. None has more rows than the product. `candidates` tells the pairs of
//! places of two rising lists of spans that overlap, each once (specs/Overlaps.antt, `each_pair_once`), and
//! counts at most two steps a span and one a pair. The traits `Keys` and `Spans` give the keys and the
//! spans of rows.
//!
//! No tests here: og_samples has the traits at small types, and what scripts reach is tested by the
//! cases.
#![tactic(auto)]

mod blocks;
mod groups;
mod keys;
mod laws;
mod outers;
mod row_pairs;
mod same_key;
mod sought;
mod span_key;
mod spans;
mod sweep;
mod tries;

pub use keys::{Keys, key_join, key_join_with, key_span_join};
pub use laws::each_pair_once;
pub use spans::{Spans, overlap_join, overlap_join_with};
pub use sweep::candidates;
