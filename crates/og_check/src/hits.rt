//! How many columns were found.
ghost use Rattle.std.specs.Prelude.{◌≡◌, ◌∷◌, []};
ghost use Rattle.og_check.specs.Hits as spec;
ghost use Rattle.og_check.specs.Hits.{with_found};

use og_value::Kind;

/// None, the one with its place in the row and its kind, or more.
#[derive(Clone, Copy)]
pub enum Hits {
    Nothing,
    One { place: usize, kind: Kind },
    More,
}

/// With one more.
pub fn one_more(hits: Hits, place: usize, kind: Kind) -> Hits
    ensures { result ≡ with_found hits ((place, kind) ∷ []) }
{
    match hits {
        Hits::Nothing => Hits::One { place, kind },
        _ => Hits::More,
    }
}

/// The first, or the second where the first has none.
pub fn or_hits(first: Hits, second: Hits) -> Hits
    ensures { result ≡ spec.or_hits first second }
{
    match first {
        Hits::Nothing => second,
        _ => first,
    }
}
