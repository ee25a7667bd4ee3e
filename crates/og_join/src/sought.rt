//! The keys that the rows of a small side have, by which the rows of a large one are told that meet none.
ghost use Rattle.std.specs.Prelude.{◌≡◌, ℤ, true, false, IfOk};
ghost use Rattle.std.specs.List.{All, list_any};
ghost use Rattle.std.specs.Ordering.{eq_by_cmp};
ghost use Rattle.og_base.specs.Calendar.{IsRefDay};
ghost use Rattle.og_rel.specs.Relations.{present};
ghost use Rattle.og_join.specs.Sought.{IsSought};

use crate::keys::Keys;
use og_base::{Glue, NoMemory};
use og_rel::Rel;
use std::alloc::Global;
use std::marker::Model;

// How many right rows there have to be for each left one, for the keys of the left to be sought.
const MANY: usize = 8;

// The keys that are sought, in rising order, where these are few; all are otherwise.
#[derive(Drop)]
pub(crate) struct Sought<K: Ord> {
    few: bool,
    keys: Vec<K>,
}

impl<K: Ord> Model for Sought<K> {
    ghost use Rattle.std.specs.Prelude.{Bool, List};
    ghost use Rattle.std.specs.List.Sorted.{IsSortedBy};
    ghost use Rattle.std.specs.Ordering.{is_lt};

    ghost Value = { Bool × List K };

    ghost view = { λ s. (s.few, s.keys.items) };

    ghost invariant = { λ s. IsSortedBy (λ a b. is_lt (K.cmp a b)) s.keys.items };
}

impl<K: Ord> Sought<K> {
    // Whether the key may be sought.
    pub(crate) fn has(&self, key: &K) -> bool
        ensures { result ≡ false → IsSought K.cmp self.now key.now → ⊥ }
    {
        !self.few || self.keys.as_slice().binary_search(key).is_ok()
    }
}

// The keys of the left rows in rising order, where there are few left rows beside so many right ones.
pub(crate) fn keys_sought<R: Glue + Drop, Q: Keys<R>>(
    alloc: Global,
    keys: &Q,
    left: &Rel<R>,
    others: usize,
) -> Result<Sought<Q::Key>, NoMemory>
    ensures { IfOk result (λ s. (d : ℤ) → IsRefDay d → All (λ x. IsSought Q.Key.cmp s (Q.left_of keys.now x)) (present R.meaning left.now d)) }
{
    if left.len() >= others / MANY {
        return Ok(Sought {
            few: false,
            keys: Vec::new(alloc),
        });
    }
    let mut found = keys_of_left(alloc, keys, left)?;
    found.sort()?;
    Ok(Sought {
        few: true,
        keys: found,
    })
}

// The keys of the left rows.
fn keys_of_left<R: Glue + Drop, Q: Keys<R>>(
    alloc: Global,
    keys: &Q,
    left: &Rel<R>,
) -> Result<Vec<Q::Key>, NoMemory>
    ensures { IfOk result (λ v. (d : ℤ) → IsRefDay d → All (λ x. list_any (λ k. eq_by_cmp Q.Key.cmp k (Q.left_of keys.now x)) v.items ≡ true) (present R.meaning left.now d)) }
{
    let mut found = Vec::with_capacity(alloc, left.len())?;
    'rows: for i in 0..left.len() {
        let key = keys.left(alloc, left.row(i))?;
        found.push(key)?;
    }
    Ok(found)
}
