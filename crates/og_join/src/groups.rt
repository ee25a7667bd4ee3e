//! Large groups of rows with one key, each found once, so that a key's rows are found at the first try.
ghost use Rattle.std.specs.Prelude.{◌≡◌, IfOk, filter};
ghost use Rattle.std.specs.Ordering.{eq_by_cmp, is_lt};
ghost use Rattle.og_ops.specs.Lending.{ByKey};
ghost use Rattle.og_join.specs.Groups.{AreGroupsOf};

use og_base::NoMemory;
use og_ops::{KeyedRow, with_key};
use std::alloc::Global;
use std::marker::Model;

// A group is large where it has more rows than this. The rows of a small one are counted as quickly as
// the group is found.
const SMALL: usize = 8;

// All rows that have a key.
#[derive(Drop)]
struct Group<'s, 'a, R, K> {
    key: &'s K,
    rows: &'s [KeyedRow<'a, R, K>],
}

// The large groups of the rows, which stand in the order of their keys.
fn large_groups<'s, 'a, R, K: Ord>(
    alloc: Global,
    rows: &'s [KeyedRow<'a, R, K>],
) -> Result<Vec<Group<'s, 'a, R, K>>, NoMemory>
    requires { ByKey K.cmp rows.now }
    ensures { IfOk result (λ v. AreGroupsOf K.cmp rows.now v.items) }
{
    let mut groups = Vec::new(alloc);
    let mut after = 0;
    'rows: for last in SMALL..rows.len() {
        let first = last - SMALL;
        let key = &rows[first].key;
        if first < after || rows[last].key != *key {
            continue;
        }
        let same = with_key(key, rows);
        after = first.saturating_add(same.len());
        groups.push(Group { key, rows: same })?;
    }
    Ok(groups)
}

// Rows in the order of their keys, with their large groups, seen as the rows.
#[derive(Drop)]
pub(crate) struct GroupedRows<'s, 'a, R, K: Ord> {
    rows: &'s [KeyedRow<'a, R, K>],
    groups: Vec<Group<'s, 'a, R, K>>,
}

impl<'s, 'a, R, K: Ord> Model for GroupedRows<'s, 'a, R, K> {
    ghost use Rattle.std.specs.Prelude.{List};
    ghost use Rattle.og_ops.specs.Lending.{ByKey};
    ghost use Rattle.og_ops.specs.declared.semijoins.KeyedRow.{KeyedRow};
    ghost use Rattle.og_join.specs.Groups.{AreGroupsOf};

    ghost Value = { List (KeyedRow R K) };

    ghost view = { λ g. g.rows.now };

    ghost invariant = { λ g. ByKey K.cmp g.rows.now × AreGroupsOf K.cmp g.rows.now g.groups.items };
}

impl<'s, 'a, R, K: Ord> GroupedRows<'s, 'a, R, K> {
    // The rows, which stand in the order of their keys.
    pub(crate) fn of(
        alloc: Global,
        rows: &'s [KeyedRow<'a, R, K>],
    ) -> Result<GroupedRows<'s, 'a, R, K>, NoMemory>
        requires { ByKey K.cmp rows.now }
        ensures { IfOk result (λ g. g ≡ rows.now) }
    {
        let groups = large_groups(alloc, rows)?;
        Ok(GroupedRows { rows, groups })
    }

    // Those of the rows that have the key: a group of them, or what is found among all rows.
    pub(crate) fn of_key(&self, key: &K) -> &'s [KeyedRow<'a, R, K>]
        ensures { result.now ≡ filter (λ other. eq_by_cmp K.cmp other.key key.now) self.now }
    {
        let groups = self.groups.as_slice();
        let place = groups.partition_point(
            |group: &Group<R, K>| -> bool
                ensures { result ≡ is_lt (K.cmp group.now.key.now key.entry.now) }
            { *group.key < *key },
        );
        if place < groups.len() && groups[place].key.cmp(key).is_eq() {
            return groups[place].rows;
        }
        with_key(key, self.rows)
    }
}
