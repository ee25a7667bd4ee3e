//! The items that an expression sees.
ghost use Rattle.std.specs.Prelude.{◌≡◌, ◌≤◌, [], length};
ghost use Rattle.og_check.specs.Cores.{sees};
ghost use Rattle.og_check.specs.Limits.{max_tables};

use og_value::{Name, Schema};
use std::marker::Model;

/// An item of FROM, seen as its alias and its columns.
#[derive(Drop)]
pub struct Item<'a> {
    alias: &'a Name,
    columns: &'a Schema,
}

impl<'a> Model for Item<'a> {
    ghost use Rattle.og_check.specs.Sight.{Item as OneItem};

    ghost Value = { OneItem };

    ghost view = { λ i. (i.alias.now, i.columns.now) };
}

impl<'a> Item<'a> {
    /// The item of the columns with that alias.
    pub fn of(alias: &'a Name, columns: &'a Schema) -> Item<'a>
        ensures { result ≡ (alias.now, columns.now) }
    {
        Item { alias, columns }
    }

    /// The alias.
    pub fn alias(&self) -> &'a Name
        ensures { result.now ≡ self.now.0 }
    {
        self.alias
    }

    /// The columns.
    pub fn columns(&self) -> &'a Schema
        ensures { result.now ≡ self.now.1 }
    {
        self.columns
    }
}

/// What is in sight: the items of a core, of which there are no more than may stand, and that of a
/// `sub` where the expression stands in one.
#[derive(Drop)]
pub struct Sight<'s, 'a> {
    /// The items of the core.
    pub core: &'s [Item<'a>],
    /// The item of the `sub`, or none.
    pub sub: &'s [Item<'a>],
}

impl<'s, 'a> Model for Sight<'s, 'a> {
    ghost use Rattle.og_check.specs.Sight.{Sight as Seen, IsSight};

    ghost Value = { Seen };

    ghost view = { λ s. record { core = s.core.now; sub = s.sub.now } };

    ghost invariant = { λ s. IsSight (record { core = s.core.now; sub = s.sub.now }) };
}

impl<'s, 'a> Sight<'s, 'a> {
    /// The items of a core alone.
    pub fn of(core: &'s [Item<'a>]) -> Sight<'s, 'a>
        requires { length core.now ≤ max_tables }
        ensures { result ≡ sees core.now }
    {
        Sight { core, sub: &[] }
    }

    /// The items of a core, and that of a `sub`.
    pub fn with_sub(core: &'s [Item<'a>], sub: &'s [Item<'a>]) -> Sight<'s, 'a>
        requires core { length core.now ≤ max_tables }
        requires sub { length sub.now ≤ max_tables }
        ensures { result ≡ record { core = core.now; sub = sub.now } }
    {
        Sight { core, sub }
    }
}
