//! The values that the columns of an expression name.
ghost use Rattle.std.specs.Prelude.{◌≡◌, slice_get};
ghost use Rattle.std.specs.Option.{option_map};

use og_value::{Row, Value};
use std::marker::Model;

// The values of one row and then those of another, seen as their list.
#[derive(Drop)]
pub(crate) struct Columns<'a> {
    pub(crate) left: &'a Row,
    pub(crate) right: &'a Row,
}

impl<'a> Model for Columns<'a> {
    ghost use Rattle.std.specs.Prelude.{List, ◌++◌};
    ghost use Rattle.og_value.specs.declared.value.Value.{Value as OneValue};

    ghost Value = { List OneValue };

    ghost view = { λ c. c.left.now ++ c.right.now };
}

impl<'a> Columns<'a> {
    // The value at the place; None where there is no such place.
    pub(crate) fn get(&self, place: usize) -> Option<&'a Value>
        ensures { option_map (λ v. v.now) result ≡ slice_get self.now place }
    {
        let count = self.left.len();
        if place < count {
            return Some(self.left.value(place));
        }
        self.right.get(place - count)
    }
}
