//! The boundaries of cuts, which need no memory of their own.
ghost use Rattle.std.specs.Prelude.{◌≡◌, ◌++◌, ◌≤◌, length};
ghost use Rattle.std.specs.Option.{option_to_list};
ghost use Rattle.og_base.specs.Ranges.{ranges_of_cut, IsNormal};
ghost use Rattle.og_base.specs.Boundaries.{boundaries_of};

use super::boundaries::Few;
use crate::range::{Cut, DayRange};

/// The boundaries of a cut.
pub fn cut_boundaries(c: &Cut) -> Few
    ensures boundaries { result ≡ boundaries_of (ranges_of_cut c.now) }
    ensures normal { IsNormal (ranges_of_cut c.now) }
{
    let mut few = Few::none();
    put(&mut few, c.first);
    put(&mut few, c.second);
    few
}

// Puts the boundaries of the range behind those before.
fn put(few: &mut Few, range: Option<DayRange>)
    requires { length few.old ≤ 2 }
    ensures { few.new ≡ few.old ++ boundaries_of (option_to_list range) }
{
    let Some(range) = range else {
        return;
    };
    few.push(range.lo);
    if let Some(end) = range.hi.as_ref_day() {
        few.push(end);
    }
}
