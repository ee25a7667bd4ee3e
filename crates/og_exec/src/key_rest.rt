//! The values of a key behind the first one.
ghost use Rattle.std.specs.Prelude.{◌≡◌};
ghost use Rattle.std.specs.Cmp.Lexicographic.{pointwise, slice_cmp, slice_partial_cmp, lists_per, lists_equiv, lists_po, lists_total, lists_agrees, lists_ties};

use og_value::FixedValue;
use std::cmp::Ordering;
use std::marker::Model;

// Values, seen as their list, in 24 bytes: keys are moved when they are put in order, and most have none of these.
// They are ordered from the left.
#[derive(Drop)]
pub(crate) struct KeyRest {
    values: Vec<FixedValue>,
}

impl Model for KeyRest {
    ghost use Rattle.std.specs.Prelude.{List};
    ghost use Rattle.og_value.specs.declared.value.FixedValue.{FixedValue as OneValue};

    ghost Value = { List OneValue };

    ghost view = { λ r. r.values.items };
}

impl KeyRest {
    // These values.
    pub(crate) fn of(values: Vec<FixedValue>) -> KeyRest
        ensures { result ≡ values.items }
    {
        KeyRest { values }
    }
}

impl PartialEq for KeyRest {
    ghost use Rattle.og_value.specs.contracts.value.FixedValuePartialEq.TheImpl.Laws as derived;

    ghost eq = { pointwise ⟦<FixedValue as PartialEq>⟧.eq };

    ghost laws = { lists_per derived.laws-law };

    fn eq(&self, other: &Self) -> bool {
        self.values.as_slice() == other.values.as_slice()
    }
}

impl Eq for KeyRest {
    ghost use Rattle.og_value.specs.contracts.value.FixedValueEq.TheImpl.Laws as derived;

    ghost laws = { lists_equiv derived.laws-law };
}

impl PartialOrd for KeyRest {
    ghost use Rattle.og_value.specs.contracts.value.FixedValuePartialOrd.TheImpl.Laws as derived;

    ghost partial_cmp = { slice_partial_cmp ⟦<FixedValue as PartialOrd>⟧.partial_cmp };

    ghost laws = { lists_po derived.laws-law };

    fn partial_cmp(&self, other: &Self) -> Option<Ordering> {
        self.values.as_slice().partial_cmp(&other.values.as_slice())
    }
}

impl Ord for KeyRest {
    ghost use Rattle.og_value.specs.contracts.value.FixedValueOrd.TheImpl.Laws as derived;

    ghost cmp = { slice_cmp ⟦<FixedValue as Ord>⟧.cmp };

    ghost total = { lists_total derived.total-law };

    ghost matches_partial_cmp = { lists_agrees derived.matches_partial_cmp-law };

    ghost matches_eq = { lists_ties ⟦<FixedValue as Ord>⟧.cmp derived.matches_eq-law };

    fn cmp(&self, other: &Self) -> Ordering {
        self.values.as_slice().cmp(&other.values.as_slice())
    }
}
