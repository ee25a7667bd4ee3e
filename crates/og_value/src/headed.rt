//! Values beside the number that stands first among them.
ghost use Rattle.std.specs.Prelude.{◌≡◌, ◌<◌, ◌++◌, ◌∷◌, [], length, slice_get, Some, IfOk, OnOk, OnErr};
ghost use Rattle.std.specs.Cmp.Lexicographic.{pointwise, lists_per, lists_equiv};
ghost use Rattle.og_value.specs.Heads.{IsHead, number_at};

use crate::listed::Listed;
use crate::value::Value;
use og_base::NoMemory;
use std::alloc::Global;
use std::fmt;
use std::marker::Model;

/// Values, seen as their list. Where the first is a number, it stands beside them too, so that it is told without a
/// look at the memory in which they lie.
#[derive(Drop)]
pub(crate) struct Headed {
    first: i64,
    values: Listed<Value>,
}

impl fmt::Debug for Headed {
    fn fmt<W: fmt::Write>(&self, f: &mut fmt::Formatter<W>) -> fmt::Result {
        self.values.fmt(f)
    }
}

impl Model for Headed {
    ghost use Rattle.std.specs.Prelude.{List};
    ghost use Rattle.og_value.specs.Heads.{IsHead};
    ghost use Rattle.og_value.specs.declared.value.Value.{Value as OneValue};

    ghost Value = { List OneValue };

    ghost view = { λ h. h.values };

    ghost invariant = { λ h. IsHead h.values h.first };
}

impl Headed {
    /// The same list.
    pub(crate) fn of(values: Listed<Value>) -> Headed
        ensures { result ≡ values }
    {
        Headed {
            first: first_number(values.as_slice()),
            values,
        }
    }

    /// No values.
    pub(crate) fn empty(alloc: Global) -> Headed
        ensures { result ≡ [] }
    {
        Headed {
            first: 0,
            values: Listed::empty(alloc),
        }
    }

    /// No values, with room for so many.
    pub(crate) fn with_room(alloc: Global, count: usize) -> Result<Headed, NoMemory>
        ensures { IfOk result (λ list. list ≡ []) }
    {
        let values = Listed::with_room(alloc, count)?;
        Ok(Headed { first: 0, values })
    }

    /// Adds the value behind the others. The list stays as it is where memory runs out.
    pub(crate) fn push(&mut self, value: Value) -> Result<(), NoMemory>
        ensures pushed { OnOk result (self.new ≡ self.old ++ value ∷ []) }
        ensures refused { OnErr result (self.new ≡ self.old) }
    {
        self.values.push(value)?;
        self.first = first_number(self.values.as_slice());
        Ok(())
    }

    /// The number of values.
    pub(crate) fn len(&self) -> usize
        ensures { result ≡ length self.now }
    {
        self.values.len()
    }

    /// The value with that number, counted from 0.
    pub(crate) fn value(&self, i: usize) -> &Value
        requires { i < length self.now }
        ensures { slice_get self.now i ≡ Some result.now }
    {
        self.values.part(i)
    }

    /// The number that stands at the place, counted from 0; None where there is another value or none.
    pub(crate) fn number(&self, i: usize) -> Option<i64>
        ensures { result ≡ number_at self.now i }
    {
        if i == 0 && self.first != 0 {
            return Some(self.first);
        }
        match self.values.as_slice().get(i) {
            Some(Value::Int(n)) => Some(*n),
            _ => None,
        }
    }

    /// The values.
    pub(crate) fn as_slice(&self) -> &[Value]
        ensures { result.now ≡ self.now }
    {
        self.values.as_slice()
    }
}

// The first of the values where it is a number, and 0 where it is none.
fn first_number(values: &[Value]) -> i64
    ensures { IsHead values.now result }
{
    match values.first() {
        Some(Value::Int(n)) => *n,
        _ => 0,
    }
}

impl PartialEq for Headed {
    ghost use Rattle.og_value.specs.contracts.value.ValuePartialEq.TheImpl.Laws as derived;

    ghost eq = { pointwise ⟦<Value as PartialEq>⟧.eq };

    ghost laws = { lists_per derived.laws-law };

    fn eq(&self, other: &Self) -> bool {
        self.values == other.values
    }
}

impl Eq for Headed {
    ghost use Rattle.og_value.specs.contracts.value.ValueEq.TheImpl.Laws as derived;

    ghost laws = { lists_equiv derived.laws-law };
}
