//! A list of parts, as contracts see it, and its order.
ghost use Rattle.std.specs.Prelude.{◌≡◌, ◌<◌, ◌++◌, ◌∷◌, [], length, slice_get, Some, IfOk, IfErr, OnOk, OnErr};
ghost use Rattle.std.specs.Cmp.Lexicographic.{pointwise, slice_cmp, slice_partial_cmp, lists_per, lists_equiv, lists_po, lists_total, lists_agrees, lists_ties};
ghost use Rattle.og_value.specs.Places.{parts_in, IsFew};

use og_base::NoMemory;
use std::alloc::Global;
use std::cmp::Ordering;
use std::marker::Model;
use std::{fmt, mem, slice};

// How many parts lie in the value itself.
const FEW: usize = 2;

// For how many parts a list takes room that grows past those.
const ROOM: usize = 4;

// Where the parts of a list lie.
#[derive(Drop)]
enum Places<T> {
    // There is none.
    Empty,
    // In the value itself.
    One(T),
    Two([T; FEW]),
    // In memory.
    Many(Vec<T>),
}

impl<T: Drop> Places<T> {
    // The places of the parts of the vector. At most two parts move out of it.
    fn of(mut parts: Vec<T>) -> Places<T>
        ensures { parts_in result ≡ parts.items }
    {
        if parts.len() > FEW {
            return Places::Many(parts);
        }
        let last = parts.pop();
        match (parts.pop(), last) {
            (Some(first), Some(second)) => Places::Two([first, second]),
            (_, Some(only)) => Places::One(only),
            _ => Places::Empty,
        }
    }
}

/// Parts, seen as their list. At most two take no memory of their own. Lists are ordered from the left,
/// and a list comes after each front of it.
pub struct Listed<T> {
    alloc: Global,
    places: Places<T>,
}

// A call of its own: what drops a list has one step for it, wherever its parts lie.
impl<T: Drop> Drop for Listed<T> {
    fn drop(self) {
        let Listed {
            alloc: _alloc,
            places: _places,
        } = self;
    }
}

impl<T: fmt::Debug> fmt::Debug for Listed<T> {
    fn fmt<W: fmt::Write>(&self, f: &mut fmt::Formatter<W>) -> fmt::Result {
        fmt::Debug::fmt(&self.as_slice(), f)
    }
}

impl<T> Model for Listed<T> {
    ghost use Rattle.std.specs.Prelude.{List};
    ghost use Rattle.og_value.specs.Places.{parts_in};

    ghost Value = { List T };

    ghost view = { λ l. parts_in l.places };
}

impl<T> Listed<T> {
    /// The parts.
    pub fn as_slice(&self) -> &[T]
        ensures { result.now ≡ self.now }
    {
        match &self.places {
            Places::Empty => &[],
            Places::One(part) => slice::from_ref(part),
            Places::Two(parts) => parts,
            Places::Many(parts) => parts.as_slice(),
        }
    }

    /// Where the list takes its memory.
    pub fn allocator(&self) -> Global {
        self.alloc
    }

    /// The number of parts.
    pub fn len(&self) -> usize
        ensures { result ≡ length self.now }
    {
        self.as_slice().len()
    }

    /// The part with that number, counted from 0.
    pub fn part(&self, i: usize) -> &T
        requires { i < length self.now }
        ensures { slice_get self.now i ≡ Some result.now }
    {
        &self.as_slice()[i]
    }
}

impl<T: Drop> Listed<T> {
    /// The list of the parts.
    pub fn of(parts: Vec<T>) -> Listed<T>
        ensures { result ≡ parts.items }
    {
        Listed {
            alloc: *parts.allocator(),
            places: Places::of(parts),
        }
    }

    /// The list of no parts.
    pub fn empty(alloc: Global) -> Listed<T>
        ensures { result ≡ [] }
    {
        Listed {
            alloc,
            places: Places::Empty,
        }
    }

    /// A list of no parts, with room for so many.
    pub fn with_room(alloc: Global, count: usize) -> Result<Listed<T>, NoMemory>
        ensures { IfOk result (λ list. list ≡ []) }
    {
        let places = if count > FEW {
            Places::Many(Vec::with_capacity(alloc, count)?)
        } else {
            Places::Empty
        };
        Ok(Listed { alloc, places })
    }

    /// Adds the part behind the others. The list stays as it is where memory runs out.
    pub fn push(&mut self, part: T) -> Result<(), NoMemory>
        ensures pushed { OnOk result (self.new ≡ self.old ++ part ∷ []) }
        ensures refused { OnErr result (self.new ≡ self.old) }
    {
        match &mut self.places {
            Places::Many(parts) => parts.push(part)?,
            few => push_few(few, self.alloc, part)?,
        }
        Ok(())
    }
}

// Adds the part behind those in the value itself.
fn push_few<T: Drop>(places: &mut Places<T>, alloc: Global, part: T) -> Result<(), NoMemory>
    requires { IsFew places.old }
    ensures pushed { OnOk result (parts_in places.new ≡ parts_in places.old ++ part ∷ []) }
    ensures refused { OnErr result (parts_in places.new ≡ parts_in places.old) }
{
    match mem::replace(places, Places::Empty) {
        Places::Empty => *places = Places::One(part),
        Places::One(first) => *places = Places::Two([first, part]),
        Places::Two(both) => match spilled(alloc, both, part) {
            Ok(parts) => *places = Places::Many(parts),
            Err(both) => {
                *places = Places::Two(both);
                return Err(NoMemory);
            }
        },
        Places::Many(_parts) => unreachable!(),
    }
    Ok(())
}

// The three parts in memory, or the first two once more where memory runs out.
fn spilled<T: Drop>(alloc: Global, both: [T; FEW], part: T) -> Result<Vec<T>, [T; FEW]>
    ensures moved { IfOk result (λ parts. parts.items ≡ both ++ part ∷ []) }
    ensures refused { IfErr result (λ back. back ≡ both) }
{
    let Ok(mut parts) = Vec::with_capacity(alloc, ROOM) else {
        return Err(both);
    };
    let [first, second] = both;
    parts.push_reserved(first);
    parts.push_reserved(second);
    parts.push_reserved(part);
    Ok(parts)
}

impl<T: PartialEq> PartialEq for Listed<T> {
    ghost eq = { pointwise T.eq };

    ghost laws = { lists_per T.laws };

    fn eq(&self, other: &Self) -> bool {
        self.as_slice() == other.as_slice()
    }
}

impl<T: Eq> Eq for Listed<T> {
    ghost laws = { lists_equiv T.Eq.laws };
}

impl<T: PartialOrd> PartialOrd for Listed<T> {
    ghost partial_cmp = { slice_partial_cmp T.partial_cmp };

    ghost laws = { lists_po T.PartialOrd.laws };

    fn partial_cmp(&self, other: &Self) -> Option<Ordering> {
        self.as_slice().partial_cmp(&other.as_slice())
    }
}

impl<T: Ord> Ord for Listed<T> {
    ghost cmp = { slice_cmp T.cmp };

    ghost total = { lists_total T.total };

    ghost matches_partial_cmp = { lists_agrees T.matches_partial_cmp };

    ghost matches_eq = { lists_ties T.cmp T.matches_eq };

    fn cmp(&self, other: &Self) -> Ordering {
        self.as_slice().cmp(&other.as_slice())
    }
}
