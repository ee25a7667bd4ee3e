//! The traits of rows at small types: a deadline, whether it has passed, and putting it off.
ghost use Rattle.std.specs.Prelude.{◌≡◌, int_lt};

use og_base::{
    DayCond, ExtDay, Glue, Grouped, Groups, Instant, NoMemory, OngoingRow, RefDay, RowMap, RtSet,
};
use std::alloc::Global;

/// A row that is the same day on every day.
#[derive(Clone, Copy, Debug)]
pub struct Deadline {
    pub day: RefDay,
}

impl Instant for Deadline {
    ghost use Rattle.std.proofs.lemmas.Map.Lookups.{exact_signed};

    type Fixed = RefDay;

    ghost meaning = { λ row d. row.day };

    fn at(&self, _alloc: Global, _d: RefDay) -> Result<RefDay, NoMemory> {
        Ok(self.day)
    }

    ghost exact = { exact_signed };
}

impl OngoingRow for Deadline {
    fn same(&self, alloc: Global, other: &Deadline) -> Result<RtSet, NoMemory> {
        if self.day == other.day {
            RtSet::all(alloc)
        } else {
            Ok(RtSet::empty(alloc))
        }
    }

    fn copy(&self, _alloc: Global) -> Result<Deadline, NoMemory> {
        Ok(*self)
    }
}

/// A deadline stands in the group of its day, and seeks there.
impl Grouped for Deadline {
    ghost use Rattle.og_samples.specs.DayGroups.{day_groups, days_grouped};

    ghost standing = { λ row. day_groups row.day };

    ghost seeking = { λ row. day_groups row.day };

    fn stands_in(&self) -> Groups {
        let group = i64::from(self.day.number()).cast_unsigned();
        Groups {
            first: group,
            second: group,
        }
    }

    fn seeks_in(&self) -> Groups {
        self.stands_in()
    }

    ghost grouped = { λ x y d day same. days_grouped x.day y.day same };
}

impl Glue for Deadline {
    ghost glued = { λ left right. right };

    fn glue(&self, _alloc: Global, right: &Deadline) -> Result<Deadline, NoMemory> {
        Ok(*right)
    }
}

/// The condition that a deadline is before the day.
#[derive(Clone, Copy, Debug)]
pub struct Passed;

impl DayCond<Deadline> for Passed {
    ghost holds = { λ condition d x. int_lt x d };

    fn days(&self, alloc: Global, row: &Deadline) -> Result<RtSet, NoMemory> {
        RtSet::above(alloc, ExtDay::of(row.day))
    }
}

/// The map that puts every deadline off to one day.
#[derive(Clone, Copy, Debug)]
pub struct PutOff {
    pub to: RefDay,
}

impl RowMap<Deadline> for PutOff {
    ghost image = { λ map d x. map.to };

    fn map(&self, _alloc: Global, _row: &Deadline) -> Result<Deadline, NoMemory> {
        Ok(Deadline { day: self.to })
    }
}

#[cfg(test)]
mod tests {
    use super::*;

    #[test]
    fn a_deadline_passes_on_the_day_after_it(rt: HostRuntime) {
        let alloc = rt.alloc();
        let first = Deadline { day: RefDay::FIRST };
        let last = Deadline { day: RefDay::LAST };
        let row = glued(alloc, &last, &first).expect(&rt, "memory");
        let later = mapped(alloc, &PutOff { to: last.day }, &row).expect(&rt, "memory");
        assert!(rt; passes_after_it(alloc, row));
        assert!(rt; passes_on_no_day(alloc, later));
        let copy = copied(alloc, &row).expect(&rt, "memory");
        assert!(rt; are_alike(alloc, &row, &copy, true) && are_alike(alloc, &row, &later, false));
    }

    // Whether the deadline is the first day, and has passed on the last.
    fn passes_after_it(alloc: Global, row: Deadline) -> bool {
        has_value(alloc, &row, RefDay::LAST, &RefDay::FIRST)
            && holds(alloc, &Passed, &row, RefDay::LAST, true)
            && holds(alloc, &Passed, &row, RefDay::FIRST, false)
    }

    // Whether the deadline has not passed on the last day.
    fn passes_on_no_day(alloc: Global, row: Deadline) -> bool {
        holds(alloc, &Passed, &row, RefDay::LAST, false)
    }

    // The second row glued to the first.
    fn glued<R: Glue>(alloc: Global, left: &R, right: &R) -> Result<R, NoMemory> {
        left.glue(alloc, right)
    }

    // Whether this is the row's value on the day.
    fn has_value<R: Instant>(alloc: Global, row: &R, d: RefDay, value: &R::Fixed) -> bool {
        match row.at(alloc, d) {
            Ok(found) => found == *value,
            Err(_) => false,
        }
    }

    // Whether both rows are equal on the last day where they are to be alike, and else on no day.
    fn are_alike<R: OngoingRow>(alloc: Global, left: &R, right: &R, alike: bool) -> bool {
        match left.same(alloc, right) {
            Ok(days) => days.contains(RefDay::LAST) == alike && days.is_empty() != alike,
            Err(_) => false,
        }
    }

    // The same row once more.
    fn copied<R: OngoingRow>(alloc: Global, row: &R) -> Result<R, NoMemory> {
        row.copy(alloc)
    }

    // The image of the row.
    fn mapped<R: Instant, M: RowMap<R>>(alloc: Global, map: &M, row: &R) -> Result<R, NoMemory> {
        map.map(alloc, row)
    }

    // Whether it is told of the condition that it holds of the row on the day, or that it does not.
    fn holds<R: Glue + Drop, C: DayCond<R>>(
        alloc: Global,
        condition: &C,
        row: &R,
        d: RefDay,
        held: bool,
    ) -> bool {
        match condition.days(alloc, row) {
            Ok(days) => days.contains(d) == held,
            Err(_) => false,
        }
    }
}
