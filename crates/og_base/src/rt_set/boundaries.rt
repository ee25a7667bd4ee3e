//! Where the boundaries of a set lie.
ghost use Rattle.std.specs.Prelude.{◌≡◌, ◌↔◌, ◌++◌, ◌∷◌, ◌<◌, [], length, IsTrue, IfOk, OnOk};

use crate::day::RefDay;
use crate::memory::NoMemory;
use std::alloc::Global;
use std::marker::Model;

// How many days lie in the value itself: the boundaries of two ranges. With their number and the tag they fill the
// room that a list in memory takes.
const FEW: usize = 4;

// For how many days a set may keep room that it does not use: to give back so little costs more time than
// it saves memory.
const SPARE: usize = 8;

/// At most four days, in order. They take no memory of their own.
#[derive(Drop)]
pub struct Few {
    count: usize,
    days: [RefDay; FEW],
}

impl Model for Few {
    ghost use Rattle.std.specs.Prelude.{List, ℤ, ◌≤◌, take};

    ghost Value = { List ℤ };

    ghost view = { λ f. take f.count f.days };

    ghost invariant = { λ f. f.count ≤ 4 };
}

impl Few {
    /// No day.
    pub fn none() -> Few
        ensures { result ≡ [] }
    {
        Few {
            count: 0,
            days: [RefDay::FIRST; FEW],
        }
    }

    /// One day.
    pub fn one(day: RefDay) -> Few
        ensures { result ≡ day ∷ [] }
    {
        Few {
            count: 1,
            days: [day; FEW],
        }
    }

    /// Two days.
    pub fn two(first: RefDay, second: RefDay) -> Few
        ensures { result ≡ first ∷ second ∷ [] }
    {
        Few {
            count: 2,
            days: [first, second, second, second],
        }
    }

    /// The days.
    pub fn as_slice(&self) -> &[RefDay]
        ensures { result.now ≡ self.now }
    {
        &self.days[..self.count]
    }

    // The same days once more.
    fn copy(&self) -> Few
        ensures { result ≡ self.now }
    {
        Few {
            count: self.count,
            days: self.days,
        }
    }

    // Whether one more day fits.
    fn has_room(&self) -> bool
        ensures { IsTrue result ↔ (length self.now < 4) }
    {
        self.as_slice().len() < FEW
    }

    /// Adds the day behind the others.
    pub fn push(&mut self, day: RefDay)
        requires { length self.old < 4 }
        ensures { self.new ≡ self.old ++ day ∷ [] }
    {
        self.days[self.count] = day;
        self.count += 1;
    }
}

// The two places where days may lie.
#[derive(Drop)]
enum Held {
    // In the value itself.
    Few(Few),
    // In memory: more than four.
    Many(Vec<RefDay>),
}

/// The boundaries of a set, in order. At most four take no memory of their own.
pub struct Boundaries {
    held: Held,
}

// A call of its own: what drops a set has one step for it, wherever its boundaries lie.
impl Drop for Boundaries {
    fn drop(self) {
        let Boundaries { held: _held } = self;
    }
}

impl Model for Boundaries {
    ghost use Rattle.std.specs.Prelude.{List, ℤ};
    ghost use Rattle.og_base.specs.Held.{held_days, IsHeld};

    ghost Value = { List ℤ };

    ghost view = { λ b. held_days b.held };

    ghost invariant = { λ b. IsHeld b.held };
}

/// Where boundaries go that are more than four, and for how many room is taken then.
#[derive(Clone, Copy)]
pub struct Room {
    pub alloc: Global,
    pub days: usize,
}

impl Boundaries {
    /// No boundary.
    pub fn none() -> Boundaries
        ensures { result ≡ [] }
    {
        Boundaries::of(Few::none())
    }

    /// At most four boundaries.
    pub fn of(few: Few) -> Boundaries
        ensures { result ≡ few }
    {
        Boundaries {
            held: Held::Few(few),
        }
    }

    /// The days.
    pub fn as_slice(&self) -> &[RefDay]
        ensures { result.now ≡ self.now }
    {
        match &self.held {
            Held::Few(days) => days.as_slice(),
            Held::Many(days) => days.as_slice(),
        }
    }

    /// The same boundaries once more. More than four take memory of their own.
    pub fn copy(&self, alloc: Global) -> Result<Boundaries, NoMemory>
        ensures { IfOk result (λ b. b ≡ self.now) }
    {
        let held = match &self.held {
            Held::Few(days) => Held::Few(days.copy()),
            Held::Many(days) => Held::Many(Vec::from_slice(alloc, days.as_slice())?),
        };
        Ok(Boundaries { held })
    }

    /// Adds the day behind the others. The fifth takes memory.
    pub fn push(&mut self, room: Room, day: RefDay) -> Result<(), NoMemory>
        ensures { OnOk result (self.new ≡ self.old ++ day ∷ []) }
    {
        match &mut self.held {
            Held::Many(days) => days.push(day)?,
            Held::Few(days) => {
                if days.has_room() {
                    days.push(day);
                } else {
                    self.held = Held::Many(one_more(room, days.as_slice(), day)?);
                }
            }
        }
        Ok(())
    }

    /// Gives back the room that the days do not use, where it is worth it.
    pub fn give_back(&mut self)
        ensures { self.new ≡ self.old }
    {
        if let Held::Many(days) = &mut self.held {
            if days.capacity().saturating_sub(days.len()) > SPARE {
                days.shrink_to_fit();
            }
        }
    }
}

// The days with one more behind them, in memory.
fn one_more(room: Room, days: &[RefDay], day: RefDay) -> Result<Vec<RefDay>, NoMemory>
    ensures { IfOk result (λ v. v.items ≡ days.now ++ day ∷ []) }
{
    let mut many = Vec::with_capacity(room.alloc, room.days)?;
    many.extend_from_slice(days)?;
    many.push(day)?;
    Ok(many)
}
