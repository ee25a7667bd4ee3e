//! Views that follow a delta of a table.
ghost use Rattle.std.specs.Prelude.{◌≡◌, ◌<◌, OnOk, true};
ghost use Rattle.og_db.specs.Deltas.{IsDelta};
ghost use Rattle.og_session.specs.Following.{ArePaired, Follows, IsEnded, IsSame};
ghost use Rattle.og_session.specs.Names.{AreLiveViews};

use indexmap::IndexMap;
use og_base::NoMemory;
use og_db::{Db, Delta};
use og_par::{Crew, Gate};
use og_value::Name;
use og_view::View;
use std::thread::Threads;

/// Keeps beside the rows that views use the numbers in their columns, by which what follows looks up rows. Takes
/// memory where there is some.
pub fn keep_columns(db: &mut Db, views: &IndexMap<Name, View>)
    ensures { db.new ≡ db.old }
{
    'names: for at in 0..db.len() {
        if is_used(db.name_at(at), views) {
            db.keep_columns(at);
        }
    }
}

// Whether a view uses the name.
fn is_used(name: &Name, views: &IndexMap<Name, View>) -> bool {
    'views: for at in 0..views.len() {
        if views[at].uses(name) {
            return true;
        }
    }
    false
}

/// Lets each view follow the delta of the table. Refused only for want of memory; then some have followed. No
/// result changes.
pub fn follow<H: Threads + Sync, G: Gate + Sync>(
    crew: &Crew<'_, H, G>,
    db: &Db,
    name: &Name,
    delta: &Delta,
    views: &mut IndexMap<Name, View>,
) -> Result<(), NoMemory>
    requires live { AreLiveViews db.now views.old.entries }
    requires delta { IsDelta db.now name.now delta.now }
    ensures followed { OnOk result (ArePaired (Follows db.now name.now delta.now) views.old.entries views.new.entries) }
    ensures same { ArePaired IsSame views.old.entries views.new.entries }
{
    'views: for at in 0..views.len() {
        views[at].follow(crew, db, name, delta)?;
    }
    Ok(())
}

/// Lets no view follow any more: puts what each result is to be, where the delta is in its table, and lets
/// each be what it is where it is not. Takes no memory.
pub fn end(done: bool, views: &mut IndexMap<Name, View>)
    ensures { ArePaired (IsEnded done) views.old.entries views.new.entries }
{
    'views: for at in 0..views.len() {
        if done {
            views[at].put();
        } else {
            views[at].undo();
        }
    }
}
