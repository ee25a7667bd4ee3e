//! Live results that end with the DROP of a name.
ghost use Rattle.std.specs.Prelude.{◌≡◌, ◌++◌, ◌<◌, ◌∷◌, [], ℕ, List, None, Some, length};
ghost use Rattle.std.specs.List.{IsDistinct};
ghost use Rattle.std.specs.Map.{keys_of};
ghost use Rattle.std.specs.Str.{bytes_eq};
ghost use Rattle.og_value.specs.declared.kind.What.TheVariants as what;
ghost use Rattle.og_db.specs.Database.{HaveKinds};
ghost use Rattle.og_db.specs.Held.{known_of};
ghost use Rattle.og_view.specs.Views.{Seen};
ghost use Rattle.og_session.specs.Following.{lasting, settle_one, settle_views, view_ends};
ghost use Rattle.og_session.specs.Names.{AreLiveViews, Views};

use indexmap::IndexMap;
use og_db::Db;
use og_value::Name;
use og_view::View;

/// Takes out each view that ends with the DROP of the name, and makes its live result a kept one with the rows
/// of the view. Takes no memory.
pub fn settle_all(name: &Name, views: &mut IndexMap<Name, View>, db: &mut Db)
    requires { AreLiveViews db.old views.old.entries }
    ensures apart { IsDistinct bytes_eq (keys_of views.old.entries) }
    ensures left { views.new.entries ≡ lasting name.now views.old.entries }
    ensures settled { db.new ≡ settle_views name.now views.old.entries db.old }
{
    let count = views.len();
    // From the last on, so that the places of those before it stay.
    'views: for done in 0..count {
        settle_at(count - 1 - done, name, views, db);
    }
}

// The same of the view at that place.
fn settle_at(at: usize, name: &Name, views: &mut IndexMap<Name, View>, db: &mut Db)
    requires live { (front back : Views) (v : List ℕ × Seen) → views.old.entries ≡ front ++ v ∷ back → length front ≡ at →
        (known_of db.old v.0 ≡ Some (what.Live, v.1.query.first.schema)) × (v.1.next ≡ None) × HaveKinds v.1.query.first.schema v.1.result }
    ensures { (front back : Views) (v : List ℕ × Seen) → views.old.entries ≡ front ++ v ∷ back → length front ≡ at →
        (views.new.entries ≡ front ++ (lasting name.now (v ∷ []) ++ back)) × (db.new ≡ settle_one name.now v db.old) }
{
    if !ends_at(at, name, views) {
        return;
    }
    let Some((key, view)) = views.shift_remove_index(at) else {
        return;
    };
    db.settle(&key, view.into_rel());
}

// Whether the view at that place ends with the DROP of the name.
fn ends_at(at: usize, name: &Name, views: &IndexMap<Name, View>) -> bool
    ensures { (front back : Views) (v : List ℕ × Seen) → views.now.entries ≡ front ++ v ∷ back → length front ≡ at → result ≡ view_ends name.now v }
{
    match views.get_index(at) {
        Some((key, view)) => *name == *key || view.uses(name),
        None => false,
    }
}
