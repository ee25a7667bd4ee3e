//! Elements taken out of a list by their places.
ghost use Rattle.std.specs.Prelude.{◌≡◌, length};
ghost use Rattle.og_rel.specs.Places.{ArePlaces, others_at};

/// Takes the elements at places out; the others keep their order. Takes no memory.
pub fn remove_at<T: Drop>(items: &mut Vec<T>, at: &[usize])
    requires { ArePlaces at.now (length items.old.items) }
    ensures { items.new.items ≡ others_at at.now items.old.items }
{
    let mut kept = 0;
    let mut k = 0;
    'items: for i in 0..items.len() {
        if k < at.len() && at[k] == i {
            k += 1;
        } else {
            items.swap(kept, i);
            kept += 1;
        }
    }
    items.truncate(kept);
}
