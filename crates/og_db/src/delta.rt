//! What a statement makes of the rows of a table.
ghost use Rattle.std.specs.Prelude.{◌++◌, OnOk, OnErr, length};
ghost use Rattle.std.specs.List.Sorted.{IsPermutation};
ghost use Rattle.og_rel.specs.Places.{ArePlaces};
ghost use Rattle.og_db.specs.Deltas.{rows_after};
ghost use Rattle.std.specs.Prelude.{◌≡◌};

use og_base::NoMemory;
use og_reduce::Stored;
use og_rel::Rel;
use og_value::Row;

/// What a statement makes of the rows of a table: an INSERT or IMPORT touches none, a DELETE adds none.
#[derive(Drop)]
pub struct Delta {
    /// The places of the rows that it touches, which rise.
    pub at: Vec<usize>,
    /// What is left of these rows, each on its days.
    pub left: Rel<Row>,
    /// What is gone of them, each on the days on which it was there.
    pub gone: Rel<Row>,
    /// The rows that are new, each on its days.
    pub added: Rel<Row>,
}

// Puts a delta into the rows: what is left of the touched rows and what is new comes to their places, in order, and
// stands behind the others where there is more; where there is less, the others close up.
pub(crate) fn apply(rows: &mut Stored, delta: Delta) -> Result<(), NoMemory>
    requires { ArePlaces delta.at.items (length rows.old) }
    ensures applied { OnOk result (IsPermutation rows.new (rows_after delta rows.old)) }
    ensures refused { OnErr result (rows.new ≡ rows.old) }
{
    let mut more = delta.left;
    more.append(delta.added)?;
    let came = more.len();
    // Those that come to the places are taken from the end.
    more.rotate_left(delta.at.len().min(came));
    rows.append(more)?;
    rows.take_out(delta.at.as_slice(), came);
    Ok(())
}
