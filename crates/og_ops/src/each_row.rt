//! Rows each of which becomes others by itself: of a whole relation, by one worker and by several.
ghost use Rattle.std.specs.Prelude.{◌≡◌, ◌++◌, ◌+◌, ◌*◌, ◌≤◌, ℕ, ℤ, List, [], ◌∷◌, IfOk, OnOk, length};
ghost use Rattle.std.specs.List.{flat_map};
ghost use Rattle.og_base.specs.Calendar.{IsRefDay};
ghost use Rattle.og_rel.specs.Pairs.{present_of_pairs};
ghost use Rattle.og_rel.specs.Relations.{passing, present};

use og_base::{Glue, NoMemory, RtSet};
use og_par::{Crew, Gate, Piece, par_rows};
use og_rel::{Pair, Rel, RowTest, blocks_of};
use std::alloc::Global;
use std::thread::Threads;

// How many rows a worker has at least: fewer are done sooner than a thread begins.
const LEAST: usize = 4096;

// What a row becomes by itself.
pub(crate) trait EachRow<R: Glue> {
    // What the rows of a day become.
    ghost becomes: { Self → ℤ → List R.Fixed → List R.Fixed };

    // How many rows one becomes at most.
    ghost most_of_one: { Self → ℕ };

    // Adds what the row becomes on those days.
    fn put(&self, alloc: Global, row: &R, days: &RtSet, made: &mut Rel<R>) -> Result<(), NoMemory>
        ensures rows { OnOk result ((d : ℤ) → IsRefDay d → present R.meaning made.new d
            ≡ present R.meaning made.old d ++ becomes self.now d (present R.meaning ((row.now, days.now) ∷ []) d)) }
        ensures size { OnOk result (length made.new ≤ length made.old + most_of_one self.now) };

    // Rows one after the other become what each of them becomes, one after the other.
    ghost along: { (op : Self) (d : ℤ) (xs ys : List R.Fixed) → becomes op d (xs ++ ys) ≡ becomes op d xs ++ becomes op d ys };
}

// What the rows of the relation become.
pub(crate) fn each_row<R: Glue + Drop, O: EachRow<R>>(
    alloc: Global,
    op: &O,
    rel: &Rel<R>,
) -> Result<Rel<R>, NoMemory>
    ensures law { IfOk result (λ r. (d : ℤ) → IsRefDay d → present R.meaning r d ≡ O.becomes op.now d (present R.meaning rel.now d)) }
    ensures size { IfOk result (λ r. length r ≤ O.most_of_one op.now * length rel.now) }
{
    each_pair(alloc, op, rel.pairs())
}

// What those of the rows become that pass the test.
pub(crate) fn each_passing<R: Glue + Drop, O: EachRow<R>, T: RowTest<R>>(
    alloc: Global,
    op: &O,
    rel: &Rel<R>,
    test: &T,
) -> Result<Rel<R>, NoMemory>
    ensures law { IfOk result (λ r. (d : ℤ) → IsRefDay d → present R.meaning r d ≡ O.becomes op.now d (present R.meaning (passing (T.passes test.now) rel.now) d)) }
    ensures size { IfOk result (λ r. length r ≤ O.most_of_one op.now * length (passing (T.passes test.now) rel.now)) }
{
    let pairs = rel.pairs();
    let mut made = Rel::new(alloc);
    'pairs: for pair in pairs {
        put_passing(alloc, op, pair, test, &mut made)?;
    }
    Ok(made)
}

// Adds what the row of the pair becomes, where it passes the test.
fn put_passing<R: Glue + Drop, O: EachRow<R>, T: RowTest<R>>(
    alloc: Global,
    op: &O,
    pair: &Pair<R>,
    test: &T,
    made: &mut Rel<R>,
) -> Result<(), NoMemory>
    ensures rows { OnOk result ((d : ℤ) → IsRefDay d → present R.meaning made.new d
        ≡ present R.meaning made.old d ++ O.becomes op.now d (present R.meaning (passing (T.passes test.now) ((pair.now.row, pair.now.days) ∷ [])) d)) }
    ensures size { OnOk result (length made.new ≤ length made.old + O.most_of_one op.now * length (passing (T.passes test.now) ((pair.now.row, pair.now.days) ∷ []))) }
{
    if !test.test(&pair.row) {
        return Ok(());
    }
    op.put(alloc, &pair.row, &pair.days, made)
}

// What the rows of the relation become, by the workers: each makes it of a block of rows.
pub(crate) fn each_row_by_workers<
    H: Threads + Sync,
    R: Glue + Drop + Sync + Send,
    O: EachRow<R> + Sync,
    G: Gate + Sync,
>(crew: &Crew<'_, H, G>, op: &O, rel: &Rel<R>) -> Result<Rel<R>, NoMemory>
where
    R::Fixed: Send,
    ensures law { IfOk result (λ r. (d : ℤ) → IsRefDay d → present R.meaning r d ≡ O.becomes op.now d (present R.meaning rel.now d)) }
    ensures size { IfOk result (λ r. length r ≤ O.most_of_one op.now * length rel.now) }
{
    // Each worker has `LEAST` rows.
    let busy = crew.at_most(rel.len() / LEAST);
    let blocks = blocks_of(crew.alloc(), busy.workers(), rel.pairs())?;
    let parts = par_rows(&busy, blocks.as_slice(), &OfBlock { op })?;
    one_after_another(crew.alloc(), parts)
}

// Makes of a block of pairs what its rows become.
#[derive(Drop)]
struct OfBlock<'o, O> {
    op: &'o O,
}

impl<'b, 'o, R: Glue + Drop, O: EachRow<R>> Piece<&'b [Pair<R>]> for OfBlock<'o, O> {
    ghost use Rattle.og_ops.specs.Each.{IsMadeOf};

    type Out = Rel<R>;

    ghost gives = { λ piece block made. IsMadeOf R.meaning (O.becomes piece.op.now) (O.most_of_one piece.op.now) block.now made };

    fn make(
        &self,
        alloc: Global,
        item: &&'b [Pair<R>],
        out: &mut Vec<Rel<R>>,
    ) -> Result<(), NoMemory> {
        let rel = each_pair(alloc, self.op, *item)?;
        out.push(rel)?;
        Ok(())
    }
}

// What the rows of the pairs become.
fn each_pair<R: Glue + Drop, O: EachRow<R>>(
    alloc: Global,
    op: &O,
    pairs: &[Pair<R>],
) -> Result<Rel<R>, NoMemory>
    ensures law { IfOk result (λ r. (d : ℤ) → IsRefDay d → present R.meaning r d ≡ O.becomes op.now d (present_of_pairs R.meaning pairs.now d)) }
    ensures size { IfOk result (λ r. length r ≤ O.most_of_one op.now * length pairs.now) }
{
    let mut made = Rel::new(alloc);
    'pairs: for pair in pairs {
        op.put(alloc, &pair.row, &pair.days, &mut made)?;
    }
    Ok(made)
}

// The relations, one after the other.
fn one_after_another<R: Drop>(alloc: Global, parts: Vec<Rel<R>>) -> Result<Rel<R>, NoMemory>
    ensures { IfOk result (λ r. r ≡ flat_map (λ part. part) parts.items) }
{
    let mut all = Rel::new(alloc);
    'parts: for part in parts {
        all = followed(all, part)?;
    }
    Ok(all)
}

// The second relation after the first; where the first has no rows, the second as it lies in memory.
fn followed<R: Drop>(first: Rel<R>, second: Rel<R>) -> Result<Rel<R>, NoMemory>
    ensures { IfOk result (λ r. r ≡ first ++ second) }
{
    if first.len() == 0 {
        return Ok(second);
    }
    let mut first = first;
    first.append(second)?;
    Ok(first)
}
