//! The rows of a day, in order, and the text of their records where it is made beside them.
ghost use Rattle.std.specs.Prelude.{◌≡◌, ◌≤◌, ◌++◌, ◌∷◌, [], IfOk, IfSome, IsTrue, OnOk, map};
ghost use Rattle.std.specs.List.{flat_map};
ghost use Rattle.std.specs.List.Sorted.{IsPermutation};
ghost use Rattle.og_base.specs.Set.{set_of};
ghost use Rattle.og_value.specs.Cells.{fixed_text};
ghost use Rattle.og_value.specs.Order.{row_order};
ghost use Rattle.og_value.specs.Values.{row_at};
ghost use Rattle.og_rel.specs.Pairs.{present_of_pairs};
ghost use Rattle.og_rel.specs.Relations.{relation_at};
ghost use Rattle.og_rel.specs.Shares.{rows_of};
ghost use Rattle.og_output.specs.Records.{records};

use crate::ordered::are_in_order;
use crate::rows::rows_text;
use og_base::{NoMemory, RefDay, rising};
use og_par::{Crew, Gate, Piece, par_rows};
use og_rel::{Pair, Rel, blocks_of, cuts_among, parts_of, put_together, some_of};
use og_value::{Row, Sight, order_of_sights};
use std::alloc::Global;
use std::thread::Threads;

// How many rows a worker lists at least: fewer are listed sooner than a thread begins.
const LEAST: usize = 4096;

// How many rows a relation has at most whose text may stand in memory whole.
const MOST: usize = 262_144;

/// The rows of a day, as lists, and the text of their records, in parts, where it was made beside them.
#[derive(Drop)]
pub struct DayRows<'r> {
    pub lists: Vec<Vec<Sight<'r>>>,
    pub texts: Option<Vec<Vec<u8>>>,
}

/// Lists that are, one after the other, the rising list of the rows that are present on the day, each once, as they are
/// on the day. No value is copied. Made by 1 to `MAX_WORKERS` workers of og_par, each of which lists a block of the
/// relation, and makes the text of its list where the rows seem to stand in order already: beginning threads once
/// more for the text would take longer than many a text. Refused only for want of memory.
pub fn rows_of_day<'r, H: Threads + Sync, G: Gate + Sync>(
    crew: &Crew<'_, H, G>,
    rel: &'r Rel<Row>,
    day: RefDay,
) -> Result<DayRows<'r>, NoMemory>
    ensures rows { IfOk result (λ v. rows_of v.lists.items ≡ relation_at row_order row_at rel.now day) }
    ensures texts { IfOk result (λ v. IfSome v.texts (λ texts. flat_map (λ text. text.items) texts.items ≡ records (map (map fixed_text) (rows_of v.lists.items)))) }
{
    let alloc = crew.alloc();
    order_of_sights();
    let pairs = rel.pairs();
    let with_text = seem_in_order(alloc, crew.workers(), pairs, day)?;
    let busy = crew.at_most(pairs.len() / LEAST);
    let blocks = blocks_of(alloc, busy.workers(), pairs)?;
    let made = par_rows(&busy, blocks.as_slice(), &OnDay { day, with_text })?;
    let (lists, texts) = apart(alloc, made)?;
    if !are_in_order(lists.as_slice()) {
        let lists = put_in_order(crew, pairs, day, lists)?;
        return Ok(DayRows { lists, texts: None });
    }
    let texts = texts_where(with_text, texts);
    Ok(DayRows { lists, texts })
}

// The texts, where they were wanted.
fn texts_where(wanted: bool, texts: Vec<Vec<u8>>) -> Option<Vec<Vec<u8>>>
    ensures { IfSome result (λ all. IsTrue wanted × (all ≡ texts)) }
{
    if wanted { Some(texts) } else { None }
}

// Whether there are several workers, and rows of the day that are not too many and of which some stand in order: then
// likely all do.
fn seem_in_order(
    alloc: Global,
    workers: usize,
    pairs: &[Pair<Row>],
    day: RefDay,
) -> Result<bool, NoMemory> {
    if workers == 1 || pairs.len() > MOST {
        return Ok(false);
    }
    Ok(some_sights(alloc, 1, pairs, day)?.is_sorted())
}

// The rising list of the rows of a block, and the text of their records where it is made beside them.
#[derive(Drop)]
pub(crate) struct Listed<'r> {
    rows: Vec<Sight<'r>>,
    text: Vec<u8>,
}

// Makes of a block of pairs the rising list of its rows of a day, with its text where that is wanted.
#[derive(Drop)]
struct OnDay {
    day: RefDay,
    with_text: bool,
}

impl<'r> Piece<&'r [Pair<Row>]> for OnDay {
    ghost use Rattle.og_output.specs.Listed.{IsListed};

    type Out = Listed<'r>;

    ghost gives = { λ piece block made. IsListed piece.day piece.with_text block.now made };

    fn make(
        &self,
        alloc: Global,
        item: &&'r [Pair<Row>],
        out: &mut Vec<Listed<'r>>,
    ) -> Result<(), NoMemory> {
        order_of_sights();
        let rows = rising_sights(alloc, *item, self.day)?;
        let text = text_beside(alloc, self.with_text, rows.as_slice())?;
        out.push(Listed { rows, text })?;
        Ok(())
    }
}

// The text of the records of the rows, where it is wanted.
fn text_beside(alloc: Global, with_text: bool, rows: &[Sight]) -> Result<Vec<u8>, NoMemory>
    ensures { IfOk result (λ v. IsTrue with_text → v.items ≡ records (map (map fixed_text) rows.now)) }
{
    if !with_text {
        return Ok(Vec::new(alloc));
    }
    rows_text(alloc, rows)
}

// The lists, and the texts.
fn apart<'r>(
    alloc: Global,
    made: Vec<Listed<'r>>,
) -> Result<(Vec<Vec<Sight<'r>>>, Vec<Vec<u8>>), NoMemory>
    ensures lists { IfOk result (λ p. p.0.items ≡ map (λ l. l.rows) made.entry.items) }
    ensures texts { IfOk result (λ p. p.1.items ≡ map (λ l. l.text) made.entry.items) }
{
    let mut lists = Vec::new(alloc);
    let mut texts = Vec::new(alloc);
    'made: for listed in made {
        lists.push(listed.rows)?;
        texts.push(listed.text)?;
    }
    Ok((lists, texts))
}

// The rising list of the rows of rising lists: each is cut at the same rows, and workers put the parts between two cuts
// together.
fn put_in_order<'r, H: Threads + Sync, G: Gate + Sync>(
    crew: &Crew<'_, H, G>,
    pairs: &'r [Pair<Row>],
    day: RefDay,
    lists: Vec<Vec<Sight<'r>>>,
) -> Result<Vec<Vec<Sight<'r>>>, NoMemory>
    ensures { IfOk result (λ v. rows_of v.items ≡ set_of row_order (rows_of lists.entry.items)) }
{
    let alloc = crew.alloc();
    order_of_sights();
    let cuts = cuts_of(alloc, lists.len().max(1), pairs, day)?;
    let parts = parts_of_lists(alloc, lists, cuts.as_slice())?;
    let rows = put_together(crew, cuts.len().saturating_add(1), parts)?;
    let mut all = Vec::with_capacity(alloc, 1)?;
    all.push(rows)?;
    Ok(all)
}

// The parts of the lists, each cut before each of the cuts, the last part first.
fn parts_of_lists<'r>(
    alloc: Global,
    lists: Vec<Vec<Sight<'r>>>,
    cuts: &[Sight<'r>],
) -> Result<Vec<Vec<Sight<'r>>>, NoMemory>
    ensures { IfOk result (λ v. IsPermutation (rows_of lists.entry.items) (rows_of v.items)) }
{
    let mut parts = Vec::new(alloc);
    'lists: for list in lists {
        let mut more = parts_of(alloc, list, cuts)?;
        parts.append(&mut more)?;
    }
    Ok(parts)
}

// Rows of the day, falling, before which the rows are cut into so many shares or fewer.
fn cuts_of<'r>(
    alloc: Global,
    shares: usize,
    pairs: &'r [Pair<Row>],
    day: RefDay,
) -> Result<Vec<Sight<'r>>, NoMemory>
    requires { 1 ≤ shares }
{
    order_of_sights();
    cuts_among(some_sights(alloc, shares, pairs, day)?, shares)
}

// Rows of the day, here and there, in the order in which they stand.
fn some_sights<'r>(
    alloc: Global,
    shares: usize,
    pairs: &'r [Pair<Row>],
    day: RefDay,
) -> Result<Vec<Sight<'r>>, NoMemory>
    requires { 1 ≤ shares }
{
    let mut sights = Vec::new(alloc);
    'pairs: for pair in some_of(alloc, shares, pairs)? {
        add_sight(pair, day, &mut sights)?;
    }
    Ok(sights)
}

// The rising list of the rows of the pairs that are present on the day.
fn rising_sights<'r>(
    alloc: Global,
    pairs: &'r [Pair<Row>],
    day: RefDay,
) -> Result<Vec<Sight<'r>>, NoMemory>
    ensures { IfOk result (λ v. v.items ≡ set_of row_order (present_of_pairs row_at pairs.now day)) }
{
    order_of_sights();
    let sights = present_sights(alloc, pairs, day)?;
    rising(sights)
}

// The rows of the pairs that are present on the day, in their order.
fn present_sights<'r>(
    alloc: Global,
    pairs: &'r [Pair<Row>],
    day: RefDay,
) -> Result<Vec<Sight<'r>>, NoMemory>
    ensures { IfOk result (λ v. v.items ≡ present_of_pairs row_at pairs.now day) }
{
    let mut sights = Vec::with_capacity(alloc, pairs.len())?;
    'pairs: for pair in pairs {
        add_sight(pair, day, &mut sights)?;
    }
    Ok(sights)
}

// Adds the row of the pair as it is on the day, where it is present then.
fn add_sight<'r>(
    pair: &'r Pair<Row>,
    day: RefDay,
    sights: &mut Vec<Sight<'r>>,
) -> Result<(), NoMemory>
    ensures { OnOk result (sights.new.items ≡ sights.old.items ++ present_of_pairs row_at (pair.now ∷ []) day) }
{
    if pair.days.contains(day) {
        sights.push(Sight::new(&pair.row, day))?;
    }
    Ok(())
}
