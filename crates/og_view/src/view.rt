//! Views.
ghost use Rattle.std.specs.Prelude.{◌≡◌, ℤ, List, None, Some, IfOk, OnOk, OnErr, filter, length};
ghost use Rattle.std.specs.List.{flat_map};
ghost use Rattle.og_base.specs.Calendar.{IsRefDay};
ghost use Rattle.og_base.specs.Set.{set_of};
ghost use Rattle.og_value.specs.Order.{row_order};
ghost use Rattle.og_query.specs.Fits.{IsFitQuery, tables_of};
ghost use Rattle.og_query.specs.Queries.{ordinary_query};
ghost use Rattle.og_exec.specs.Tables.{rows_at, rows_on};
ghost use Rattle.og_db.specs.Database.{Relation};
ghost use Rattle.og_db.specs.Deltas.{IsApplied, IsDelta, after_at, rest_at};
ghost use Rattle.og_db.specs.Held.{Held, known_of, rows_of};
ghost use Rattle.og_db.specs.Live as live;
ghost use Rattle.og_rel.specs.Places.{ArePlaces};
ghost use Rattle.og_reduce.specs.Sieves.{passes};
ghost use Rattle.og_view.specs.Changes.{IsChange, changed_by};
ghost use Rattle.og_view.specs.Placed.{cores_of, more_rows};
ghost use Rattle.og_view.specs.Views.{IsAnswerOver, IsLiveQuery, to_be};

use crate::asked::Asked;
use crate::change::{Change, Next};
use crate::delta_rows::DeltaRows;
use crate::placed::{Placed, more_of, placed_cores};
use crate::put::Put;
use crate::rederived::rederived;
use crate::sizes::size_of;
use crate::table_delta::TableDelta;
use crate::used::{self, names_once};
use og_base::NoMemory;
use og_db::{Db, Delta};
use og_par::{Crew, Gate};
use og_query::Query;
use og_reduce::{Sieve, Stored, keys_of};
use og_rel::Rel;
use og_value::{Name, Row};
use std::marker::Model;
use std::thread::Threads;

/// A query that is kept answered, seen as the query, its result, and what this is to be next where it has
/// followed a delta. It holds no tables: these are lent to its calls.
#[derive(Drop)]
pub struct View {
    asked: Asked,
    cores: Vec<Placed>,
    result: Stored,
    next: Option<Next>,
}

impl Model for View {
    ghost use Rattle.std.specs.Coded.{codes};
    ghost use Rattle.std.specs.Prelude.{◌≡◌};
    ghost use Rattle.og_query.specs.contracts.query.Query as q;
    ghost use Rattle.og_view.specs.Changes.{IsHeldFor, next_of, result_of};
    ghost use Rattle.og_view.specs.Placed.{cores_of};
    ghost use Rattle.og_view.specs.Views.{Seen, seen};

    ghost Value = { Seen };

    ghost coded = { Prim.hlevel (codes, q.the_row.coded) };

    ghost view = { λ v. seen v.asked (result_of v.result v.next) (next_of v.result v.next) };

    ghost invariant = { λ v. (v.cores.items ≡ cores_of v.asked) × IsHeldFor v.result v.next };
}

impl View {
    /// The view of a query over the tables. Its joins, here and in what follows, are shared out among the
    /// workers of the crew. Refused only for want of memory.
    pub fn new<H: Threads + Sync, G: Gate + Sync>(
        crew: &Crew<'_, H, G>,
        query: &Query,
        tables: &Db,
    ) -> Result<View, NoMemory>
        requires live { IsLiveQuery query.now }
        requires fits { IsFitQuery (tables_of (known_of tables.now)) query.now }
        ensures query { IfOk result (λ view. view.query ≡ query.now) }
        ensures next { IfOk result (λ view. view.next ≡ None) }
        ensures answer { IfOk result (λ view. IsAnswerOver tables.now query.now view.result) }
    {
        let alloc = crew.alloc();
        tables.rows_fit();
        let asked = Asked::new(alloc, query)?;
        let cores = placed_cores(alloc, query)?;
        let rel = asked.answered(crew, tables)?;
        let result = Stored::new(alloc, rel);
        Ok(View {
            asked,
            cores,
            result,
            next: None,
        })
    }

    /// The result, where nothing is followed. Takes no memory.
    pub fn rel(&self) -> &Rel<Row>
        requires { self.now.next ≡ None }
        ensures { result.now ≡ self.now.result }
    {
        self.result.rel()
    }

    /// The result alone, where nothing is followed. Takes no memory.
    pub fn into_rel(self) -> Rel<Row>
        requires { self.next ≡ None }
        ensures { result ≡ self.result }
    {
        self.result.into_rel()
    }

    /// Whether the query uses the name. Takes no memory.
    pub fn uses(&self, name: &Name) -> bool
        ensures { result ≡ live.uses self.now.query name.now }
    {
        used::uses(self.asked.query(), name)
    }

    /// Makes what the result is to be once the delta is in its table, and leaves the result as it is: `put` puts
    /// it, and `undo` lets it be. Refused only for want of memory, and then nothing has changed.
    pub fn follow<H: Threads + Sync, G: Gate + Sync>(
        &mut self,
        crew: &Crew<'_, H, G>,
        tables: &Db,
        name: &Name,
        delta: &Delta,
    ) -> Result<(), NoMemory>
        requires none { self.old.next ≡ None }
        requires answer { IsAnswerOver tables.now self.old.query self.old.result }
        requires delta { IsDelta tables.now name.now delta.now }
        ensures query { self.new.query ≡ self.old.query }
        ensures result { self.new.result ≡ self.old.result }
        ensures next { OnOk result ((after : List (Held Relation)) → IsApplied name.now delta.now tables.now after → IsAnswerOver after self.old.query (to_be self.new)) }
        ensures refused { OnErr result (self.new ≡ self.old) }
    {
        if !self.uses(name) {
            return Ok(());
        }
        let over = TableDelta {
            tables,
            name,
            delta,
        };
        let change = self.delta_of(crew, &over)?;
        let most = size_of(self.asked.query(), &over);
        let others = self.result.rel().len() - change.at.len();
        if others > most || change.rows.len() > most - others {
            return self.renew(crew, &over);
        }
        over.rows_fit();
        self.result.rel().some_days();
        change.rows.some_days();
        self.hold(change)
    }

    /// Puts what the result is to be, where the view has followed a delta. Takes no memory.
    pub fn put(&mut self)
        ensures query { self.new.query ≡ self.old.query }
        ensures next { self.new.next ≡ None }
        ensures result { (tables : List (Held Relation)) → IsAnswerOver tables self.old.query (to_be self.old) → IsAnswerOver tables self.old.query self.new.result }
    {
        match self.next.take() {
            Some(Next::Changed { at, len }) => {
                let came = self.result.rel().len() - len;
                self.result.take_out(at.as_slice(), came);
            }
            Some(Next::Renewed(result)) => self.result = result,
            None => {}
        }
    }

    /// Lets the result be what it is. Takes no memory.
    pub fn undo(&mut self)
        ensures query { self.new.query ≡ self.old.query }
        ensures next { self.new.next ≡ None }
        ensures result { self.new.result ≡ self.old.result }
    {
        if let Some(Next::Changed { len, .. }) = self.next.take() {
            self.result.truncate(len);
        }
    }

    // The change of the result: the rows that it may have lost go, and come again as far as the cores still have
    // them; and what the cores have by the new rows comes.
    fn delta_of<H: Threads + Sync, G: Gate + Sync>(
        &self,
        crew: &Crew<'_, H, G>,
        over: &TableDelta<'_>,
    ) -> Result<Change, NoMemory>
        requires none { self.now.next ≡ None }
        requires answer { IsAnswerOver over.now.tables.now self.now.query self.now.result }
        requires delta { IsDelta over.now.tables.now over.now.name.now over.now.delta.now }
        ensures { IfOk result (IsChange (after_at over.now.name.now over.now.delta.now over.now.tables.now) self.now.query self.now.result) }
    {
        let alloc = crew.alloc();
        let lost = self.lost_by(crew, over)?;
        let added = self.added_by(crew, over)?;
        if lost.len() == 0 {
            return Ok(Change {
                at: Vec::new(alloc),
                rows: added,
            });
        }
        let keys = keys_of(alloc, &lost, self.asked.query().first.schema.len())?;
        let sieve = Sieve::of(alloc, 0, keys.as_slice())?;
        let at = self.result.places(alloc, &sieve)?;
        let mut rows = self.rederived(crew, over, &sieve)?;
        rows.append(added)?;
        Ok(Change { at, rows })
    }

    // The rows that the cores had by the rows of the table that are gone.
    fn lost_by<H: Threads + Sync, G: Gate + Sync>(
        &self,
        crew: &Crew<'_, H, G>,
        over: &TableDelta<'_>,
    ) -> Result<Rel<Row>, NoMemory>
        requires fits { IsFitQuery (tables_of (known_of over.now.tables.now)) self.now.query }
        requires delta { IsDelta over.now.tables.now over.now.name.now over.now.delta.now }
        ensures { IfOk result (λ lost. (d : ℤ) → IsRefDay d → rows_on lost d
            ≡ set_of row_order (flat_map (more_rows d (rows_of over.now.tables.now) over.now.name.now over.now.delta.now.gone) (cores_of self.now.query))) }
    {
        over.tables.rows_fit();
        let gone = DeltaRows {
            name: over.name,
            over: over.tables,
            new: &over.delta.gone,
        };
        more_of(crew, self.cores.as_slice(), &gone)
    }

    // The rows that the cores have by the new rows of the table. Where no core has the table at two places, what
    // it has itself is not asked for, and it is not made whole.
    fn added_by<H: Threads + Sync, G: Gate + Sync>(
        &self,
        crew: &Crew<'_, H, G>,
        over: &TableDelta<'_>,
    ) -> Result<Rel<Row>, NoMemory>
        requires fits { IsFitQuery (tables_of (known_of over.now.tables.now)) self.now.query }
        requires delta { IsDelta over.now.tables.now over.now.name.now over.now.delta.now }
        ensures { IfOk result (λ added. (d : ℤ) → IsRefDay d → rows_on added d
            ≡ set_of row_order (flat_map (more_rows d (rows_of (after_at over.now.name.now over.now.delta.now over.now.tables.now)) over.now.name.now over.now.delta.now.added) (cores_of self.now.query))) }
    {
        over.tables.rows_fit();
        if names_once(self.asked.query(), over.name) {
            let new = DeltaRows {
                name: over.name,
                over: over.tables,
                new: &over.delta.added,
            };
            return more_of(crew, self.cores.as_slice(), &new);
        }
        let rel = over.whole(crew.alloc())?;
        let after = Put::new(over.tables, over.name, &rel);
        after.rows_fit();
        let new = DeltaRows {
            name: over.name,
            over: &after,
            new: &over.delta.added,
        };
        more_of(crew, self.cores.as_slice(), &new)
    }

    // The rows that pass the sieve of those that the cores have over what is left of the tables.
    fn rederived<H: Threads + Sync, G: Gate + Sync>(
        &self,
        crew: &Crew<'_, H, G>,
        over: &TableDelta<'_>,
        sieve: &Sieve<'_>,
    ) -> Result<Rel<Row>, NoMemory>
        requires live { IsLiveQuery self.now.query }
        requires fits { IsFitQuery (tables_of (known_of over.now.tables.now)) self.now.query }
        requires delta { IsDelta over.now.tables.now over.now.name.now over.now.delta.now }
        ensures { IfOk result (λ again. (d : ℤ) → IsRefDay d → rows_on again d
            ≡ filter (passes sieve.now) (ordinary_query d (rows_at (rows_of (rest_at over.now.name.now over.now.delta.now over.now.tables.now)) d) self.now.query)) }
    {
        over.rows_fit();
        rederived(crew, self.cores.as_slice(), over, sieve)
    }

    // Holds what a change makes of the result: the rows that come stand behind it.
    fn hold(&mut self, change: Change) -> Result<(), NoMemory>
        requires none { self.old.next ≡ None }
        requires at { ArePlaces change.at.items (length self.old.result) }
        ensures query { self.new.query ≡ self.old.query }
        ensures result { self.new.result ≡ self.old.result }
        ensures next { OnOk result (self.new.next ≡ Some (changed_by change self.old.result)) }
        ensures refused { OnErr result (self.new ≡ self.old) }
    {
        let len = self.result.rel().len();
        self.result.append(change.rows)?;
        self.next = Some(Next::Changed { at: change.at, len });
        Ok(())
    }

    // Holds the answer of the query, asked anew over what comes of the tables.
    fn renew<H: Threads + Sync, G: Gate + Sync>(
        &mut self,
        crew: &Crew<'_, H, G>,
        over: &TableDelta<'_>,
    ) -> Result<(), NoMemory>
        requires none { self.old.next ≡ None }
        requires live { IsLiveQuery self.old.query }
        requires fits { IsFitQuery (tables_of (known_of over.now.tables.now)) self.old.query }
        requires delta { IsDelta over.now.tables.now over.now.name.now over.now.delta.now }
        ensures query { self.new.query ≡ self.old.query }
        ensures result { self.new.result ≡ self.old.result }
        ensures next { OnOk result (IsAnswerOver (after_at over.now.name.now over.now.delta.now over.now.tables.now) self.old.query (to_be self.new)) }
        ensures refused { OnErr result (self.new ≡ self.old) }
    {
        let alloc = crew.alloc();
        let rel = over.whole(alloc)?;
        let after = Put::new(over.tables, over.name, &rel);
        after.rows_fit();
        let result = self.asked.answered(crew, &after)?;
        self.next = Some(Next::Renewed(Stored::new(alloc, result)));
        Ok(())
    }
}
