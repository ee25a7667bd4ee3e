//! New rows of a table, and what the places of a core have beside them.
ghost use Rattle.std.specs.Prelude.{◌≡◌, ◌==◌, Some, IfOk, if◌then◌else◌};
ghost use Rattle.std.specs.Option.{option_map};
ghost use Rattle.og_reduce.specs.Sieves.{sifted};
ghost use Rattle.og_view.specs.Parts.{rel_of};

use crate::narrowed::Narrowed;
use crate::part::PartRows;
use og_base::NoMemory;
use og_query::From1;
use og_reduce::Sieve;
use og_rel::Rel;
use og_value::{Name, Row};
use std::alloc::Global;

// New rows of the table of a name, and tables in which it has them already.
#[derive(Drop)]
pub(crate) struct DeltaRows<'c, T> {
    pub(crate) name: &'c Name,
    pub(crate) over: &'c T,
    pub(crate) new: &'c Rel<Row>,
}

impl<T: Narrowed> DeltaRows<'_, T> {
    // The rows of the table at that place that pass the sieve, where one place has the new rows alone; None where
    // there is no such table.
    pub(crate) fn narrowed(
        &self,
        alloc: Global,
        place: usize,
        k: usize,
        table: &From1,
        sieve: &Sieve<'_>,
    ) -> Result<Option<PartRows<'_>>, NoMemory>
        ensures { IfOk result (λ rows. option_map rel_of rows
            ≡ option_map (sifted sieve.now) (if k == place then Some self.now.new.now else T.Tables.named self.now.over.now table.now.name)) }
    {
        if k == place {
            return Ok(Some(PartRows::of(self.new, sieve)?));
        }
        self.over.narrowed(alloc, &table.name, sieve)
    }
}
