//! Tables that are asked for those of their rows alone that pass a sieve.
ghost use Rattle.std.specs.Prelude.{◌≡◌, IfOk};
ghost use Rattle.std.specs.Option.{option_map};
ghost use Rattle.og_reduce.specs.Sieves.{sifted};
ghost use Rattle.og_view.specs.Parts.{rel_of};

use crate::part::PartRows;
use og_base::NoMemory;
use og_db::Db;
use og_reduce::Sieve;
use og_rel::Tables;
use og_value::{Name, Row};
use std::alloc::Global;

// Tables that are asked for those of their rows alone that pass a sieve.
pub(crate) trait Narrowed: Tables<Row> {
    // The rows of the table of that name that pass the sieve; None where there is no such table.
    fn narrowed(
        &self,
        alloc: Global,
        name: &Name,
        sieve: &Sieve<'_>,
    ) -> Result<Option<PartRows<'_>>, NoMemory>
        ensures { IfOk result (λ rows. option_map rel_of rows ≡ option_map (sifted sieve.now) (Self.named self.now name.now)) };
}

impl Narrowed for Db {
    fn narrowed(
        &self,
        alloc: Global,
        name: &Name,
        sieve: &Sieve<'_>,
    ) -> Result<Option<PartRows<'_>>, NoMemory> {
        let Some(own) = self.stored(name) else {
            return Ok(None);
        };
        Ok(Some(PartRows::of_table(alloc, own, sieve)?))
    }
}
