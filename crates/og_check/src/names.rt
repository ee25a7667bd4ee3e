//! The names that a statement asks for.
ghost use Rattle.std.specs.Prelude.{◌≡◌};
ghost use Rattle.std.specs.Option.{option_copied};
ghost use Rattle.og_check.specs.Cores as spec;
ghost use Rattle.og_check.specs.Names.{fresh_name, known_name, schemas_in};
ghost use Rattle.og_check.specs.Results.{Gives, lent};

use crate::refusal::CheckRefusal;
use og_value::{Catalog, Name, Schema, What};

/// Which names may be asked.
#[derive(Clone, Copy)]
pub enum Names {
    /// All that are known.
    All,
    /// Those of tables.
    Tables,
}

// The columns of the name, where it may be asked.
fn columns_in<'a, C: Catalog>(known: &'a C, names: Names, name: &Name) -> Option<&'a Schema>
    ensures { option_copied result ≡ schemas_in names (C.known known.now) name.now }
{
    match names {
        Names::All => known.schema(name),
        Names::Tables => match known.what(name) {
            Some(What::Table) => known.schema(name),
            _ => None,
        },
    }
}

/// The columns of the name. `NoSuchName` exactly where it may not be asked.
pub fn known_columns<'a, C: Catalog>(
    known: &'a C,
    names: Names,
    name: &Name,
) -> Result<&'a Schema, CheckRefusal>
    ensures { Gives (lent result) (spec.known_columns name.now (schemas_in names (C.known known.now) name.now)) }
{
    match columns_in(known, names, name) {
        Some(columns) => Ok(columns),
        None => Err(CheckRefusal::NoSuchName { name: name.copy()? }),
    }
}

/// The name. `NoSuchName` exactly where it may not be asked.
pub fn known_name<C: Catalog>(known: &C, names: Names, name: &Name) -> Result<Name, CheckRefusal>
    ensures { Gives result (known_name name.now (schemas_in names (C.known known.now) name.now)) }
{
    let copy = name.copy()?;
    match columns_in(known, names, name) {
        Some(_) => Ok(copy),
        None => Err(CheckRefusal::NoSuchName { name: copy }),
    }
}

/// The name. `NameTaken` exactly where it is known.
pub fn fresh_name<C: Catalog>(known: &C, name: &Name) -> Result<Name, CheckRefusal>
    ensures { Gives result (fresh_name (C.known known.now) name.now) }
{
    let copy = name.copy()?;
    match known.what(name) {
        Some(_) => Err(CheckRefusal::NameTaken { name: copy }),
        None => Ok(copy),
    }
}

/// The alias, or the name where there is none.
pub fn alias_of<'a>(name: &'a Name, alias: &'a Option<Name>) -> &'a Name
    ensures { result.now ≡ spec.alias_of name.now alias.now }
{
    match alias {
        Some(alias) => alias,
        None => name,
    }
}
