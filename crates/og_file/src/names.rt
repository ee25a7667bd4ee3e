// The names of columns in a record.
ghost use Rattle.std.specs.Prelude.{◌≡◌};
ghost use Rattle.std.specs.Bool.{Decides};
ghost use Rattle.csv.specs.Records.{fields_of};
ghost use Rattle.og_value.specs.Words.{folded};
ghost use Rattle.og_file.specs.TableFile.{HasNames};

use csv::ByteRecord;
use og_value::{Name, Schema};

// Whether the record has the names of the columns, in letters of any case.
pub(crate) fn has_names(schema: &Schema, fields: &ByteRecord) -> bool
    ensures { Decides result (HasNames schema.now (fields_of fields.now)) }
{
    if fields.len() != schema.len() {
        return false;
    }
    'columns: for i in 0..schema.len() {
        let Some(field) = fields.get(i) else {
            return false;
        };
        if !is_name(&schema.column(i).name, field) {
            return false;
        }
    }
    true
}

// Whether the field is the name, in letters of any case.
fn is_name(name: &Name, field: &[u8]) -> bool
    ensures { Decides result (folded field.now ≡ name.now) }
{
    name.lower_word();
    field.eq_ignore_ascii_case(name.bytes())
}
