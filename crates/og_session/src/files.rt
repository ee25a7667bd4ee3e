//! Statements on files.
ghost use Rattle.std.specs.Prelude.{◌≡◌, [], ℕ, List, Ok, OnOk, OnErr};
ghost use Rattle.std.specs.List.{All};
ghost use Rattle.og_io.specs.Folders.{Folder};
ghost use Rattle.og_value.specs.declared.schema.Column.{Column};
ghost use Rattle.og_query.specs.Fits.{IsFit, IsFitRow};
ghost use Rattle.og_query.specs.declared.typed.Typed.TheVariants as t;
ghost use Rattle.og_db.specs.Database.{IsTableOf};
ghost use Rattle.og_db.specs.Effects.{Effect, imported, saved};
ghost use Rattle.og_db.specs.Held.{known_of};
ghost use Rattle.og_db.specs.Runs.{stored};
ghost use Rattle.og_faults.specs.Counts.{IsAbsenceCount, IsFaultCount, is_file_fault};
ghost use Rattle.og_session.specs.Asked.{AsksOnce};
ghost use Rattle.og_session.specs.Contents.{AreContents, Contents, effect_of, taken};
ghost use Rattle.og_session.specs.Ends.{IsFileStop, IsHeldState, StepEnds};
ghost use Rattle.og_session.specs.Names.{IsDone};

use crate::names::Names;
use og_base::NoMemory;
use og_db::{known_names, one_file_more};
use og_faults::{Fault, Stop};
use og_file::{
    a_saved_file_is_no_table_file, column_names_are_words, no_fault_of_a_saved_file,
    no_fault_of_a_table_file, one_fault_of_a_saved_file, one_fault_of_a_table_file, one_saved_file,
    one_table_file, read_saved, read_table, rows_of_a_saved_file_fit, rows_of_a_table_file_fit,
    write_saved,
};
use og_io::{Files, Found};
use og_par::{Crew, Gate};
use og_progress::Progress;
use og_query::Typed;
use og_rel::Tables;
use og_value::{Catalog, Name, Row, Text};
use sqlite_items::Items;
use std::alloc::Global;
use std::thread::Threads;

/// Writes what the name holds to the file.
pub fn save<F: Files, P: Progress>(
    alloc: Global,
    name: &Name,
    file: &Text,
    files: &mut F,
    names: &Names,
    progress: &P,
) -> Result<(), Stop>
    requires { IsFit (known_of names.now.names) (t.Save name.now file.now) }
    ensures ends { (start : Folder) (n : ℕ) (before : List Effect) → IsHeldState start before names.now (F.folder files.old) →
        StepEnds start n before (Ok (saved name.now file.now)) names.now (F.folder files.new) [] result }
    ensures stops { IsFileStop result }
    ensures files { IsFaultCount (is_file_fault result) (F.faults files.old) (F.faults files.new) }
    ensures absences { IsAbsenceCount result (F.absences files.old) (F.absences files.new) }
    ensures asked { AsksOnce result (F.calls files.old) (F.calls files.new) }
{
    one_file_more();
    names.rows_fit();
    let Some(schema) = names.schema(name) else {
        unreachable!();
    };
    let Some(rel) = names.rel(name.bytes()) else {
        unreachable!();
    };
    let bytes = write_saved(alloc, schema, rel, progress)?;
    files.write(file, bytes.as_slice())?;
    Ok(())
}

/// Keeps what the file holds under the name, which is new, at the statement with that number.
pub fn open<F: Files, P: Progress>(
    alloc: Global,
    number: usize,
    name: Name,
    file: Text,
    files: &mut F,
    names: &mut Names,
    progress: &P,
) -> Result<(), Stop>
    requires { IsFit (known_of names.old.names) (t.OpenFile name file) }
    ensures ends { (start : Folder) (contents : Contents) → AreContents start contents → (before : List Effect) → IsHeldState start before names.old (F.folder files.old) →
        StepEnds start number before (taken (effect_of contents before (t.OpenFile name file))) names.new (F.folder files.new) [] result }
    ensures stops { IsFileStop result }
    ensures files { IsFaultCount (is_file_fault result) (F.faults files.old) (F.faults files.new) }
    ensures absences { IsAbsenceCount result (F.absences files.old) (F.absences files.new) }
    ensures asked { AsksOnce result (F.calls files.old) (F.calls files.new) }
{
    one_file_more();
    one_saved_file();
    one_fault_of_a_saved_file();
    no_fault_of_a_saved_file();
    rows_of_a_saved_file_fit();
    if files.read(&file)? == Found::Absent {
        return Err(Stop::Fault(Fault::NoFile {
            statement: number,
            file,
        }));
    }
    match read_saved(alloc, files.bytes(), progress) {
        Ok(saved) => Ok(names.keep(name, saved.schema, saved.rel)?),
        Err(refusal) => Err(Stop::of_bytes(number, refusal)),
    }
}

/// Inserts the rows of the file into the table, at the statement with that number.
pub fn import<H: Threads + Sync, F: Files, G: Gate + Progress + Sync>(
    crew: &Crew<'_, H, G>,
    number: usize,
    name: &Name,
    file: Text,
    files: &mut F,
    names: &mut Names,
) -> Result<(), Stop>
    requires fits { IsFit (known_of names.old.names) (t.ImportFile name.now file) }
    ensures ends { (start : Folder) (contents : Contents) → AreContents start contents → (before : List Effect) → IsHeldState start before names.old (F.folder files.old) →
        StepEnds start number before (taken (effect_of contents before (t.ImportFile name.now file))) names.new (F.folder files.new) [] result }
    ensures stops { IsFileStop result }
    ensures files { IsFaultCount (is_file_fault result) (F.faults files.old) (F.faults files.new) }
    ensures absences { IsAbsenceCount result (F.absences files.old) (F.absences files.new) }
    ensures asked { AsksOnce result (F.calls files.old) (F.calls files.new) }
{
    let alloc = crew.alloc();
    one_file_more();
    known_names();
    one_table_file();
    one_fault_of_a_table_file();
    no_fault_of_a_table_file();
    a_saved_file_is_no_table_file();
    rows_of_a_table_file_fit();
    if files.read(&file)? == Found::Absent {
        return Err(Stop::Fault(Fault::NoFile {
            statement: number,
            file,
        }));
    }
    let Some(schema) = names.schema(name) else {
        unreachable!();
    };
    column_names_are_words(schema);
    match read_table(alloc, schema, files.bytes(), crew.gate()) {
        Ok(rows) => Ok(insert(crew, name, rows, names)?),
        Err(refusal) => Err(Stop::of_bytes(number, refusal)),
    }
}

// Inserts the rows into the table, as an INSERT does.
fn insert<H: Threads + Sync, G: Gate + Sync>(
    crew: &Crew<'_, H, G>,
    name: &Name,
    rows: Vec<Row>,
    names: &mut Names,
) -> Result<(), NoMemory>
    requires table { (columns : List Column) × IsTableOf columns names.old.names name.now × All (IsFitRow columns) rows.items }
    ensures done { OnOk result (IsDone names.old names.new (imported name.now rows.items)) }
    ensures refused { OnErr result (stored names.new.names ≡ stored names.old.names) }
{
    let stmt = Typed::Insert {
        name: name.copy()?,
        rows: Items::from_vec(rows),
    };
    names.change(crew, stmt)
}
