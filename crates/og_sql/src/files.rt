//! The SQL of statements on files.
ghost use Rattle.std.specs.Prelude.{◌≡◌, ℕ, List, Option, None};
ghost use Rattle.std.specs.Map.{lookup};
ghost use Rattle.std.specs.Str.{bytes_eq};
ghost use Rattle.og_faults.specs.Counts.{IsFaultCount, is_file_fault};
ghost use Rattle.og_io.specs.Folders.{Folder};
ghost use Rattle.og_db.specs.Effects.{Effect};
ghost use Rattle.og_db.specs.Held.{known_of};
ghost use Rattle.og_query.specs.Fits.{IsFit};
ghost use Rattle.og_query.specs.declared.typed.Typed.TheVariants as t;
ghost use Rattle.og_session.specs.Contents.{Contents, effect_of, taken};
ghost use Rattle.og_sql.specs.Ends.{run_end};
ghost use Rattle.og_sql.specs.Translations.{AreAtStart, IsHeldAt, IsHeldUnless, IsMade, IsStatementEnd, ReadEnds, StepEnds};
ghost use Rattle.og_sql_outside.specs.Outside.{outside_rel, outside_rows};

use crate::spread::{put_create, put_selected};
use crate::step::Context;
use crate::stop::SqlStop;
use og_faults::{Fault, Stop};
use og_file::{
    Saved, no_fault_of_a_saved_file, no_fault_of_a_table_file, one_fault_of_a_saved_file,
    one_fault_of_a_table_file, one_saved_file, one_table_file, read_saved, read_table,
};
use og_io::{Files, Found};
use og_outline::{Outline, known_outline, one_file_in_outline};
use og_par::OpenGate;
use og_progress::Unwatched;
use og_sql_outside::{rel_outside, rows_outside};
use og_sql_rows::{Way, put_copy, put_copy_of_days, put_save};
use og_sql_text::{Sql, put_table};
use og_value::{Catalog, Name, Row, Schema, Text};

/// Appends what saves a name. Where some statement reads the file, the rows are kept
/// for it too. Refused only for want of memory.
pub fn put_save_of(
    context: Context<'_>,
    name: &Name,
    file: &Text,
    outline: &mut Outline,
    out: &mut Sql,
) -> Result<(), SqlStop>
    requires fits { IsFit (known_of outline.old.names) (t.Save name.now file.now) }
    ensures ends { (start : Folder) (contents : Contents) (before : List Effect) (folder : Option Folder) → IsHeldAt start contents before outline.old folder →
        StepEnds context.entry.number before (taken (effect_of contents before (t.Save name.now file.now))) outline.new result }
    ensures stops { IsMade result }
{
    one_file_in_outline();
    let Some(schema) = outline.schema(name) else {
        unreachable!();
    };
    let schema = schema.copy()?;
    put_save(name, &schema, file, outline.is_live(name), out);
    if context.read.has(file) {
        put_kept_rows(context.number, name, out);
    }
    outline.save(context.number, &schema, file)?;
    Ok(())
}

// Appends what keeps the rows that the statement with that number saves.
fn put_kept_rows(number: usize, name: &Name, out: &mut Sql) {
    out.put("CREATE TABLE saved$");
    out.number(number);
    out.put(" AS SELECT * FROM ");
    put_table(name, out);
    out.put(";\n")
}

// Reads the file, at the statement with that number.
fn read_file<F: Files>(number: usize, file: &Text, files: &mut F) -> Result<(), SqlStop>
    ensures ends { ReadEnds number (F.folder files.old) file.now (F.buffer files.new) result }
    ensures folder { (start : Folder) → AreAtStart start (F.folder files.old) → AreAtStart start (F.folder files.new) }
    ensures files { IsFaultCount (is_file_fault (run_end result)) (F.faults files.old) (F.faults files.new) }
{
    if files.read(file)? == Found::Absent {
        let file = file.copy()?;
        return Err(SqlStop::Run(Stop::Fault(Fault::NoFile {
            statement: number,
            file,
        })));
    }
    Ok(())
}

/// Appends what keeps the rows of a saved file.
pub fn put_open<F: Files>(
    context: Context<'_>,
    name: &Name,
    file: &Text,
    files: &mut F,
    outline: &mut Outline,
    out: &mut Sql,
) -> Result<(), SqlStop>
    requires fits { IsFit (known_of outline.old.names) (t.OpenFile name.now file.now) }
    ensures ends { (start : Folder) (contents : Contents) (before : List Effect) → IsHeldAt start contents before outline.old (F.folder files.old) →
        StepEnds context.entry.number before (taken (effect_of contents before (t.OpenFile name.now file.now))) outline.new result }
    ensures stops { IsStatementEnd result }
    ensures folder { (start : Folder) → AreAtStart start (F.folder files.old) → AreAtStart start (F.folder files.new) }
    ensures files { IsFaultCount (is_file_fault (run_end result)) (F.faults files.old) (F.faults files.new) }
{
    one_file_in_outline();
    match outline.saved(file) {
        Some(saved) => {
            let schema = saved.schema.copy()?;
            put_saved(
                Way::of(context.target, &schema),
                name,
                &schema,
                saved.number,
                out,
            );
            outline.open(name, &schema)?;
            Ok(())
        }
        None => open_file(context, name, file, files, outline, out),
    }
}

// Appends what keeps the rows of a file that no statement saved.
fn open_file<F: Files>(
    context: Context<'_>,
    name: &Name,
    file: &Text,
    files: &mut F,
    outline: &mut Outline,
    out: &mut Sql,
) -> Result<(), SqlStop>
    requires fits { IsFit (known_of outline.old.names) (t.OpenFile name.now file.now) }
    requires unsaved { lookup (bytes_eq file.now) outline.old.files ≡ None }
    ensures ends { (start : Folder) (contents : Contents) (before : List Effect) → IsHeldAt start contents before outline.old (F.folder files.old) →
        StepEnds context.entry.number before (taken (effect_of contents before (t.OpenFile name.now file.now))) outline.new result }
    ensures stops { IsStatementEnd result }
    ensures folder { (start : Folder) → AreAtStart start (F.folder files.old) → AreAtStart start (F.folder files.new) }
    ensures files { IsFaultCount (is_file_fault (run_end result)) (F.faults files.old) (F.faults files.new) }
{
    one_file_in_outline();
    one_saved_file();
    one_fault_of_a_saved_file();
    no_fault_of_a_saved_file();
    read_file(context.number, file, files)?;
    match read_saved(out.alloc(), files.bytes(), &Unwatched::new(&OpenGate)) {
        Ok(saved) => {
            put_opened(context, name, &saved, out)?;
            Ok(outline.open(name, &saved.schema)?)
        }
        Err(refusal) => Err(SqlStop::Run(Stop::of_bytes(context.number, refusal))),
    }
}

// Appends what gives the rows that a statement saved another name.
fn put_saved(way: Way, name: &Name, schema: &Schema, saved: usize, out: &mut Sql) {
    if way == Way::Here {
        out.put("CREATE TABLE ");
        put_table(name, out);
        out.put(" AS SELECT * FROM saved$");
        out.number(saved);
        return out.put(";\n");
    }
    let mut select = Sql::new(out.alloc());
    select.put("SELECT * FROM saved$");
    select.number(saved);
    put_selected(way, name, schema, &select, out)
}

// Appends the table of a saved file, where PostgreSQL can hold its rows.
fn put_opened(
    context: Context<'_>,
    name: &Name,
    saved: &Saved,
    out: &mut Sql,
) -> Result<(), SqlStop>
    ensures { IsHeldUnless context.entry.number (outside_rel saved.now.rel) result }
{
    if let Some(what) = rel_outside(&saved.rel) {
        return Err(SqlStop::Outside {
            statement: context.number,
            what,
        });
    }
    let way = Way::of(context.target, &saved.schema);
    put_create(way, name, &saved.schema, out);
    put_copy_of_days(way, name, &saved.schema, &saved.rel, out);
    Ok(())
}

/// Appends what adds the rows of a table file to a table.
pub fn put_import<F: Files>(
    context: Context<'_>,
    name: &Name,
    file: &Text,
    files: &mut F,
    outline: &Outline,
    out: &mut Sql,
) -> Result<(), SqlStop>
    requires fits { IsFit (known_of outline.now.names) (t.ImportFile name.now file.now) }
    ensures ends { (start : Folder) (contents : Contents) (before : List Effect) → IsHeldAt start contents before outline.now (F.folder files.old) →
        StepEnds context.entry.number before (taken (effect_of contents before (t.ImportFile name.now file.now))) outline.now result }
    ensures stops { IsStatementEnd result }
    ensures folder { (start : Folder) → AreAtStart start (F.folder files.old) → AreAtStart start (F.folder files.new) }
    ensures files { IsFaultCount (is_file_fault (run_end result)) (F.faults files.old) (F.faults files.new) }
{
    match outline.saved(file) {
        Some(_saved) => Err(SqlStop::Run(Stop::Fault(Fault::Header {
            statement: context.number,
        }))),
        None => import_file(context, name, file, files, outline, out),
    }
}

// Appends what adds the rows of a file that no statement saved.
fn import_file<F: Files>(
    context: Context<'_>,
    name: &Name,
    file: &Text,
    files: &mut F,
    outline: &Outline,
    out: &mut Sql,
) -> Result<(), SqlStop>
    requires fits { IsFit (known_of outline.now.names) (t.ImportFile name.now file.now) }
    requires unsaved { lookup (bytes_eq file.now) outline.now.files ≡ None }
    ensures ends { (start : Folder) (contents : Contents) (before : List Effect) → IsHeldAt start contents before outline.now (F.folder files.old) →
        StepEnds context.entry.number before (taken (effect_of contents before (t.ImportFile name.now file.now))) outline.now result }
    ensures stops { IsStatementEnd result }
    ensures folder { (start : Folder) → AreAtStart start (F.folder files.old) → AreAtStart start (F.folder files.new) }
    ensures files { IsFaultCount (is_file_fault (run_end result)) (F.faults files.old) (F.faults files.new) }
{
    known_outline();
    one_file_in_outline();
    one_table_file();
    one_fault_of_a_table_file();
    no_fault_of_a_table_file();
    read_file(context.number, file, files)?;
    let Some(schema) = outline.schema(name) else {
        unreachable!();
    };
    let way = Way::of(context.target, schema);
    match read_table(
        out.alloc(),
        schema,
        files.bytes(),
        &Unwatched::new(&OpenGate),
    ) {
        Ok(rows) => put_imported(way, context.number, name, schema, rows.as_slice(), out),
        Err(refusal) => Err(SqlStop::Run(Stop::of_bytes(context.number, refusal))),
    }
}

// Appends the rows of a table file, where PostgreSQL can hold them.
fn put_imported(
    way: Way,
    number: usize,
    name: &Name,
    schema: &Schema,
    rows: &[Row],
    out: &mut Sql,
) -> Result<(), SqlStop>
    ensures { IsHeldUnless number (outside_rows rows.now) result }
{
    if let Some(what) = rows_outside(rows) {
        return Err(SqlStop::Outside {
            statement: number,
            what,
        });
    }
    put_copy(way, name, schema, rows, out);
    Ok(())
}
