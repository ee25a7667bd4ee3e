//! The texts of lines.
ghost use Rattle.std.specs.Prelude.{◌≡◌, IfOk, string_bytes};
ghost use Rattle.og_check.specs.declared.refusal.CheckRefusal.TheVariants as checks;
ghost use Rattle.og_faults.specs.Faults.{fault_line};
ghost use Rattle.og_faults.specs.Lines as spec;
ghost use Rattle.og_faults.specs.declared.fault.Fault.TheVariants as faults;

use og_base::NoMemory;
use og_check::CheckRefusal;
use og_value::Kind;
use std::alloc::Global;

/// The line of a refusal of the checks.
pub fn check_line(
    alloc: Global,
    statement: usize,
    refusal: &CheckRefusal,
) -> Result<String, NoMemory>
    ensures { IfOk result (λ line. string_bytes line ≡ fault_line (faults.Check statement refusal.now)) }
{
    match refusal {
        CheckRefusal::NoSuchName { name } => {
            line_with(
                alloc,
                "fault no such name statement ",
                statement,
                name.as_str(),
            )
        }
        CheckRefusal::NameTaken { name } => {
            line_with(
                alloc,
                "fault name taken statement ",
                statement,
                name.as_str(),
            )
        }
        CheckRefusal::NoSuchColumn { name } => {
            line_with(
                alloc,
                "fault no such column statement ",
                statement,
                name.as_str(),
            )
        }
        CheckRefusal::AmbiguousColumn { name } => {
            line_with(
                alloc,
                "fault ambiguous column statement ",
                statement,
                name.as_str(),
            )
        }
        CheckRefusal::KindsDiffer { found, wanted } => {
            kinds_line(alloc, statement, *found, *wanted)
        }
        CheckRefusal::CountsDiffer { found, wanted } => {
            counts_line(alloc, statement, *found, *wanted)
        }
        CheckRefusal::TooMany { found, limit } => many_line(alloc, statement, *found, *limit),
        CheckRefusal::NoMemory => Ok(String::new(alloc)),
    }
}

/// A line that ends with a number.
pub fn numbered(alloc: Global, words: &str, number: usize) -> Result<String, NoMemory>
    ensures { IfOk result (λ line. string_bytes line ≡ spec.numbered words.now number) }
{
    let line = format!(in alloc; "{words}{number}\n")?;
    Ok(line)
}

/// A line with the number of a statement, and what follows it.
pub fn line_with(
    alloc: Global,
    words: &str,
    statement: usize,
    more: &str,
) -> Result<String, NoMemory>
    ensures { IfOk result (λ line. string_bytes line ≡ spec.numbered_with words.now statement more.now) }
{
    let line = format!(in alloc; "{words}{statement}: {more}\n")?;
    Ok(line)
}

// The line where kinds differ.
fn kinds_line(
    alloc: Global,
    statement: usize,
    found: Kind,
    wanted: Kind,
) -> Result<String, NoMemory>
    ensures { IfOk result (λ line. string_bytes line ≡ fault_line (faults.Check statement (checks.KindsDiffer found wanted))) }
{
    let found = kind_word(found);
    let wanted = kind_word(wanted);
    let line = format!(in alloc;
        "fault kinds differ statement {statement}: {found} for {wanted}\n"
    )?;
    Ok(line)
}

// The line where counts differ.
fn counts_line(
    alloc: Global,
    statement: usize,
    found: usize,
    wanted: usize,
) -> Result<String, NoMemory>
    ensures { IfOk result (λ line. string_bytes line ≡ fault_line (faults.Check statement (checks.CountsDiffer found wanted))) }
{
    let line = format!(in alloc;
        "fault counts differ statement {statement}: {found} for {wanted}\n"
    )?;
    Ok(line)
}

// The line where there are too many.
fn many_line(
    alloc: Global,
    statement: usize,
    found: usize,
    limit: usize,
) -> Result<String, NoMemory>
    ensures { IfOk result (λ line. string_bytes line ≡ fault_line (faults.Check statement (checks.TooMany found limit))) }
{
    let line = format!(in alloc; "fault too many statement {statement}: {found} of {limit}\n")?;
    Ok(line)
}

/// The line where a record of a file is not of its form.
pub fn record_line(alloc: Global, statement: usize, number: u64) -> Result<String, NoMemory>
    ensures { IfOk result (λ line. string_bytes line ≡ fault_line (faults.Record statement number)) }
{
    let line = format!(in alloc; "fault record {number} statement {statement}\n")?;
    Ok(line)
}

/// The line where a file says another number of rows than it has.
pub fn rows_line(alloc: Global, statement: usize, said: u64, found: u64) -> Result<String, NoMemory>
    ensures { IfOk result (λ line. string_bytes line ≡ fault_line (faults.RowCount statement said found)) }
{
    let line = format!(in alloc;
        "fault row count statement {statement}: said {said} found {found}\n"
    )?;
    Ok(line)
}

/// The word of a kind, as a script has it.
pub fn kind_word(kind: Kind) -> &'static str
    ensures { result.now ≡ spec.kind_word kind }
{
    match kind {
        Kind::Int => "INT",
        Kind::Text => "TEXT",
        Kind::Date => "DATE",
        Kind::Period => "PERIOD",
    }
}
