//! What the checks of a statement found, in words.
ghost use Rattle.std.specs.Prelude.{◌≡◌, option_copied};
ghost use Rattle.og_report.specs.Marks as spec;

use og_base::NoMemory;
use og_check::CheckRefusal;
use og_faults::kind_word;
use std::alloc::Global;

/// The words of a refusal of the checks.
pub fn check_words(alloc: Global, refusal: &CheckRefusal) -> Result<String, NoMemory> {
    let words = match refusal {
        CheckRefusal::NoSuchName { name } => format!(in alloc; "no such name {}", name.as_str())?,
        CheckRefusal::NameTaken { name } => {
            format!(in alloc; "the name {} is taken", name.as_str())?
        }
        CheckRefusal::NoSuchColumn { name } => {
            format!(in alloc; "no such column {}", name.as_str())?
        }
        CheckRefusal::AmbiguousColumn { name } => {
            format!(in alloc; "the column {} is ambiguous", name.as_str())?
        }
        CheckRefusal::KindsDiffer { found, wanted } => {
            format!(in alloc;
                "wanted {}, found {}",
                kind_word(*wanted),
                kind_word(*found)
            )?
        }
        CheckRefusal::CountsDiffer { found, wanted } => {
            format!(in alloc; "wanted {wanted}, found {found}")?
        }
        CheckRefusal::TooMany { found, limit } => {
            format!(in alloc; "found {found}, at most {limit}")?
        }
        CheckRefusal::NoMemory => String::new(alloc),
    };
    Ok(words)
}

/// The name that the checks found wrong, if it is one.
pub fn wrong_name(refusal: &CheckRefusal) -> Option<&[u8]>
    ensures { option_copied result ≡ spec.wrong_name refusal.now }
{
    match refusal {
        CheckRefusal::NoSuchName { name } | CheckRefusal::NameTaken { name } => Some(name.bytes()),
        CheckRefusal::NoSuchColumn { name } | CheckRefusal::AmbiguousColumn { name } => {
            Some(name.bytes())
        }
        _ => None,
    }
}
