//! Kinds and counts that were found, against those that are wanted.
ghost use Rattle.std.specs.Prelude.{◌≡◌, ◌≤◌, length, IfOk};
ghost use Rattle.og_check.specs.Results.{Gives};
ghost use Rattle.og_check.specs.Steps as spec;

use crate::refusal::CheckRefusal;
use og_value::Kind;

/// `KindsDiffer` exactly where the found kind is not the wanted one.
#[tactic(auto, unfolding(crate::specs::Steps::is_kind))]
pub fn same_kind(found: Kind, wanted: Kind) -> Result<(), CheckRefusal>
    ensures { Gives result (spec.same_kind found wanted) }
{
    if found != wanted {
        return Err(CheckRefusal::KindsDiffer { found, wanted });
    }
    Ok(())
}

/// `CountsDiffer` exactly where other than so many were found.
pub fn same_count(found: usize, wanted: usize) -> Result<(), CheckRefusal>
    ensures fault { Gives result (spec.same_count found wanted) }
    ensures same { IfOk result (λ _. found ≡ wanted) }
{
    if found != wanted {
        return Err(CheckRefusal::CountsDiffer { found, wanted });
    }
    Ok(())
}

// The fault of the kinds that were found against as many wanted ones, from the left.
fn same_kinds(found: &[Kind], wanted: &[Kind]) -> Result<(), CheckRefusal>
    requires { length found.now ≡ length wanted.now }
    ensures { Gives result (spec.same_kinds found.now wanted.now) }
{
    'kinds: for i in 0..found.len() {
        same_kind(found[i], wanted[i])?;
    }
    Ok(())
}

/// The first fault of the kinds that were found: `CountsDiffer` where other than as many are wanted,
/// then `KindsDiffer` for the first from the left that is not the wanted one.
pub fn agree(found: &[Kind], wanted: &[Kind]) -> Result<(), CheckRefusal>
    ensures { Gives result (spec.agree found.now wanted.now) }
{
    same_count(found.len(), wanted.len())?;
    same_kinds(found, wanted)
}

/// `CountsDiffer` where none was found, `TooMany` where more than the limit were.
pub fn within(limit: usize, found: usize) -> Result<(), CheckRefusal>
    ensures fault { Gives result (spec.within limit found) }
    ensures some { IfOk result (λ _. 1 ≤ found) }
    ensures most { IfOk result (λ _. found ≤ limit) }
{
    if found == 0 {
        return Err(CheckRefusal::CountsDiffer {
            found: 0,
            wanted: 1,
        });
    }
    if limit < found {
        return Err(CheckRefusal::TooMany { found, limit });
    }
    Ok(())
}
