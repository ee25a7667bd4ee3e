//! What is known of the checks, over their definition alone.
ghost use Rattle.std.specs.Prelude.{◌≡◌, ℕ, List, Option, true, Ok, Err};
ghost use Rattle.og_value.specs.declared.kind.Kind.{Kind};
ghost use Rattle.og_syntax.specs.declared.tree.Stmt.{Stmt};
ghost use Rattle.og_query.specs.Fits.{Known, IsFit};
ghost use Rattle.og_query.specs.declared.typed.Typed.{Typed};
ghost use Rattle.og_check.specs.Columns.{StandsFor};
ghost use Rattle.og_check.specs.Sight.{Sight, found};
ghost use Rattle.og_check.specs.Statements.{checked};
ghost use Rattle.og_check.specs.Steps.{is_fault};
ghost use Rattle.og_check.specs.declared.refusal.CheckRefusal.{CheckRefusal};

/// A statement without a fault fits the names and kinds that it names.
pub fn checked_fits()
    ensures { (known : Known) (stmt : Stmt) (typed : Typed) → checked known stmt ≡ Ok typed → IsFit known typed }
{}

/// A column that is found has the name and the kind, in an item of the alias that is written, and is the
/// only one; in the condition of EXISTS it is the inner item's where that has such a column.
pub fn found_columns()
    ensures { (sight : Sight) (table : Option (List ℕ)) (name : List ℕ) (place : ℕ) (kind : Kind) → found sight table name ≡ Ok (place, kind) → StandsFor sight table name place kind }
{}

/// The first fault of a statement is never want of memory.
pub fn faults_are_told()
    ensures { (known : Known) (stmt : Stmt) (reason : CheckRefusal) → checked known stmt ≡ Err reason → is_fault reason ≡ true }
{}
