//! What is known of outlines, over their definitions alone.
ghost use Rattle.std.specs.Prelude.{◌≡◌, ◌++◌, ◌∷◌, ℕ, List, [], Some};
ghost use Rattle.og_value.specs.declared.schema.Column.{Column};
ghost use Rattle.og_value.specs.declared.value.Value.{Value};
ghost use Rattle.og_db.specs.Database.{Relation};
ghost use Rattle.og_db.specs.Effects.{Effect, imported, on_names, opened, reopened, saved, sizes_after};
ghost use Rattle.og_db.specs.Held.{known_of};
ghost use Rattle.og_db.specs.Runs.{known_after};
ghost use Rattle.og_db.specs.Statements.{OfNames};
ghost use Rattle.og_query.specs.Fits.{schemas_of};
ghost use Rattle.og_outline.specs.Outlines.{IsOutlineOf, Outlined, names_differ, outlined_after, outlined_open, outlined_save, saved_columns};

/// No names and no files are the outline of no statements.
pub fn no_outline()
    ensures { IsOutlineOf (record { names = []; files = [] }) [] }
{}

/// The outline of statements knows the names that they leave.
pub fn known_outline()
    ensures { (o : Outlined) (effects : List Effect) → IsOutlineOf o effects → known_of o.names ≡ known_after effects }
{}

/// What a statement that acts on names alone makes of the outline of others is the outline of these and of that one, where
/// no two names are the same.
pub fn one_statement_in_outline()
    ensures { (o : Outlined) (effects : List Effect) (stmt : OfNames) → names_differ o → IsOutlineOf o effects →
        IsOutlineOf (outlined_after o stmt.0) (effects ++ on_names stmt ∷ []) }
{}

/// What a statement on a file makes of the outline of others is the outline of these and of that one: SAVE, OPEN of a file
/// that was saved before or of another, and IMPORT.
pub fn one_file_in_outline()
    ensures saved { (o : Outlined) (effects : List Effect) (number : ℕ) (name file : List ℕ) (columns : List Column) → IsOutlineOf o effects →
        schemas_of (known_of o.names) name ≡ Some columns → IsOutlineOf (outlined_save number columns file o) (effects ++ saved name file ∷ []) }
    ensures reopened { (o : Outlined) (effects : List Effect) (name file : List ℕ) (columns : List Column) → IsOutlineOf o effects →
        saved_columns o.files file ≡ Some columns → IsOutlineOf (outlined_open name columns o) (effects ++ reopened name file ∷ []) }
    ensures opened { (o : Outlined) (effects : List Effect) (name : List ℕ) (columns : List Column) (rel : Relation) → IsOutlineOf o effects →
        IsOutlineOf (outlined_open name columns o) (effects ++ opened name columns rel ∷ []) }
    ensures imported { (o : Outlined) (effects : List Effect) (name : List ℕ) (rows : List (List Value)) → IsOutlineOf o effects →
        IsOutlineOf o (effects ++ imported name rows ∷ []) }
{}
