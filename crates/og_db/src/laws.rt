//! What is known of databases and statements, over their definitions alone.
ghost use Rattle.std.specs.Prelude.{◌≡◌, ◌++◌, ◌∷◌, ℕ, ℤ, List, [], length};
ghost use Rattle.std.specs.List.{All};
ghost use Rattle.std.specs.Option.{option_map};
ghost use Rattle.og_base.specs.Calendar.{IsRefDay};
ghost use Rattle.og_rel.specs.Relations.{HasDays, relation_at};
ghost use Rattle.og_value.specs.Order.{row_order};
ghost use Rattle.og_value.specs.Values.{row_at};
ghost use Rattle.og_value.specs.declared.kind.What.TheVariants as what;
ghost use Rattle.og_value.specs.declared.schema.Column.{Column};
ghost use Rattle.og_value.specs.declared.value.Value.{Value};
ghost use Rattle.og_query.specs.declared.typed.Typed.TheVariants as t;
ghost use Rattle.og_db.specs.Database.{Relation, HaveKinds, names_at};
ghost use Rattle.og_db.specs.Fits.{IsFitFixed};
ghost use Rattle.og_db.specs.Held.{Held, found, known_of, made_of};
ghost use Rattle.og_db.specs.Effects.{Effect, on_names, saved, reopened, opened, imported, with_file, with_name, statement_names, statement_sizes};
ghost use Rattle.og_db.specs.Live.{live_after};
ghost use Rattle.og_db.specs.Runs.{AreWithin, IsWorldOf, known_after, live_of, sizes_at};
ghost use Rattle.og_db.specs.Statements.{Names, OfNames, names_after, name_sizes_after};

/// A database without names, and no file that was saved, are the world of each day before any statement.
pub fn no_statements()
    ensures { IsWorldOf [] [] [] }
{}

/// A database that is the world of each day after statements knows the names that they leave.
pub fn known_names()
    ensures { (db files : List (Held Relation)) (effects : List Effect) → IsWorldOf db files effects → known_of db ≡ known_after effects }
{}

/// What was the world of each day after statements, where all names were changed as one more says that acts on
/// names alone, with what becomes of the live ones, is the world of each day after these and that one. Where no
/// name is live before that statement and after it, it is what it does to the names. Names are within their own
/// sizes.
pub fn one_statement_more()
    ensures done { (old new files : List (Held Relation)) (stmt : OfNames) (effects : List Effect) →
        ((d : ℤ) → IsRefDay d → names_at d new ≡ statement_names d (live_of effects) (names_at d old) stmt) →
        AreWithin (sizes_at new) (statement_sizes (live_of effects) (sizes_at old) stmt) → IsWorldOf old files effects → IsWorldOf new files (effects ++ on_names stmt ∷ []) }
    ensures same { (sizes : List (Held ℕ)) → AreWithin sizes sizes }
    ensures no_live_names { (effects : List Effect) (stmt : OfNames) → live_of effects ≡ [] → live_after [] stmt.0 ≡ [] →
        (d : ℤ) (names : Names) → statement_names d (live_of effects) names stmt ≡ names_after d names stmt }
    ensures no_live_sizes { (effects : List Effect) (stmt : OfNames) → live_of effects ≡ [] → live_after [] stmt.0 ≡ [] →
        (sizes : List (Held ℕ)) → statement_sizes (live_of effects) sizes stmt ≡ name_sizes_after sizes stmt }
{}

/// The same of one statement more that acts on a file: a file that now holds what a name holds, a name that now
/// holds what a saved file or another one holds, and a table with the rows of a file.
pub fn one_file_more()
    ensures saved { (db files : List (Held Relation)) (name file : List ℕ) (effects : List Effect) → IsWorldOf db files effects →
        IsWorldOf db (with_file file (found db name) files) (effects ++ saved name file ∷ []) }
    ensures reopened { (db files : List (Held Relation)) (name file : List ℕ) (effects : List Effect) → IsWorldOf db files effects →
        IsWorldOf (with_name name (found files file) db) files (effects ++ reopened name file ∷ []) }
    ensures opened { (db files : List (Held Relation)) (name : List ℕ) (columns : List Column) (rel : Relation) (effects : List Effect) → IsWorldOf db files effects →
        IsWorldOf (db ++ record { name = name; what = what.Kept; columns = columns; rows = rel } ∷ []) files (effects ++ opened name columns rel ∷ []) }
    ensures imported { (old new files : List (Held Relation)) (name : List ℕ) (rows : List (List Value)) (effects : List Effect) →
        ((d : ℤ) → IsRefDay d → names_at d new ≡ statement_names d (live_of effects) (names_at d old) (t.Insert name rows, tt)) →
        AreWithin (sizes_at new) (statement_sizes (live_of effects) (sizes_at old) (t.Insert name rows, tt)) → IsWorldOf old files effects →
        IsWorldOf new files (effects ++ imported name rows ∷ []) }
{}

/// What is found under a name on a day, and in the sizes of a database, is made of what the database holds
/// under it.
pub fn found_names()
    ensures rows { (d : ℤ) (db : List (Held Relation)) (name : List ℕ) → found (names_at d db) name ≡ option_map (made_of (λ rel. relation_at row_order row_at rel d)) (found db name) }
    ensures sizes { (db : List (Held Relation)) (name : List ℕ) → found (sizes_at db) name ≡ option_map (made_of length) (found db name) }
{}

/// Rows that fit columns do so on each day, and rows that have days fit where they do so on each day.
pub fn fitting_rows()
    ensures on_a_day { (columns : List Column) (rel : Relation) → HaveKinds columns rel → (d : ℤ) → All (IsFitFixed columns) (relation_at row_order row_at rel d) }
    ensures on_all_days { (columns : List Column) (rel : Relation) → All (λ p. HasDays p.1) rel →
        ((d : ℤ) → IsRefDay d → All (IsFitFixed columns) (relation_at row_order row_at rel d)) → HaveKinds columns rel }
{}
