//! What holds of the definitions themselves.
ghost use Rattle.std.specs.Prelude.{◌≡◌, ◌++◌, ◌∷◌, [], List, Some, map, true, ℕ, ℤ};
ghost use Rattle.std.specs.List.{All};
ghost use Rattle.og_base.specs.Calendar.{IsRefDay};
ghost use Rattle.og_base.specs.Ranges.{Range};
ghost use Rattle.og_value.specs.declared.kind.What.TheVariants as what;
ghost use Rattle.og_value.specs.declared.schema.Column.{Column};
ghost use Rattle.og_change.specs.Same.{IsLongest};
ghost use Rattle.og_syntax.specs.declared.tree.Stmt.{Stmt};
ghost use Rattle.og_words.specs.Grammar.{IsCommand};
ghost use Rattle.og_words.specs.declared.command.Command as commands;
ghost use Rattle.og_io.specs.Folders.{Folder};
ghost use Rattle.og_query.specs.declared.query.Query.{Query};
ghost use Rattle.og_query.specs.declared.typed.Typed.TheVariants as t;
ghost use Rattle.og_db.specs.Effects.{Effect, on_names, world_of_day};
ghost use Rattle.og_db.specs.Held.{found, known_of, without};
ghost use Rattle.og_db.specs.Live.{query_of, uses};
ghost use Rattle.og_db.specs.Runs.{known_after, live_of};
ghost use Rattle.og_faults.specs.declared.fault.Fault.{Fault};
ghost use Rattle.og_faults.specs.declared.fault.Fault.TheVariants as faults;
ghost use Rattle.og_script.specs.Scripts.{IsScript, IsScriptFault, IsScriptOf};
ghost use Rattle.og_session.specs.Contents.{AreContents, Contents};
ghost use Rattle.og_session.specs.LiveResults.{live_result};
ghost use Rattle.og_output.specs.Records.{names_text};
ghost use Rattle.og_session.specs.Output.{piece_of, printed, valid_range};
ghost use Rattle.og_session.specs.Runs.{IsDefinedRun, IsNoCommand, IsRun, Run, refused, run_from};

use og_file::{
    each_saved_file_or_fault, each_table_file_or_fault, no_fault_of_a_saved_file,
    no_fault_of_a_table_file, one_fault_of_a_saved_file, one_fault_of_a_table_file, one_saved_file,
    one_table_file,
};
use og_lex::{one_list_a_script, tokens_or_a_fault};
use og_parse::{one_tree, tree_or_fault};
use og_words::{command_or_none, one_command};

/// Any words, the bytes of any source and any files have a defined run, and one alone. So what `run` promises
/// is never promised of nothing. It has nothing to do: it is called for this contract.
pub fn one_defined_run()
    ensures some { (words : List (List ℕ)) (source : List ℕ) (start : Folder) → (run : Run) × IsDefinedRun words source start run }
    ensures one { (words : List (List ℕ)) (source : List ℕ) (start : Folder) (first second : Run) → IsDefinedRun words source start first → IsDefinedRun words source start second → first ≡ second }
{
    one_list_a_script();
    tokens_or_a_fault();
    one_tree();
    tree_or_fault();
    one_command();
    command_or_none();
    one_content();
    some_content();
}

/// Which run is the defined one: of words that are no command, of a source that is no script, and of a script.
pub fn defined_runs()
    ensures no_command { (words : List (List ℕ)) (source : List ℕ) (start : Folder) (run : Run) → IsNoCommand words → IsDefinedRun words source start run → run ≡ refused faults.Words }
    ensures no_script { (words : List (List ℕ)) (source : List ℕ) (fault : Fault) (start : Folder) (run : Run) → IsRun words → IsScriptFault source fault → IsDefinedRun words source start run → run ≡ refused fault }
    ensures script { (words : List (List ℕ)) (source : List ℕ) (start : Folder) (run : Run) (command : commands.Command) (stmts : List Stmt) → IsCommand words command → IsScriptOf command source stmts → IsDefinedRun words source start run →
        (contents : Contents) × AreContents start contents × (run ≡ run_from contents 1 [] stmts) }
    ensures no_fault { (source : List ℕ) (fault : Fault) (stmts : List Stmt) → IsScript source stmts → IsScriptFault source fault → ⊥ }
    ensures command { (words : List (List ℕ)) (a b : commands.Command) → IsCommand words a → IsCommand words b → a ≡ b }
{
    one_list_a_script();
    tokens_or_a_fault();
    one_tree();
    tree_or_fault();
    one_command();
}

/// The valid range is the longest range of days around the day on all of which a PRINT of the name writes what
/// it writes on the day, and there is one such range alone. So the search that defines it need not be trusted.
/// It has nothing to do: it is called for this contract.
pub fn valid_ranges()
    ensures longest { (before : List Effect) (name : List ℕ) (day : ℤ) → IsRefDay day → IsLongest (λ d. printed before name d ≡ printed before name day) day (valid_range before name day) }
    ensures one { (before : List Effect) (name : List ℕ) (day : ℤ) (range : Range) → IsRefDay day → IsLongest (λ d. printed before name d ≡ printed before name day) day range → range ≡ valid_range before name day }
{}

/// The catalog is the same on all days: after any statements the world of each day has the names that TABLES
/// writes, each what TABLES says, and each with the columns that checks know. It has nothing to do: it is called
/// for this contract.
pub fn one_catalog()
    ensures tables { (before : List Effect) (day : ℤ) → names_text (world_of_day day before).names ≡ piece_of before (on_names (t.Tables, tt)) }
    ensures known { (before : List Effect) (day : ℤ) (name : List ℕ) → known_of (world_of_day day before).names name ≡ known_after before name }
{}

/// What live results are on each day. After any front of what a run carries out, each is a live name with the
/// columns of its query and the rows that this query has over the names of that day. No other name is live. A DROP
/// of a table that its query names makes it a kept result, in its place, with the rows from before the DROP. It has
/// nothing to do: it is called for this contract.
pub fn live_results()
    ensures live { (words : List (List ℕ)) (source : List ℕ) (start : Folder) (run : Run) (before after : List Effect) → IsDefinedRun words source start run → run.done ≡ before ++ after →
        (day : ℤ) → All (λ l. found (world_of_day day before).names l.name ≡ Some (live_result what.Live day (world_of_day day before).names l)) (live_of before) }
    ensures all { (before : List Effect) (name : List ℕ) (columns : List Column) → known_after before name ≡ Some (what.Live, columns) → (query : Query) × (query_of (live_of before) name ≡ Some query) }
    ensures dropped { (words : List (List ℕ)) (source : List ℕ) (start : Folder) (run : Run) (before after : List Effect) (table : List ℕ) → IsDefinedRun words source start run → run.done ≡ before ++ on_names (t.Drop table, tt) ∷ after →
        (day : ℤ) → All (λ l. uses l.query table ≡ true → found (world_of_day day (before ++ on_names (t.Drop table, tt) ∷ [])).names l.name ≡ Some (live_result what.Kept day (world_of_day day before).names l)) (live_of before) }
    ensures order { (before : List Effect) (table : List ℕ) (day : ℤ) →
        map (λ h. h.name) (world_of_day day (before ++ on_names (t.Drop table, tt) ∷ [])).names ≡ map (λ h. h.name) (without table (world_of_day day before).names) }
{}

/// Any files hold something.
fn some_content()
    ensures { (start : Folder) → (contents : Contents) × AreContents start contents }
{
    each_saved_file_or_fault();
    each_table_file_or_fault();
}

/// And they hold one thing alone.
fn one_content()
    ensures { (start : Folder) (a b : Contents) → AreContents start a → AreContents start b → a ≡ b }
{
    one_saved_file();
    one_table_file();
    no_fault_of_a_saved_file();
    no_fault_of_a_table_file();
    one_fault_of_a_saved_file();
    one_fault_of_a_table_file();
}
