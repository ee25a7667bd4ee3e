//! Laws on files, over their definitions alone.
ghost use Rattle.std.specs.Prelude.{◌≡◌, ◌≢◌, ◌⊎◌, ◌↔◌, ◌++◌, ◌∷◌, [], ℕ, List, length};
ghost use Rattle.std.specs.List.{All};
ghost use Rattle.csv.specs.Reading.{strip_bom};
ghost use Rattle.og_value.specs.Words.{IsLowerWord};
ghost use Rattle.og_value.specs.declared.schema.Column.{Column};
ghost use Rattle.og_value.specs.declared.value.Value.{Value};
ghost use Rattle.og_file.specs.CutFiles.{cut_fault_one, cut_fault_two};
ghost use Rattle.og_file.specs.PlainFiles.{CanBeSaved, IsPlainFile, text_of_records};
ghost use Rattle.og_file.specs.Records.{Record, AreAll, Begins};
ghost use Rattle.og_file.specs.SavedFile.{IsSavedFault, IsSavedFile, IsVersionOne, IsVersionTwo, Pair};
ghost use Rattle.og_file.specs.TableFile.{IsTableFault, IsTableFile};
ghost use Rattle.og_file.specs.Writing.{IsOfKinds, records_of};
ghost use Rattle.og_file.specs.declared.refusal.FileRefusal.{FileRefusal};

use og_value::Schema;

/// The bytes of a file have one list of records, and the first records begin it.
pub fn one_list_of_records()
    ensures one { (bytes : List ℕ) (a b : List Record) → AreAll bytes a → AreAll bytes b → a ≡ b }
    ensures first { (bytes : List ℕ) (a b : List Record) → Begins bytes a → AreAll bytes b → (rest : List Record) × (b ≡ a ++ rest) }
{}

/// A table file has one list of rows for the columns.
pub fn one_table_file()
    ensures { (columns : List Column) (bytes : List ℕ) (a b : List (List Value)) → IsTableFile columns bytes a → IsTableFile columns bytes b → a ≡ b }
{}

/// A saved file has one list of columns, and one list of rows on their days.
pub fn one_saved_file()
    ensures { (bytes : List ℕ) (c d : List Column) (p q : List Pair) → IsSavedFile bytes c p → IsSavedFile bytes d q → (c ≡ d) × (p ≡ q) }
{}

/// The rows of a table file have values of the kinds of the columns.
pub fn rows_of_a_table_file_fit()
    ensures { (columns : List Column) (bytes : List ℕ) (rows : List (List Value)) → IsTableFile columns bytes rows → All (IsOfKinds columns) rows }
{}

/// The rows of a saved file have values of the kinds of its columns.
pub fn rows_of_a_saved_file_fit()
    ensures { (bytes : List ℕ) (columns : List Column) (pairs : List Pair) → IsSavedFile bytes columns pairs → All (λ p. IsOfKinds columns p.0) pairs }
{}

/// Of a table file no fault can be said, but that memory ran out.
pub fn no_fault_of_a_table_file()
    ensures { (columns : List Column) (bytes : List ℕ) (rows : List (List Value)) (e : FileRefusal) → IsTableFile columns bytes rows → IsTableFault columns bytes e → e ≡ FileRefusal.NoMemory }
{}

/// Of a saved file no fault can be said, but that memory ran out.
pub fn no_fault_of_a_saved_file()
    ensures { (bytes : List ℕ) (c : List Column) (p : List Pair) (e : FileRefusal) → IsSavedFile bytes c p → IsSavedFault bytes e → e ≡ FileRefusal.NoMemory }
{}

/// Of the same bytes no two faults can be said of a table file for the columns, but that memory ran out.
pub fn one_fault_of_a_table_file()
    ensures { (columns : List Column) (bytes : List ℕ) (a b : FileRefusal) → a ≢ FileRefusal.NoMemory → b ≢ FileRefusal.NoMemory
        → IsTableFault columns bytes a → IsTableFault columns bytes b → a ≡ b }
{}

/// Of the same bytes no two faults can be said of a saved file, but that memory ran out.
pub fn one_fault_of_a_saved_file()
    ensures { (bytes : List ℕ) (a b : FileRefusal) → a ≢ FileRefusal.NoMemory → b ≢ FileRefusal.NoMemory
        → IsSavedFault bytes a → IsSavedFault bytes b → a ≡ b }
{}

/// Any bytes have records, so what is promised of the records of a file is never promised of nothing.
pub fn records_of_all_bytes()
    ensures { (bytes : List ℕ) → (records : List Record) × AreAll bytes records }
{}

/// A byte order mark in front changes nothing.
pub fn a_mark_changes_nothing()
    ensures { (bytes : List ℕ) (records : List Record) → strip_bom bytes ≡ bytes → AreAll (0xEF ∷ 0xBB ∷ 0xBF ∷ bytes) records ↔ AreAll bytes records }
{}

/// A saved file that is cut between two records is no saved file any more, not even of other rows. Its fault
/// is that of the header where this is gone too. Else it is the number of rows in version 1, and in version 2
/// the first record that is missing.
pub fn a_cut_file_is_refused()
    ensures one { (whole cut : List ℕ) (columns : List Column) (pairs : List Pair) (front rest : List Record) → IsVersionOne whole columns pairs (length pairs)
        → AreAll whole (front ++ rest) → rest ≢ [] → AreAll cut front
        → (cs : List Column) (ps : List Pair) → ¬ IsSavedFile cut cs ps }
    ensures two { (whole cut : List ℕ) (columns : List Column) (pairs : List Pair) (front rest : List Record) → IsVersionTwo whole columns pairs (length pairs)
        → AreAll whole (front ++ rest) → rest ≢ [] → AreAll cut front
        → (cs : List Column) (ps : List Pair) → ¬ IsSavedFile cut cs ps }
    ensures fault_one { (whole cut : List ℕ) (columns : List Column) (pairs : List Pair) (front rest : List Record) → IsVersionOne whole columns pairs (length pairs)
        → AreAll whole (front ++ rest) → rest ≢ [] → AreAll cut front
        → IsSavedFault cut (cut_fault_one (length pairs) (length front)) }
    ensures fault_two { (whole cut : List ℕ) (columns : List Column) (pairs : List Pair) (front rest : List Record) → IsVersionTwo whole columns pairs (length pairs)
        → AreAll whole (front ++ rest) → rest ≢ [] → AreAll cut front
        → IsSavedFault cut (cut_fault_two (length front)) }
{}

/// Any bytes are a table file, or no table file for one of the reasons that a refusal says.
pub fn each_table_file_or_fault()
    ensures { (columns : List Column) (bytes : List ℕ)
        → ((rows : List (List Value)) × IsTableFile columns bytes rows)
        ⊎ ((e : FileRefusal) × (e ≢ FileRefusal.NoMemory) × IsTableFault columns bytes e) }
{}

/// Any bytes are a saved file, or no saved file for one of the reasons that a refusal says.
pub fn each_saved_file_or_fault()
    ensures { (bytes : List ℕ)
        → ((columns : List Column) × (pairs : List Pair) × IsSavedFile bytes columns pairs)
        ⊎ ((e : FileRefusal) × (e ≢ FileRefusal.NoMemory) × IsSavedFault bytes e) }
{}

/// A saved file of version 2 is no table file for any columns whose names are words, and is refused with
/// the fault of a header. The names of each schema are words (`column_names_are_words`).
pub fn a_saved_file_is_no_table_file()
    ensures { (bytes : List ℕ) (columns saved : List Column) (pairs : List Pair) (count : ℕ) → All (λ c. IsLowerWord c.name) columns
        → IsVersionTwo bytes saved pairs count → IsTableFault columns bytes FileRefusal.Header }
{}

/// A saved file of version 1 is no table file either, and a table file is no saved file of either version, where
/// the names of the columns are words. Each is refused with the fault of a header.
pub fn no_table_file_is_a_saved_file()
    ensures one { (bytes : List ℕ) (columns saved : List Column) (pairs : List Pair) (count : ℕ) → All (λ c. IsLowerWord c.name) columns
        → IsVersionOne bytes saved pairs count → IsTableFault columns bytes FileRefusal.Header }
    ensures table { (bytes : List ℕ) (columns : List Column) (rows : List (List Value)) → All (λ c. IsLowerWord c.name) columns
        → IsTableFile columns bytes rows → IsSavedFault bytes FileRefusal.Header }
{}

/// What was written is read again. Bytes that are the plain saved file of columns and rows on their days are a
/// saved file of these, and of no others. And what a saved file can hold has such bytes.
pub fn what_was_written_is_read_again()
    ensures saved { (bytes : List ℕ) (columns : List Column) (pairs : List Pair) → IsPlainFile bytes columns pairs → IsSavedFile bytes columns pairs }
    ensures same { (bytes : List ℕ) (columns cs : List Column) (pairs ps : List Pair) → IsPlainFile bytes columns pairs → IsSavedFile bytes cs ps
        → (cs ≡ columns) × (ps ≡ pairs) }
    ensures text { (columns : List Column) (pairs : List Pair) → CanBeSaved columns pairs → IsPlainFile (text_of_records (records_of columns pairs)) columns pairs }
{}

/// A saved file that is opened and saved keeps its columns and its rows on their days, and so its table on each
/// day, also where it was of version 1. For what it holds can be saved, and the plain saved file of that is read
/// as nothing else.
pub fn a_saved_file_can_be_saved_again()
    ensures held { (bytes : List ℕ) (columns : List Column) (pairs : List Pair) → IsSavedFile bytes columns pairs → CanBeSaved columns pairs }
    ensures again { (bytes : List ℕ) (columns : List Column) (pairs : List Pair) → IsSavedFile bytes columns pairs
        → (again : List ℕ) × IsPlainFile again columns pairs × ((cs : List Column) (ps : List Pair) → IsSavedFile again cs ps → (cs ≡ columns) × (ps ≡ pairs)) }
{}

/// The names of a schema's columns are words in lower case. Called for its clause alone: it changes
/// nothing and gives nothing back.
pub fn column_names_are_words(schema: &Schema)
    ensures { All (λ c. IsLowerWord c.name) schema.now }
{
    'columns: for i in 0..schema.len() {
        schema.column(i).name.lower_word();
    }
}
