//! Files of tables: saved files of both versions, and table files.
//!
//! `write_saved` makes the bytes of a saved file of version 2, with each row on its days. `read_saved`
//! gives the columns and the rows of a saved file of version 1 or 2, and `read_table` the rows of a plain
//! table file for a schema; each refuses other bytes with the first fault that applies. What a saved file
//! is, and which faults other bytes have, stands in specs/SavedFile.antt; for table files in
//! specs/TableFile.antt. The records of bytes are those of the crate `csv` (specs/Records.antt), read one
//! at a time over one buffer.
//!
//! `record_at` gives one record of bytes. `bad_record` and `bad_saved_record` tell what is wrong with a record
//! of a file that was refused (specs/BadRecords.antt).
//!
//! No tests here: the cases test the calls (docs/CASES.md).
#![tactic(auto)]

mod bad_records;
mod cells;
mod header;
mod laws;
mod names;
mod records;
mod refusal;
mod rows;
mod saved;
mod table;
mod told;
mod write;

pub use bad_records::{BadRecord, bad_record, bad_saved_record};
pub use laws::{
    a_cut_file_is_refused, a_mark_changes_nothing, a_saved_file_can_be_saved_again,
    a_saved_file_is_no_table_file, column_names_are_words, each_saved_file_or_fault,
    each_table_file_or_fault, no_fault_of_a_saved_file, no_fault_of_a_table_file,
    no_table_file_is_a_saved_file, one_fault_of_a_saved_file, one_fault_of_a_table_file,
    one_list_of_records, one_saved_file, one_table_file, records_of_all_bytes,
    rows_of_a_saved_file_fit, rows_of_a_table_file_fit, what_was_written_is_read_again,
};
pub use records::record_at;
pub use refusal::FileRefusal;
pub use saved::{Saved, read_saved};
pub use table::read_table;
pub use write::{text_of, write_saved};
