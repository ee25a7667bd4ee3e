//! What there is when a run has ended.

use og_base::Words;
use og_db::Db;

/// What a message is made of: all that there is when a run has ended.
#[derive(Clone, Copy)]
pub struct Scene<'a> {
    /// The bytes of the script, none where the command has a script of its own.
    pub script: &'a [u8],
    /// The words of the command line after the program's name.
    pub words: &'a Words,
    /// The names of the run as it left them.
    pub db: &'a Db,
    /// The bytes of the file that was read last.
    pub read: &'a [u8],
}
