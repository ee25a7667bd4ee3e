//! Commands, and why words are none.
ghost use Rattle.std.specs.Prelude.{◌≡◌};

use og_base::RefDay;
use og_value::Text;
use std::alloc::AllocError;
use thiserror::Error;

/// What the program is asked to do.
#[derive(Debug, Drop)]
pub enum Command {
    /// Run the script of the source with so many workers, 1 to 64.
    Run { workers: u8 },
    /// Open the file of that name and print it as of the day.
    At { file: Text, day: RefDay },
    /// Fill two tables with so many rows each, 1 to 200000, and join them with so many workers, 1 to 64.
    Load { rows: u32, workers: u8 },
}

/// Why words give no command.
#[derive(Clone, Copy, Debug, PartialEq, Eq, Error)]
pub enum WordsRefusal {
    /// The words are no command.
    #[error("the words are no command")]
    NoCommand,
    /// Memory ran out.
    #[error("want of memory")]
    NoMemory,
}

impl From<AllocError> for WordsRefusal {
    ghost use Rattle.og_words.specs.declared.command.WordsRefusal.{WordsRefusal};

    ghost from_gives = { λ _ e. e ≡ WordsRefusal.NoMemory };

    fn from(_: AllocError) -> WordsRefusal {
        WordsRefusal::NoMemory
    }
}
