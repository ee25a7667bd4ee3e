//! What holds of the grammar of words.
ghost use Rattle.std.specs.Prelude.{◌≡◌, ◌⊎◌, List, ℕ};
ghost use Rattle.og_words.specs.Grammar.{IsCommand};
ghost use Rattle.og_words.specs.declared.command.Command as commands;

use og_base::{a_day_text_or_none, one_text_a_day};

/// Words are at most one command.
pub fn one_command()
    ensures { (words : List (List ℕ)) → (c d : commands.Command) → IsCommand words c → IsCommand words d → c ≡ d }
{
    one_text_a_day();
}

/// Any words are a command, or none.
pub fn command_or_none()
    ensures { (words : List (List ℕ)) → ((c : commands.Command) × IsCommand words c) ⊎ ((c : commands.Command) → ¬ IsCommand words c) }
{
    a_day_text_or_none();
}
