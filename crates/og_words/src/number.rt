//! Numbers in words.
ghost use Rattle.std.specs.Prelude.{◌≡◌, ◌<◌, ◌≤◌, ◌^◌, ℕ, IfSome, IfNone, SomeIff};
ghost use Rattle.std.specs.Str.Parse.{IsNumeral, digits_value};
ghost use Rattle.og_words.specs.Grammar.{IsNumber};

/// The number from 1 to the highest that the word writes in so many digits at most.
pub fn number_of(word: &str, most: usize, highest: u32) -> Option<u32>
    ensures number { IfSome result (IsNumber most highest word.now) }
    ensures lacking { IfNone result ((n : ℕ) → ¬ IsNumber most highest word.now n) }
{
    if word.len() > most {
        return None;
    }
    let n = unsigned(word)?;
    if n < 1 || n > highest {
        return None;
    }
    Some(n)
}

// The number of 32 bits that the word writes in digits alone. std reads a plus sign too.
fn unsigned(word: &str) -> Option<u32>
    ensures { SomeIff result (IsNumeral 10 word.now × (digits_value 10 word.now < 2 ^ 32)) (digits_value 10 word.now) }
{
    if word.as_bytes().first() == Some(&b'+') {
        return None;
    }
    word.parse::<u32>().ok()
}
