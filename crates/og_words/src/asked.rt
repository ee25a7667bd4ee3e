//! Which words clap is asked about.
ghost use Rattle.std.specs.Prelude.{◌≡◌, map};
ghost use Rattle.std.specs.List.{list_all};
ghost use Rattle.og_words.specs.Shape.{are_asked, is_asked, is_name};
ghost use Rattle.og_words.specs.Grammar.{is_value};

/// Whether clap is asked about the words: `run`, `at` or `load`, and at most three more, each a value
/// or the option.
pub fn are_asked(words: &[&str]) -> bool
    ensures { result ≡ are_asked (map (λ w. w.now) words.now) }
{
    let Some((first, rest)) = words.split_first() else {
        return false;
    };
    is_name(first) && rest.len() <= 3 && are_all_asked(rest)
}

// Whether the word is that of a command.
fn is_name(word: &str) -> bool
    ensures { result ≡ is_name word.now }
{
    word == "run" || word == "at" || word == "load"
}

// Whether each word is a value or the option.
fn are_all_asked(words: &[&str]) -> bool
    ensures { result ≡ list_all (λ w. is_asked w.now) words.now }
{
    words.iter().all(|word| is_asked(word))
}

// Whether the word is a value, or the option with or without its value in it.
fn is_asked(word: &str) -> bool
    ensures { result ≡ is_asked word.now }
{
    is_value(word) || word == "--workers" || word.as_bytes().starts_with(b"--workers=".as_slice())
}

// Whether the word is not empty and has no `-` at its front.
fn is_value(word: &str) -> bool
    ensures { result ≡ is_value word.now }
{
    match word.as_bytes().first() {
        Some(byte) => *byte != b'-',
        None => false,
    }
}
