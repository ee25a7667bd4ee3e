//! The target that clap's matches ask for.
ghost use Rattle.std.specs.Borrow.{Bor};
ghost use Rattle.std.specs.Prelude.{◌≡◌, ℕ, List, Err, IfOk, Some, None, option_map};
ghost use Rattle.clap.specs.Words.{first_of, found_of, rows_of};
ghost use Rattle.og_sql_words.specs.Asked as spec;
ghost use Rattle.og_sql_words.specs.declared.asked.WordsRefusal.{WordsRefusal};
ghost use Rattle.og_sql_words.specs.declared.target.Target as targets;

use crate::asked::{Asked, WordsRefusal};
use crate::target::{ExplainForm, LiveForm, Spread, Target};
use clap::ArgMatches;
use og_value::{Name, NameRefusal};
use std::alloc::Global;

/// The SQL that is asked for, by the values of the options. `WrongWords` exactly where a value is none, or both ways to
/// spread tables are asked for.
pub fn asked_of(alloc: Global, matches: &ArgMatches<'_>) -> Result<Asked, WordsRefusal>
    ensures sql { IfOk result (spec.IsSqlFor (rows_of (found_of matches.now))) }
    ensures wrong { result ≡ Err WordsRefusal.WrongWords → (t : targets.Target) → ¬ spec.IsTarget (rows_of (found_of matches.now)) t }
{
    let explain = explain_of(value_of(matches, "explain"));
    let Some(live) = live_of(value_of(matches, "live")) else {
        return Err(WordsRefusal::WrongWords);
    };
    match spread_of(
        alloc,
        value_of(matches, "shard-by"),
        value_of(matches, "citus"),
    ) {
        Ok(spread) => Ok(Asked::Sql(Target {
            live,
            explain,
            spread,
        })),
        Err(refusal) => Err(refusal),
    }
}

// The value of the argument of that name.
fn value_of<'a>(matches: &ArgMatches<'a>, name: &str) -> Option<&'a str>
    ensures { option_map (λ (s : Bor (List ℕ)). s.now) result ≡ first_of name.now (rows_of (found_of matches.now)) }
{
    matches.get_str(name)
}

// What EXPLAIN gives, by the value of the flag.
fn explain_of(flag: Option<&str>) -> ExplainForm
    ensures { result ≡ spec.explain_of (option_map (λ (s : Bor (List ℕ)). s.now) flag.entry) }
{
    match flag {
        Some("true") => ExplainForm::PostgreSql,
        _ => ExplainForm::Ongq,
    }
}

// How live results are kept, by the value of the option: a view where it is not given.
fn live_of(value: Option<&str>) -> Option<LiveForm>
    ensures { result ≡ spec.live_of (option_map (λ (s : Bor (List ℕ)). s.now) value.entry) }
{
    match value {
        None | Some("view") => Some(LiveForm::View),
        Some("table") => Some(LiveForm::Table),
        Some(_) => None,
    }
}

// Over which servers the tables are spread, by the values of the two options.
fn spread_of(
    alloc: Global,
    shards: Option<&str>,
    citus: Option<&str>,
) -> Result<Spread, WordsRefusal>
    ensures spread { IfOk result (λ s. spec.spread_of (option_map (λ (s : Bor (List ℕ)). s.now) shards.entry) (option_map (λ (s : Bor (List ℕ)). s.now) citus.entry) ≡ Some s) }
    ensures wrong { result ≡ Err WordsRefusal.WrongWords → spec.spread_of (option_map (λ (s : Bor (List ℕ)). s.now) shards.entry) (option_map (λ (s : Bor (List ℕ)). s.now) citus.entry) ≡ None }
{
    match (shards, citus) {
        (None, None) => Ok(Spread::One),
        (Some(column), None) => match column_of(alloc, column) {
            Ok(name) => Ok(Spread::Shards(name)),
            Err(refusal) => Err(refusal),
        },
        (None, Some(column)) => match column_of(alloc, column) {
            Ok(name) => Ok(Spread::Citus(name)),
            Err(refusal) => Err(refusal),
        },
        (Some(_), Some(_)) => Err(WordsRefusal::WrongWords),
    }
}

// The name of the column.
fn column_of(alloc: Global, word: &str) -> Result<Name, WordsRefusal>
    ensures column { IfOk result (λ n. spec.column_of word.now ≡ Some n) }
    ensures wrong { result ≡ Err WordsRefusal.WrongWords → spec.column_of word.now ≡ None }
{
    match Name::of(alloc, word.as_bytes()) {
        Ok(name) => Ok(name),
        Err(NameRefusal::NotAName) => Err(WordsRefusal::WrongWords),
        Err(NameRefusal::NoMemory) => Err(WordsRefusal::NoMemory),
    }
}
