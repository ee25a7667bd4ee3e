//! Laws on the grammar, over its definitions alone.
ghost use Rattle.std.specs.Prelude.{List, ℕ, Bool};
ghost use Rattle.og_syntax.specs.Follow.{IsReaderOf, anything, after_expr, after_cond, after_alias, after_query};
ghost use Rattle.og_syntax.specs.Reader as reader;
ghost use Rattle.og_syntax.specs.Grammar.{IsName, IsQuoted, IsText, IsLit, IsExpr, IsCond, IsFitem, IsQuery};

/// Each reader gives what its rule relates to the lexemes, and nothing where its rule relates
/// nothing. Lexemes have one tree at most by each rule, where no lexeme follows that would go on
/// with it.
pub fn readers_are_rules()
    ensures name { (script : List ℕ) → IsReaderOf anything (reader.name script) (IsName script) }
    ensures quoted { (script : List ℕ) → IsReaderOf anything (reader.quoted script) (IsQuoted script) }
    ensures text { (script : List ℕ) → IsReaderOf anything (reader.text script) (IsText script) }
    ensures literal { (script : List ℕ) (strict : Bool) → IsReaderOf anything (reader.lit script strict) (IsLit script strict) }
    ensures expression { (script : List ℕ) (strict : Bool) → IsReaderOf after_expr (reader.expr script strict) (IsExpr script strict) }
    ensures condition { (script : List ℕ) (strict : Bool) → IsReaderOf after_cond (reader.cond script strict) (IsCond script strict) }
    ensures table_name { (script : List ℕ) → IsReaderOf after_alias (reader.fitem script) (IsFitem script) }
    ensures query { (script : List ℕ) (strict live : Bool) → IsReaderOf after_query (reader.query script strict live) (IsQuery script strict live) }
{}
