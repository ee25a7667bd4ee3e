//! What is known of the statements of any tokens.
ghost use Rattle.std.specs.Prelude.{◌≡◌, ◌⊎◌, ℕ, List, Bool, true, false};
ghost use Rattle.og_lex.specs.declared.token.Token.{Token};
ghost use Rattle.og_syntax.specs.declared.lexeme.Lexeme.{Lexeme};
ghost use Rattle.og_syntax.specs.declared.tree.Stmt.{Stmt};
ghost use Rattle.og_parse.specs.Statements.{IsWhole};
ghost use Rattle.og_parse.specs.Script.{IsScript, IsFirstFault};
ghost use Rattle.og_parse.specs.declared.refusal.ParseRefusal.{ParseRefusal};

/// Lexemes are one statement at most, and the tokens of a script one list of statements at most.
pub fn one_tree()
    ensures statement { (script : List ℕ) (strict : Bool) (lexemes : List Lexeme) (stmt other : Stmt) → IsWhole script strict lexemes stmt → IsWhole script strict lexemes other → stmt ≡ other }
    ensures script { (script : List ℕ) (tokens : List Token) (stmts others : List Stmt) → IsScript script tokens stmts → IsScript script tokens others → stmts ≡ others }
{}

/// Lexemes that are a statement by the strict grammar are one by the lenient grammar.
pub fn strict_is_lenient()
    ensures { (script : List ℕ) (lexemes : List Lexeme) (stmt : Stmt) → IsWhole script true lexemes stmt → (other : Stmt) × IsWhole script false lexemes other }
{}

/// The tokens of a script have statements or a first fault, not both, and at most one fault.
pub fn tree_or_fault()
    ensures some { (script : List ℕ) (tokens : List Token) → ((stmts : List Stmt) × IsScript script tokens stmts) ⊎ ((fault : ParseRefusal) × IsFirstFault script tokens fault) }
    ensures apart { (script : List ℕ) (tokens : List Token) (stmts : List Stmt) (fault : ParseRefusal) → IsScript script tokens stmts → ¬ IsFirstFault script tokens fault }
    ensures one_fault { (script : List ℕ) (tokens : List Token) (fault other : ParseRefusal) → IsFirstFault script tokens fault → IsFirstFault script tokens other → fault ≡ other }
{}
