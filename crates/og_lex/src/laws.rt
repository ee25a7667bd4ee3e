//! What is known of the tokens of any script.
ghost use Rattle.std.specs.Prelude.{◌≡◌, ◌≤◌, ◌⊎◌, ◌++◌, ℕ, List, [], length};
ghost use Rattle.std.specs.List.{All};
ghost use Rattle.std.specs.Str.{IsUtf8};
ghost use Rattle.og_lex.specs.Faults.{IsFirstFault};
ghost use Rattle.og_lex.specs.Grammar.{IsLexed, IsTextAt, IsToken, IsTokenOf, HasText, Rise};
ghost use Rattle.og_lex.specs.declared.refusal.LexRefusal.{LexRefusal};
ghost use Rattle.og_lex.specs.declared.token.Token.{Token};
ghost use Rattle.og_lex.specs.declared.token.TokenKind.{TokenKind};

/// A script has at most one list of tokens.
pub fn one_list_a_script()
    ensures one_list { (script : List ℕ) (tokens others : List Token) → IsLexed script tokens → IsLexed script others → tokens ≡ others }
{}

/// A script has tokens or a first fault, not both, and at most one fault.
pub fn tokens_or_a_fault()
    ensures some { (script : List ℕ) → ((tokens : List Token) × IsLexed script tokens) ⊎ ((fault : LexRefusal) × IsFirstFault script fault) }
    ensures apart { (script : List ℕ) (tokens : List Token) (fault : LexRefusal) → IsLexed script tokens → ¬ IsFirstFault script fault }
    ensures one_fault { (script : List ℕ) (fault other : LexRefusal) → IsFirstFault script fault → IsFirstFault script other → fault ≡ other }
{}

/// A token is at least as long as each token that its bytes and those after it begin with.
pub fn longest_token()
    ensures longest { (kind other : TokenKind) (text rest longer after : List ℕ) → IsToken kind text rest → text ++ rest ≡ longer ++ after → IsToken other longer [] → length longer ≤ length text }
{}

/// The spans of a script's tokens rise and lie within it, and each token is of its kind there. A
/// text token has one content, which is UTF-8.
pub fn tokens_of_a_script()
    ensures rising { (script : List ℕ) (tokens : List Token) → IsLexed script tokens → Rise 0 tokens (length script) }
    ensures kinds { (script : List ℕ) (tokens : List Token) → IsLexed script tokens → All (IsTokenOf script) tokens }
    ensures texts { (script : List ℕ) (token : Token) → IsTokenOf script token → token.kind ≡ TokenKind.Text → HasText script token }
    ensures one_content { (script : List ℕ) (token : Token) (content other : List ℕ) → IsTextAt script token content → IsTextAt script token other → content ≡ other }
    ensures utf8 { (script : List ℕ) (token : Token) (content : List ℕ) → IsTokenOf script token → token.kind ≡ TokenKind.Text → IsTextAt script token content → IsUtf8 content }
{}
