ghost use Rattle.std.specs.Prelude.{◌≡◌, ◌⊎◌, ℕ, List, true, false};
ghost use Rattle.fort_base.specs.declared.refusal.Rule.{Rule};
ghost use Rattle.fort_base.specs.declared.refusal.Place.{Place};
ghost use Rattle.fort_lex_token.specs.declared.token.Tokens.{Tokens};
ghost use Rattle.fort_lex_scan.specs.Spelling.{is_symbol};
ghost use Rattle.fort_lex.specs.Meanings.{meaning_of, is_numbered};
ghost use Rattle.fort_lex.specs.Files.{HasTokens, BreaksRule};

/// A law: a file has a list of tokens or breaks a rule, and not both; and it has at most one list.
pub fn one_answer(_source: &[u8])
    ensures some { ((ts : Tokens) × HasTokens _source.now ts)
        ⊎ ((r : Rule) × (place : Place) × BreaksRule _source.now r place) }
    ensures once { (ts us : Tokens) → HasTokens _source.now ts → HasTokens _source.now us
        → ts ≡ us }
    ensures apart { (ts : Tokens) (r : Rule) (place : Place) → HasTokens _source.now ts
        → BreaksRule _source.now r place → ⊥ }
{}

/// A law: every symbol is an operator, another symbol or a reserved word, and none is taken for a
/// name.
pub fn no_symbol_is_a_name()
    ensures { (w : List ℕ) → is_symbol w ≡ true → is_numbered (meaning_of w) ≡ false }
{}
