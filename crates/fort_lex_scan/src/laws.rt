ghost use Rattle.std.specs.Prelude.{◌≡◌, ◌⊎◌, ℕ, List};
ghost use Rattle.fort_base.specs.declared.refusal.Rule.{Rule};
ghost use Rattle.fort_base.specs.declared.refusal.Place.{Place};
ghost use Rattle.fort_lex_scan.specs.Tokens.{Piece, HasPieces};
ghost use Rattle.fort_lex_scan.specs.Faults.{BreaksAt, IsList, IsFault, IsMany};

/// A law: a text has a list of tokens, or a first fault of 102 to 106, or too many tokens; pieces
/// that break no rule are its only ones, and where it has them it breaks none of 102 to 106.
pub fn one_reading(_text: &[char])
    ensures some { ((ps : List Piece) × IsList _text.now ps)
        ⊎ (((r : Rule) × (place : Place) × IsFault _text.now r place)
        ⊎ ((place : Place) × IsMany _text.now place)) }
    ensures once { (ps qs : List Piece) → HasPieces _text.now ps → HasPieces _text.now qs
        → ps ≡ qs }
    ensures apart { (ps : List Piece) (at : ℕ) (r : Rule) → HasPieces _text.now ps
        → BreaksAt _text.now at r → ⊥ }
{}
