ghost use Rattle.std.specs.Prelude.{◌≡◌};
ghost use Rattle.fort_lex_token.specs.declared.token.Tokens.{Tokens};
ghost use Rattle.fort_lex_canonical.specs.Canonical.{canonical};
ghost use Rattle.fort_lex_canonical.specs.Written.{WritesLast, WritesSpelling, IsAlike};

/// A law: canonical text has each operator of the table in a spelling of its own, the Unicode one
/// where it has one.
pub fn operators_are_written_by_the_table()
    ensures spelled { WritesSpelling }
    ensures unicode { WritesLast }
{}

/// A law: places, and the gap before the first token, play no part in canonical text.
pub fn places_play_no_part()
    ensures { (ts us : Tokens) → IsAlike ts us → canonical ts ≡ canonical us }
{}
