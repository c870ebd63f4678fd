ghost use Rattle.std.specs.Prelude.{ℕ, List};
ghost use Rattle.fort_lex_token.specs.declared.token.Tokens.{Tokens};
ghost use Rattle.fort_tree.specs.declared.declarations.Component.{Component};
ghost use Rattle.fort_lex.specs.Files.{HasTokens};
ghost use Rattle.fort_syntax.specs.Answer.{IsComponent};
ghost use Rattle.fort_lex_canonical.specs.Canonical.{canonical};
ghost use Rattle.fort_tree_law_reread.specs.Same.{IsSameTree};

/// A law: where a file has a component, what is read from its canonical text has one too, and it is
/// the same tree, but for places and the gap before the first token.
pub fn reading_again_gives_the_same_tree()
    ensures { (bytes : List ℕ) (ts us : Tokens) (c : Component) → HasTokens bytes ts
        → HasTokens (canonical ts) us → IsComponent ts c
        → (d : Component) × IsComponent us d × IsSameTree c d }
{}
