ghost use Rattle.std.specs.Prelude.{◌≡◌, ℕ, List};
ghost use Rattle.fort_lex_token.specs.declared.token.Tokens.{Tokens};
ghost use Rattle.fort_lex.specs.Files.{HasTokens};
ghost use Rattle.fort_lex_canonical.specs.Canonical.{canonical};
ghost use Rattle.fort_lex_canonical.specs.Written.{IsAlike};
ghost use Rattle.fort_lex_law_reread.specs.Again.{IsReadAgain};

/// A law: the canonical text of a file's tokens has tokens itself, and each reading of it gives
/// these again, but for places and the gap before the first one.
pub fn canonical_text_is_read_back()
    ensures some { (bytes : List ℕ) (ts : Tokens) → HasTokens bytes ts
        → (us : Tokens) × HasTokens (canonical ts) us × IsReadAgain ts us }
    ensures each { (bytes : List ℕ) (ts us : Tokens) → HasTokens bytes ts
        → HasTokens (canonical ts) us → IsReadAgain ts us }
{}

/// A law: what is read from canonical text is shown as that text again.
pub fn showing_twice_is_showing_once()
    ensures { (bytes : List ℕ) (ts us : Tokens) → HasTokens bytes ts → HasTokens (canonical ts) us
        → canonical us ≡ canonical ts }
{}

/// A law: files whose tokens have one canonical text have the same tokens, but for places and the
/// gap before the first one.
pub fn canonical_text_tells_tokens_apart()
    ensures { (source other : List ℕ) (ts us : Tokens) → HasTokens source ts → HasTokens other us
        → canonical ts ≡ canonical us → IsAlike ts us }
{}
